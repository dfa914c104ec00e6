//! Programs and stores as texts.
use chr_base::atom::Atom;
use chr_base::bag::Bag;
use chr_base::derivation::Step;
use chr_overlaps::Overlap;
use chr_testing::texts::{self, weighed_of};
use chr_weights::Weighed;
use std::alloc::Global;
use std::fmt::Write;
use std::process::Abort;

/// The program of a text, which is one and lowers.
pub fn weighed(rt: &impl Abort, alloc: Global, text: &str) -> Weighed {
    weighed_of(alloc, text).expect(rt, "a program that lowers")
}

/// The text of a store.
pub fn told(rt: &impl Abort, alloc: Global, weighed: &Weighed, store: &Bag) -> String {
    texts::told(alloc, weighed.program(), store).expect(rt, "memory")
}

/// The text of atoms in this order.
fn atoms_text(rt: &impl Abort, alloc: Global, weighed: &Weighed, atoms: &[Atom]) -> String {
    texts::atoms_text(alloc, weighed.program(), atoms).expect(rt, "memory")
}

pub fn push(rt: &impl Abort, text: &mut String, more: &str) {
    text.push_str(more).expect(rt, "memory");
}

fn push_number(rt: &impl Abort, text: &mut String, number: u64) {
    write!(text, "{number}").expect(rt, "memory");
}

/// Asserts that this is the text that is expected.
pub fn is_text(rt: &impl Abort, found: &str, expected: &str) {
    assert!(rt; found == expected, "{found}");
}

/// The numbers of the overlap's rules, and its matching.
pub fn push_overlap(rt: &impl Abort, text: &mut String, overlap: &Overlap) {
    push_number(rt, text, u64::from(overlap.first));
    push(rt, text, " ");
    push_number(rt, text, u64::from(overlap.second));
    push(rt, text, " (");
    for (i, entry) in overlap.matching.iter().enumerate() {
        push(rt, text, if i > 0 { "," } else { "" });
        push_number(rt, text, u64::from(*entry));
    }
    push(rt, text, ")");
}

/// The number of the step's rule, and its heads.
pub fn push_step(
    rt: &impl Abort,
    alloc: Global,
    text: &mut String,
    weighed: &Weighed,
    step: &Step,
) {
    push_number(rt, text, u64::from(step.rule));
    push(rt, text, " on ");
    push(rt, text, &atoms_text(rt, alloc, weighed, &step.heads));
}
