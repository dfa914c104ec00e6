//! The cases of overlaps.
ghost use Rattle.chr_weights.specs.WeighedPrograms.{rules_in};
ghost use Rattle.chr_overlaps.specs.OverlapLists.{IsOverlapOf};

use crate::tests::overlaps::overlap_at;
use crate::tests::texts::{is_text, push, push_overlap, push_step, told, weighed};
use chr_overlaps::Overlap;
use chr_overlaps::cases::{Case, cases};
use chr_weights::Weighed;
use std::alloc::Global;
use std::process::Abort;

/// The cases of an overlap, of which there are not too many.
fn listed(rt: &impl Abort, alloc: Global, weighed: &Weighed, overlap: &Overlap) -> Vec<Case>
    requires { IsOverlapOf (rules_in weighed.now) overlap.now }
{
    cases(alloc, weighed, overlap)
        .ok()
        .expect(rt, "no more cases than the limit")
}

/// The store of a case, and both steps.
fn push_case(rt: &impl Abort, alloc: Global, text: &mut String, weighed: &Weighed, case: &Case) {
    push(rt, text, "; ");
    push(rt, text, &told(rt, alloc, weighed, &case.store));
    push(rt, text, ": ");
    push_step(rt, alloc, text, weighed, &case.left);
    push(rt, text, ", ");
    push_step(rt, alloc, text, weighed, &case.right);
}

/// The overlap at a place, counted from 0, and its cases.
fn cases_text(rt: &impl Abort, alloc: Global, weighed: &Weighed, place: usize) -> String {
    let overlap = overlap_at(rt, alloc, weighed, place);
    let mut text = String::new(alloc);
    push_overlap(rt, &mut text, &overlap);
    for case in &listed(rt, alloc, weighed, &overlap) {
        push_case(rt, alloc, &mut text, weighed, case);
    }
    text
}

/// A program, with the place of an overlap and its cases.
type CasesAt = (&'static str, usize, &'static str);

const CASES: [CasesAt; 3] = [
    (
        ":- chr_constraint p/2, q/1, r/1. :- chr_weight p/2 = 2. p(X,Y) <=> 3 < X, X < Y, Y < 6 | \
        q(X). p(X,Y) <=> 3 < X, X < Y, Y < 6 | r(X).",
        1,
        "1 2 (1); p(4,5): 1 on p(4,5), 2 on p(4,5)",
    ),
    // the one constant stands in a body only
    (
        ":- chr_constraint p/1, q/2, r/0. :- chr_weight p/1 = 3. :- chr_weight q/2 = 2. \
        p(X) <=> q(X,7). p(X) <=> r. q(X,Y) <=> X =< Y | r.",
        1,
        "1 2 (1); p(6): 1 on p(6), 2 on p(6); p(7): 1 on p(7), 2 on p(7); \
        p(8): 1 on p(8), 2 on p(8)",
    ),
    // the second place is matched with the first: X < Y < Y2
    (
        ":- chr_constraint a/1, b/1. a(X), a(Y) <=> X < Y | b(X).",
        0,
        "1 1 (0,1); a(0), a(1), a(2): 1 on a(0), a(1), 1 on a(1), a(2)",
    ),
];

fn expect_cases(rt: &impl Abort, alloc: Global, rows: &[CasesAt]) {
    for (text, place, expected) in rows {
        let found = cases_text(rt, alloc, &weighed(rt, alloc, text), *place);
        is_text(rt, &found, expected);
    }
}

/// A case has the matched atoms once, and the step of each rule on its own heads.
#[test]
fn cases_have_stores_and_steps(rt: HostRuntime) {
    expect_cases(&rt, rt.alloc(), &CASES);
}
