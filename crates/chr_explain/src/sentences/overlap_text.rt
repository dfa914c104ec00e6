//! Overlaps of two rules as they are told.

use crate::prose::Prose;
use chr_base::rule::Rule;
use chr_diagnosis::{NamedProgram, ToldRule, told_rule};
use chr_overlaps::Overlap;
use std::alloc::Global;

/// An overlap with its two rules.
#[derive(Clone, Copy)]
pub(crate) struct ToldOverlap<'a> {
    pub overlap: &'a Overlap,
    pub first: ToldRule<'a>,
    pub second: ToldRule<'a>,
}

/// An overlap of rules of the program. None where it has no such rules.
pub(crate) fn told_overlap<'a>(
    source: NamedProgram<'a>,
    overlap: &'a Overlap,
) -> Option<ToldOverlap<'a>> {
    let first = told_rule(source, overlap.first as usize)?;
    let second = told_rule(source, overlap.second as usize)?;
    Some(ToldOverlap {
        overlap,
        first,
        second: second.behind(first),
    })
}

/// Whether a rule without kept heads and without a guard takes the fact at this place together with one of another
/// symbol, and leaves something.
fn takes_with_another(rule: &Rule, place: usize) -> bool {
    let Some(taken) = rule.removed.get(place) else {
        return false;
    };
    let has_another = rule
        .removed
        .iter()
        .any(|other| other.symbol != taken.symbol);
    has_another && rule.kept.is_empty() && rule.guard.is_empty() && !rule.body.is_empty()
}

impl ToldOverlap<'_> {
    /// Whether one head alone is matched, with the same of its own rule, which takes it together with another fact.
    pub(crate) fn is_competition(&self) -> bool {
        let matching = self.overlap.matching.as_slice();
        let apart = matching.iter().take_while(|entry| **entry == 0).count();
        let matched = matching.iter().filter(|entry| **entry != 0).count();
        let is_itself = match matching.get(apart) {
            Some(entry) => usize::from(*entry) == usize::saturating_add(apart, 1),
            None => false,
        };
        self.is_of_one() && matched == 1 && is_itself && takes_with_another(self.first.rule, apart)
    }

    /// Whether a rule overlaps with itself.
    pub(crate) fn is_of_one(&self) -> bool {
        self.first.number == self.second.number
    }

    /// What the second rule is, beside its number.
    pub(crate) fn again(&self) -> &'static str {
        if self.is_of_one() { ", again" } else { "" }
    }

    /// Adds both rules, each in its line.
    pub(crate) fn push_rules(&self, alloc: Global, out: &mut Prose) {
        out.push_number("  rule ", self.first.number as u64, ": ");
        out.push_clause(alloc, self.first);
        out.push_number("\n  rule ", self.second.number as u64, self.again());
        out.push_str(": ");
        out.push_clause(alloc, self.second);
        out.push_str("\n")
    }

    /// Adds which heads are matched, each in its line.
    pub(crate) fn push_matched(&self, alloc: Global, out: &mut Prose) {
        out.push_str("One fact is matched by two heads:\n");
        for (place, entry) in self.overlap.matching.iter().enumerate() {
            if *entry != 0 {
                let first = usize::saturating_add(place, 1);
                self.push_heads(alloc, out, first, usize::from(*entry));
            }
        }
    }

    /// Adds these heads of the two rules.
    fn push_heads(&self, alloc: Global, out: &mut Prose, first: usize, second: usize) {
        out.push_str("  ");
        out.push_head(alloc, self.first, first);
        out.push_number(" of rule ", self.first.number as u64, " and ");
        out.push_head(alloc, self.second, second);
        out.push_number(" of rule ", self.second.number as u64, self.again());
        out.push_str("\n")
    }
}
