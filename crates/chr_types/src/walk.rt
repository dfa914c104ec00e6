//! A walk over order types that holds one of them at a time.
ghost use Rattle.std.specs.Prelude.{◌≡◌, ◌≤◌, ℤ, Bool, List, IfOk, length};
ghost use Rattle.std.specs.Bool.{OnFalse};
ghost use Rattle.chr_types.specs.Visits.{Visited};
ghost use Rattle.chr_types.specs.working.Walks.{walked};

use crate::search::{Candidate, holes_after};
use std::alloc::{AllocError, Global};

/// What each beginning of a list of values has to pass.
pub trait Beginnings {
    /// Whether lists that begin with these values are wanted.
    ghost admits: { Self → List ℤ → Bool };

    /// Whether lists that begin with `values` are wanted.
    fn goes_on(&self, values: &[i64]) -> bool
        ensures { result ≡ admits self.now values.now };
}

/// What is done at a list of values.
pub trait Visit {
    /// What a visit takes for granted.
    ghost ready: { Self → Type 0 };

    /// The visit leads from one value of the visitor to another, and tells whether the walk stops.
    ghost step: { Self → List ℤ → Bool → Self → Type 0 };

    /// Visits a list. Tells whether the walk stops there.
    ///
    /// # Errors
    /// Where memory is refused the walk ends, and nothing is known of the visitor.
    fn visit(&mut self, values: &[i64]) -> Result<bool, AllocError>
        requires { ready self.old }
        ensures visited { IfOk result (λ stops. step self.old values.now stops self.new) }
        ensures ready { IfOk result (λ _. ready self.new) };
}

/// Visits the lists that begin with the prefix, go on with `left` more values and are wanted, in lexicographic order,
/// up to the first that stops the walk. Tells whether one did; where none did, the prefix is as it was.
pub(crate) fn walk<T: Beginnings, V: Visit>(
    alloc: Global,
    candidates: &[Candidate],
    left: usize,
    prefix: &mut Vec<i64>,
    holes: &[i64],
    wanted: &T,
    visitor: &mut V,
) -> Result<bool, AllocError>
    requires few { length holes.now ≤ left }
    requires ready { V.ready visitor.old }
    ensures prefix { IfOk result (λ stopped. OnFalse stopped (prefix.new.items ≡ prefix.old.items)) }
    ensures ready { IfOk result (λ _. V.ready visitor.new) }
    ensures visited { IfOk result (λ stopped. Visited V.step visitor.old
        (walked (T.admits wanted.now) candidates.now left prefix.old.items holes.now) stopped visitor.new) }
{
    if left == 0 {
        return visitor.visit(prefix);
    }
    for candidate in candidates {
        let Some(after) = holes_after(alloc, prefix, holes, *candidate, left - 1)? else {
            continue;
        };
        prefix.push(candidate.value)?;
        if wanted.goes_on(prefix) {
            if walk(alloc, candidates, left - 1, prefix, &after, wanted, visitor)? {
                return Ok(true);
            }
        }
        prefix.pop();
    }
    Ok(false)
}
