//! The number of a rule's variables.
ghost use Rattle.std.specs.Prelude.{◌≡◌, ◌+◌, ◌*◌, ◌^◌, ◌<◌, ◌≤◌, Some, IsSome, length};
ghost use Rattle.chr_base.specs.declared.limits.TheConstants.{MAX_ARITY, MAX_VARIABLES};
ghost use Rattle.chr_base.specs.RuleTests.{numbered};
ghost use Rattle.chr_confluence.specs.Overlaps.{variables_of};

use chr_base::rule::Rule;
use chr_base::term::{Pattern, Term};

/// The number of variables up to the end of these terms, where `before` were there before them.
fn count_in_terms(before: u8, terms: &[Term]) -> u8
    requires room { before + length terms.now < 2 ^ 8 }
    requires numbered { IsSome (numbered before terms.now) }
    ensures number { numbered before terms.now ≡ Some result }
    ensures most { result ≤ before + length terms.now }
{
    let mut count = before;
    for term in terms {
        if let Term::Variable(variable) = term {
            count = count.max(*variable);
        }
    }
    count
}

/// The number of variables of a rule, which are 1, 2, .. up to it.
pub fn variables(rule: &Rule) -> u8
    ensures number { result ≡ variables_of rule.now }
    ensures most { result ≤ MAX_VARIABLES }
{
    let mut count = 0;
    for place in 0..rule.places() {
        count = count_in_terms(count, &rule.head_at(place).args);
    }
    count
}
