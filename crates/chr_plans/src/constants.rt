//! Heads that an active atom cannot be, since their patterns have other constants.
ghost use Rattle.std.specs.Prelude.{◌≡◌, ◌<◌, length, map};
ghost use Rattle.std.specs.Bool.{OnFalse, OnTrue};
ghost use Rattle.chr_base.specs.Rules.{Valuation, heads_of, term_value};
ghost use Rattle.chr_plans.specs.Rows.{Tables};
ghost use Rattle.chr_plans.specs.Seats.{NoPartners};

use crate::plan::Plan;
use chr_base::atom::Atom;
use chr_base::rule::Rule;
use chr_base::term::{Pattern, Term};

/// Whether the pattern has a constant.
pub fn has_constants(pattern: &Pattern) -> bool {
    for term in pattern.args.as_slice() {
        if let Term::Constant(_) = term {
            return true;
        }
    }
    false
}

/// Whether some valuation gives the term this value.
fn may_have(term: &Term, value: &i64) -> bool
    ensures { OnFalse result ((v : Valuation) → ¬ (term_value v term.now ≡ value.now)) }
{
    match term {
        Term::Variable(_) => true,
        Term::Constant(constant) => constant == value,
    }
}

/// Whether each term by itself may have the value in its place.
fn may_have_all(terms: &[Term], values: &[i64]) -> bool
    ensures { OnFalse result ((v : Valuation) → ¬ (map (term_value v) terms.now ≡ values.now)) }
{
    let [term, terms @ ..] = terms else {
        return true;
    };
    let [value, values @ ..] = values else {
        return true;
    };
    if !may_have(term, value) {
        return false;
    }
    may_have_all(terms, values)
}

/// Whether the head of the plan has a constant that the active atom has not.
pub(crate) fn is_ruled_out(plan: &Plan, rule: &Rule, active: &Atom) -> bool
    requires { plan.now.place < length (heads_of rule.now) }
    ensures { OnTrue result ((rows : Tables) → NoPartners rule.now rows plan.now.place active.now) }
{
    plan.has_constants && !may_have_all(&rule.head_at(plan.place).args, &active.args)
}
