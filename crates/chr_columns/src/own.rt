//! Instances, where the pool has rules of its own.
ghost use Rattle.std.specs.Prelude.{IfSome, IfNone};
ghost use Rattle.std.specs.Bool.{OnTrue};
ghost use Rattle.chr_base.specs.FinBag.{◌⊕◌, IsWithin};
ghost use Rattle.chr_base.specs.Rules.{HasInstance, HasNoStep};
ghost use Rattle.chr_base.specs.Stores.{store_of};
ghost use Rattle.chr_columns.specs.working.Resting.{stored, IsRested};
ghost use Rattle.chr_columns.specs.working.Own.{IsOwn};
ghost use Rattle.chr_columns.specs.working.Sitting.{SitAmong};

use crate::instances::find_among;
use crate::rested::Rested;
use crate::rows::Rows;
use chr_base::atom::Atom;
use chr_base::rule::Rule;

/// Whether one of the rules says the same as this one.
fn is_own(rules: &[Rule], rule: &Rule) -> bool
    ensures { OnTrue result (IsOwn rules.now rule.now) }
{
    for own in rules {
        if own.is_same(rule) {
            return true;
        }
    }
    false
}

/// An instance of the rule, where there is one, and the different rows in which its heads sit. Where no atom is fresh
/// and the rule is one of those under which the others rest, there is none.
pub(crate) fn find_in(rested: &Rested, fresh: &[Atom], rule: &Rule) -> Option<Rows>
    requires { IsRested rested.now }
    ensures instance { IfSome result (λ found. HasInstance rule.now found.heads.items) }
    ensures there { IfSome result (λ found.
        IsWithin (store_of found.heads.items) (stored rested.now ⊕ store_of fresh.now)) }
    ensures sit { IfSome result (λ found.
        SitAmong rested.now.tables.tables.items fresh.now found.heads.items found.rows.items) }
    ensures none { IfNone result (HasNoStep rule.now (stored rested.now ⊕ store_of fresh.now)) }
{
    if fresh.is_empty() && is_own(&rested.rules, rule) {
        return None;
    }
    find_among(&rested.tables.tables, fresh, rule)
}
