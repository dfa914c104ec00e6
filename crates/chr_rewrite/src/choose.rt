//! The search for an instance of a rule among the atoms of a list.
ghost use Rattle.std.specs.Prelude.{◌≡◌, ◌<◌, ◌≤◌, ◌&&◌, [], IfSome, IfNone, IsTrue, length, nat_eq, get_or};
ghost use Rattle.std.specs.Bool.{OnTrue, OnFalse};
ghost use Rattle.chr_base.specs.declared.limits.TheConstants.{MAX_HEADS};
ghost use Rattle.chr_base.specs.Atoms.{atom_cmp};
ghost use Rattle.chr_base.specs.FinBag.{IsWithin, is_rising};
ghost use Rattle.chr_base.specs.Stores.{store_of};
ghost use Rattle.chr_base.specs.Rules.{heads_of, HasInstance, HasNoStep};
ghost use Rattle.chr_rewrite.specs.working.Choices.{chosen_atoms, is_choice, NoCompletion, IsFirstChoice, has_shape_at};
ghost use Rattle.chr_rewrite.specs.Derivations.{IsLeastInstance};

use arrayvec::ArrayVec;
use chr_base::atom::Atom;
use chr_base::limits::MAX_HEADS;
use chr_base::rule::Rule;

/// Whether the atom has the symbol and the number of arguments of the pattern at a head place.
fn has_shape_at(rule: &Rule, place: usize, atom: &Atom) -> bool
    requires { place < length (heads_of rule.now) }
    ensures { result ≡ has_shape_at rule.now place atom.now }
{
    let pattern = rule.head_at(place);
    pattern.symbol.0 == atom.symbol.0 && pattern.args.len() == atom.args.len()
}

/// The atoms at these indices.
fn atoms_at(items: &[Atom], indices: &[usize]) -> ArrayVec<Atom, MAX_HEADS>
    requires choice { IsTrue (is_choice items.now [] indices.now) }
    requires room { length indices.now ≤ MAX_HEADS }
    ensures { result.items ≡ chosen_atoms items.now indices.now }
{
    let mut atoms = ArrayVec::new();
    for i in indices {
        atoms.push(items[*i].copy());
    }
    atoms
}

/// Goes on from the indices that are chosen, one for each of the first head places, to an instance of the rule: to the
/// one whose indices come first, place by place.
fn complete(rule: &Rule, items: &[Atom], chosen: &mut ArrayVec<usize, MAX_HEADS>) -> bool
    requires choice { IsTrue (is_choice items.now [] chosen.old.items) }
    requires room { length chosen.old.items ≤ length (heads_of rule.now) }
    ensures choice { IsTrue (is_choice items.now [] chosen.new.items) }
    ensures found { OnTrue result (HasInstance rule.now (chosen_atoms items.now chosen.new.items)) }
    ensures first { OnTrue result (IsFirstChoice rule.now items.now chosen.old.items chosen.new.items) }
    ensures none { OnFalse result (NoCompletion rule.now items.now chosen.old.items) }
    ensures same { OnFalse result (chosen.new.items ≡ chosen.old.items) }
{
    let place = chosen.len();
    if place == rule.places() {
        return rule.fires(&atoms_at(items, chosen));
    }
    for (i, item) in items.iter().enumerate() {
        if has_shape_at(rule, place, item) && !chosen.contains(&i) {
            chosen.push(i);
            if complete(rule, items, chosen) {
                return true;
            }
            chosen.pop();
        }
    }
    false
}

/// The heads, in place order, of an instance of the rule among these atoms. Where the atoms are in order, no instance
/// has heads that come before these.
pub(crate) fn find_instance(rule: &Rule, items: &[Atom]) -> Option<ArrayVec<Atom, MAX_HEADS>>
    ensures instance { IfSome result (λ heads. HasInstance rule.now heads.items) }
    ensures there { IfSome result (λ heads. IsWithin (store_of heads.items) (store_of items.now)) }
    ensures least { IsTrue (is_rising atom_cmp items.now) →
        IfSome result (λ heads. IsLeastInstance rule.now (store_of items.now) heads.items) }
    ensures none { IfNone result (HasNoStep rule.now (store_of items.now)) }
{
    let mut chosen = ArrayVec::new();
    if complete(rule, items, &mut chosen) {
        Some(atoms_at(items, &chosen))
    } else {
        None
    }
}
