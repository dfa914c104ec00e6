//! The steps that a store has, by trying all its atoms at all head places.
use arrayvec::ArrayVec;
use chr_base::atom::Atom;
use chr_base::bag::Bag;
use chr_base::limits::MAX_HEADS;
use chr_base::rule::Rule;
use chr_rewrite::list::ListPool;
use chr_rewrite::plain::fired;
use chr_rewrite::pool::Pool;
use std::alloc::Global;
use std::process::Abort;

/// The plain list of a store's atoms.
pub fn list_of(rt: &impl Abort, alloc: Global, store: &Bag) -> ListPool {
    let mut list = ListPool::new(alloc);
    list.insert(store.atoms()).expect(rt, "memory");
    list
}

/// How many lists of this length there are of some atoms.
fn lists(atoms: usize, length: usize) -> usize {
    let mut count = 1usize;
    for _ in 0..length {
        count = count.saturating_mul(atoms);
    }
    count
}

/// The list of a number, among those of this length.
fn list_at(atoms: &[Atom], number: usize, length: usize) -> ArrayVec<Atom, MAX_HEADS> {
    let mut list = ArrayVec::new();
    let mut left = number;
    for _ in 0..length {
        let place = left.checked_rem(atoms.len()).unwrap_or(0);
        left = left.checked_div(atoms.len()).unwrap_or(0);
        if let Some(atom) = atoms.get(place) {
            let _ = list.try_push(atom.copy());
        }
    }
    list
}

/// Whether the rule has an instance with these heads that leads from the one store to the other.
fn leads(
    rt: &impl Abort,
    alloc: Global,
    rule: &Rule,
    heads: &[Atom],
    before: &Bag,
    after: &Bag,
) -> bool {
    let list = list_of(rt, alloc, before);
    if !rule.fires(heads) || !list.has(heads) {
        return false;
    }
    let bag = list.bag(alloc).expect(rt, "memory");
    let next = fired(alloc, rule, heads, &bag).expect(rt, "memory");
    next.is_same(after)
}

/// Whether a step of the rule leads from the one store to the other.
fn rule_leads(rt: &impl Abort, alloc: Global, rule: &Rule, before: &Bag, after: &Bag) -> bool {
    for number in 0..lists(before.len(), rule.places()) {
        let heads = list_at(before.atoms(), number, rule.places());
        if rule.fires(&heads) && leads(rt, alloc, rule, &heads, before, after) {
            return true;
        }
    }
    false
}

/// Whether a step of some rule leads from the one store to the other.
pub fn is_step(rt: &impl Abort, alloc: Global, rules: &[Rule], before: &Bag, after: &Bag) -> bool {
    for rule in rules {
        if rule_leads(rt, alloc, rule, before, after) {
            return true;
        }
    }
    false
}
