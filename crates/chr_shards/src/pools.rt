//! Pools of one store.
ghost use Rattle.std.specs.Prelude.{◌≡◌, ◌↔◌, ◌<◌, ◌≤◌, ℕ, IfOk, IfErr, IsTrue, OnOk, OnErr, length, replicate};
ghost use Rattle.std.specs.Prelude.{[], ◌∷◌};
ghost use Rattle.chr_base.specs.FinBag as bag;
ghost use Rattle.chr_base.specs.FinBag.{◌⊕◌, ◌⊖◌, IsWithin};
ghost use Rattle.chr_base.specs.Rewriting.{IsAtRest};
ghost use Rattle.chr_base.specs.Rules.{Step};
ghost use Rattle.chr_base.specs.Stores.{size, store_of, stores_sum};
ghost use Rattle.chr_weights.specs.WeighedPrograms.{program_of, rules_in};
ghost use Rattle.chr_rewrite.specs.Pools.{TookSteps};
ghost use Rattle.chr_shards.specs.working.Placed.{store_at, ArePlaced, ReachEach};

use crate::placing::Placing;
use chr_base::atom::Atom;
use chr_base::bag::Bag;
use chr_base::lists::{count_of, push_copies};
use chr_base::rule::Rule;
use chr_columns::columns::Columns;
use chr_rewrite::resting::{Stopped, at_rest, rest};
use chr_weights::Weighed;
use rayon::prelude::*;
use std::alloc::{AllocError, Global};
use std::slice;
use std::thread::Threads;

/// Up to this many runs of atoms in order are put together by one thread sooner than they are sorted by several.
const MOST_RUNS: usize = 8;

/// `count` empty pools of these rules.
pub(crate) fn empty_pools(
    alloc: Global,
    seed: u64,
    rules: &[Rule],
    count: usize,
) -> Result<Vec<Columns>, AllocError>
    ensures { IfOk result (λ pools. pools.items ≡ replicate count bag.empty) }
{
    let mut pools = Vec::with_capacity(alloc, count)?;
    for _ in 0..count {
        pools.push(Columns::seeded(alloc, seed, rules)?)?;
    }
    Ok(pools)
}

/// Puts an atom in. Where memory is refused the store is as it was.
fn insert_one(placing: &Placing, pools: &mut Vec<Columns>, atom: &Atom) -> Result<(), AllocError>
    requires some { 0 < length pools.old.items }
    requires placed { ArePlaced placing.now pools.old.items }
    ensures placed { ArePlaced placing.now pools.new.items }
    ensures len { length pools.new.items ≡ length pools.old.items }
    ensures ok { OnOk result (stores_sum pools.new.items ≡ stores_sum pools.old.items ⊕ store_of (atom.now ∷ [])) }
    ensures err { OnErr result (stores_sum pools.new.items ≡ stores_sum pools.old.items) }
{
    let place = placing.place(pools.len(), atom);
    pools[place].insert(slice::from_ref(atom))
}

/// Takes one such atom out, where there is one. It takes no memory.
fn remove_one(placing: &Placing, pools: &mut Vec<Columns>, atom: &Atom)
    requires some { 0 < length pools.old.items }
    requires placed { ArePlaced placing.now pools.old.items }
    ensures placed { ArePlaced placing.now pools.new.items }
    ensures len { length pools.new.items ≡ length pools.old.items }
    ensures left { stores_sum pools.new.items ≡ stores_sum pools.old.items ⊖ store_of (atom.now ∷ []) }
{
    let place = placing.place(pools.len(), atom);
    pools[place].remove(slice::from_ref(atom));
}

/// Takes these atoms out, as far as they are there. The last one goes first, so that atoms that were just put in are
/// found at once. It takes no memory.
pub(crate) fn remove_each(placing: &Placing, pools: &mut Vec<Columns>, atoms: &[Atom])
    requires some { 0 < length pools.old.items }
    requires placed { ArePlaced placing.now pools.old.items }
    ensures placed { ArePlaced placing.now pools.new.items }
    ensures len { length pools.new.items ≡ length pools.old.items }
    ensures left { stores_sum pools.new.items ≡ stores_sum pools.old.items ⊖ store_of atoms.now }
{
    for i in (0..atoms.len()).rev() {
        remove_one(placing, pools, &atoms[i]);
    }
}

/// Puts all of these atoms into the only pool. Where memory is refused the store is as it was.
fn insert_all(placing: &Placing, pools: &mut Vec<Columns>, atoms: &[Atom]) -> Result<(), AllocError>
    requires one { length pools.old.items ≡ 1 }
    requires placed { ArePlaced placing.now pools.old.items }
    ensures placed { ArePlaced placing.now pools.new.items }
    ensures len { length pools.new.items ≡ length pools.old.items }
    ensures ok { OnOk result (stores_sum pools.new.items ≡ stores_sum pools.old.items ⊕ store_of atoms.now) }
    ensures err { OnErr result (stores_sum pools.new.items ≡ stores_sum pools.old.items) }
{
    pools[0].insert(atoms)
}

/// Puts all of these atoms in. Where memory is refused the store is as it was.
pub(crate) fn insert_each(
    placing: &Placing,
    pools: &mut Vec<Columns>,
    atoms: &[Atom],
) -> Result<(), AllocError>
    requires some { 0 < length pools.old.items }
    requires placed { ArePlaced placing.now pools.old.items }
    ensures placed { ArePlaced placing.now pools.new.items }
    ensures len { length pools.new.items ≡ length pools.old.items }
    ensures ok { OnOk result (stores_sum pools.new.items ≡ stores_sum pools.old.items ⊕ store_of atoms.now) }
    ensures err { OnErr result (stores_sum pools.new.items ≡ stores_sum pools.old.items) }
{
    if pools.len() == 1 {
        return insert_all(placing, pools, atoms);
    }
    for (i, atom) in atoms.iter().enumerate() {
        if insert_one(placing, pools, atom).is_err() {
            remove_each(placing, pools, &atoms[..i]);
            return Err(AllocError);
        }
    }
    Ok(())
}

/// Whether all of these atoms are in the store, as a multiset. It takes no memory.
pub(crate) fn have_each(placing: &Placing, pools: &[Columns], atoms: &[Atom]) -> bool
    requires some { 0 < length pools.now }
    requires placed { ArePlaced placing.now pools.now }
    ensures { IsTrue result ↔ IsWithin (store_of atoms.now) (stores_sum pools.now) }
{
    for atom in atoms {
        let place = placing.place(pools.len(), atom);
        if !pools[place].has_as_often(atom, count_of(atoms, atom)) {
            return false;
        }
    }
    true
}

/// All atoms, in whatever order.
fn atoms_of(alloc: Global, pools: &[Columns]) -> Result<Vec<Atom>, AllocError>
    ensures { IfOk result (λ atoms. store_of atoms.items ≡ stores_sum pools.now) }
{
    let mut atoms = Vec::new(alloc);
    for pool in pools {
        pool.push_atoms(&mut atoms)?;
    }
    Ok(atoms)
}

/// All atoms as a bag.
pub(crate) fn bag_of(alloc: Global, pools: &[Columns]) -> Result<Bag, AllocError>
    ensures { IfOk result (λ b. b ≡ stores_sum pools.now) }
{
    Bag::of(atoms_of(alloc, pools)?)
}

/// The number of atoms that belong before the one in front of them. There is one more run of atoms in order.
fn breaks_in(atoms: &[Atom]) -> usize {
    let mut breaks: usize = 0;
    for i in 1..atoms.len() {
        if atoms[i - 1].is_after(&atoms[i]) {
            breaks = breaks.saturating_add(1);
        }
    }
    breaks
}

/// Puts the runs of atoms in order together by one thread. Where memory is refused they stay as they are.
#[tactic(auto, using(chr_base::proofs::Sorting::same_multiset))]
fn merge_runs(atoms: &mut Vec<Atom>)
    ensures { store_of atoms.new.items ≡ store_of atoms.old.items }
{
    let _ = atoms.sort_by(|left, right| left.order(right));
}

/// Sorts atoms by several threads.
fn sort_by_threads<R: Threads + Sync>(rt: &R, atoms: &mut Vec<Atom>)
    ensures { store_of atoms.new.items ≡ store_of atoms.old.items }
{
    par_sort_unstable_by(rt, atoms, |left: &Atom, right: &Atom| left.order(right));
}

/// Puts atoms in order, as far as memory allows it. The rows of a pool often are in order, so that those of several
/// pools are few runs.
fn put_in_order<R: Threads + Sync>(rt: &R, atoms: &mut Vec<Atom>)
    ensures { store_of atoms.new.items ≡ store_of atoms.old.items }
{
    match breaks_in(atoms) {
        0 => {}
        breaks if breaks < MOST_RUNS => merge_runs(atoms),
        _ => sort_by_threads(rt, atoms),
    }
}

/// Like [`bag_of`], but several threads put the atoms in order where there are many runs.
pub(crate) fn bag_by<R: Threads + Sync>(
    rt: &R,
    alloc: Global,
    pools: &[Columns],
) -> Result<Bag, AllocError>
    ensures { IfOk result (λ b. b ≡ stores_sum pools.now) }
{
    let mut atoms = atoms_of(alloc, pools)?;
    put_in_order(rt, &mut atoms);
    Bag::of(atoms)
}

/// All atoms, those of each pool in the order of the arguments by which the rules join them.
pub(crate) fn arranged(alloc: Global, pools: &[Columns]) -> Result<Vec<Atom>, AllocError>
    ensures { IfOk result (λ atoms. store_of atoms.items ≡ stores_sum pools.now) }
{
    if let [pool] = pools {
        return pool.arranged(alloc);
    }
    let mut atoms = Vec::new(alloc);
    for pool in pools {
        push_copies(&mut atoms, &pool.arranged(alloc)?)?;
    }
    Ok(atoms)
}

/// How many atoms are fresh.
pub(crate) fn waiting(pools: &[Columns]) -> usize
    ensures { result ≤ size (stores_sum pools.now) }
{
    let mut waiting: usize = 0;
    for pool in pools {
        waiting = waiting.saturating_add(pool.waiting());
    }
    waiting
}

/// Puts the fresh atoms of a pool in the order in which its rules find partners, and rests it.
pub(crate) fn rest_one(weighed: &Weighed, pool: &mut Columns) -> Result<u64, Stopped>
    ensures ok { IfOk result (λ n. TookSteps (program_of weighed.now) n pool.old pool.new) }
    ensures rests { OnOk result (IsAtRest (Step (rules_in weighed.now)) pool.new) }
    ensures stopped { IfErr result (λ e. TookSteps (program_of weighed.now) e.steps pool.old pool.new) }
{
    pool.arrange();
    rest(weighed, pool)
}

/// Rests one pool after the other.
pub(crate) fn rest_each(weighed: &Weighed, pools: &mut Vec<Columns>) -> Result<u64, Stopped>
    ensures each { ReachEach (rules_in weighed.now) pools.old.items pools.new.items }
    ensures ok { IfOk result (λ n.
        TookSteps (program_of weighed.now) n (stores_sum pools.old.items) (stores_sum pools.new.items)) }
    ensures rests { OnOk result ((k : ℕ) → k < length pools.new.items →
        IsAtRest (Step (rules_in weighed.now)) (store_at pools.new.items k)) }
    ensures stopped { IfErr result (λ e.
        TookSteps (program_of weighed.now) e.steps (stores_sum pools.old.items) (stores_sum pools.new.items)) }
{
    let mut steps: u64 = 0;
    for place in 0..pools.len() {
        match rest_one(weighed, &mut pools[place]) {
            Ok(more) => steps = steps.saturating_add(more),
            Err(stopped) => {
                let steps = steps.saturating_add(stopped.steps);
                return Err(Stopped { steps });
            }
        }
    }
    Ok(steps)
}

/// Whether each pool is at rest. It takes no memory.
pub(crate) fn rest_all(weighed: &Weighed, pools: &[Columns]) -> bool
    ensures { IsTrue result ↔
        ((k : ℕ) → k < length pools.now → IsAtRest (Step (rules_in weighed.now)) (store_at pools.now k)) }
{
    for pool in pools {
        if !at_rest(weighed, pool) {
            return false;
        }
    }
    true
}
