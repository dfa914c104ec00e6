//! Bags under ids, seen as a finite map. How they are kept is known in this file alone.
ghost use Rattle.std.specs.Prelude.{◌≡◌, ◌≤◌, ◌++◌, ◌-◌, [], None, true, IfErr, IfNone, IfSome, IsTrue, OnOk, OnErr};
ghost use Rattle.std.specs.Prelude.{length, option_copied};
ghost use Rattle.std.specs.FinMap as map;
ghost use Rattle.std.specs.FinMap.Entries.{below_all};
ghost use Rattle.std.specs.Iterator.{at_most};
ghost use Rattle.std.specs.List.{prefix_len};
ghost use Rattle.std.specs.Map.Iter.{TakesFirst};
ghost use Rattle.chr_ops.specs.Ids.{id_cmp};
ghost use Rattle.chr_ops.specs.working.Entries.{operation_entry, bag_under, Rise, AllBefore, IsPlaceOf};
ghost use Rattle.chr_ops.specs.working.Entries.{is_before, is_up_to};
ghost use Rattle.chr_ops.specs.working.Walks.{within};

use crate::id::OpId;
use crate::range::IdRange;
use crate::shared_bag::SharedBag;
use chr_base::bag::Bag;
use std::alloc::{AllocError, AllocFailed, Global};
use std::collections::{BTreeMap, VecDeque, btree_map, vec_deque};
use std::marker::Model;

/// Bags under ids, of each id one. An id that comes after all others costs no descent of the tree: its bag is appended.
#[derive(Drop)]
pub(crate) struct Entries {
    alloc: Global,
    bags: BTreeMap<OpId, SharedBag>,
    /// In the order of ids, each of which comes after those of the tree.
    appended: VecDeque<(OpId, SharedBag)>,
}

impl Model for Entries {
    ghost use Rattle.std.specs.Prelude.{◌++◌};
    ghost use Rattle.std.specs.FinMap as map;
    ghost use Rattle.chr_base.specs.FinBag as bag;
    ghost use Rattle.chr_base.specs.working.Codes as bag_codes;
    ghost use Rattle.chr_base.specs.working.Codes.{coded_atom};
    ghost use Rattle.chr_ops.specs.Operations.{Operations, operations_of};
    ghost use Rattle.chr_ops.specs.working.Codes.{coded_id};
    ghost use Rattle.chr_ops.specs.working.Entries.{Rise};

    ghost Value = { Operations };

    ghost coded = { map.code coded_id (bag_codes.code coded_atom) };

    ghost view = { λ e. operations_of (e.bags.entries ++ e.appended.items) };

    ghost invariant = { λ e. Rise (e.bags.entries ++ e.appended.items) };
}

/// The number of ids that come before one.
fn count_before(appended: &VecDeque<(OpId, SharedBag)>, id: OpId) -> usize
    requires { Rise appended.now.items }
    ensures { result ≡ prefix_len (λ e. is_before id e.0) appended.now.items }
{
    appended.partition_point(|entry| entry.0 < id)
}

/// The number of ids up to one.
fn count_up_to(appended: &VecDeque<(OpId, SharedBag)>, id: OpId) -> usize
    requires { Rise appended.now.items }
    ensures { result ≡ prefix_len (λ e. is_up_to id e.0) appended.now.items }
{
    appended.partition_point(|entry| entry.0 <= id)
}

/// Where an id stands.
fn place_of(appended: &VecDeque<(OpId, SharedBag)>, id: OpId) -> Option<usize>
    requires { Rise appended.now.items }
    ensures there { IfSome result (λ i. IsPlaceOf appended.now.items id i) }
    ensures none { IfNone result (bag_under appended.now.items id ≡ None) }
{
    let place = count_before(appended, id);
    let (found, _) = appended.get(place)?;
    if *found == id { Some(place) } else { None }
}

/// Whether an id comes before each of these.
fn comes_before(appended: &VecDeque<(OpId, SharedBag)>, id: OpId) -> bool
    requires { Rise appended.now.items }
    ensures { result ≡ below_all id_cmp id appended.now.items }
{
    match appended.front() {
        Some((first, _)) => id < *first,
        None => true,
    }
}

/// Whether an id comes after those of the tree and what is appended.
fn comes_last(
    bags: &BTreeMap<OpId, SharedBag>,
    appended: &VecDeque<(OpId, SharedBag)>,
    id: OpId,
) -> bool
    requires { Rise (bags.now.entries ++ appended.now.items) }
    ensures { IsTrue result → AllBefore (bags.now.entries ++ appended.now.items) id }
{
    match appended.back() {
        Some((last, _)) => *last < id,
        None => match bags.last_key_value() {
            Some((last, _)) => *last < id,
            None => true,
        },
    }
}

/// Moves what was appended first into the tree.
fn move_first(
    bags: &mut BTreeMap<OpId, SharedBag>,
    appended: &mut VecDeque<(OpId, SharedBag)>,
) -> Result<(), AllocError>
    requires { Rise (bags.old.entries ++ appended.old.items) }
    ensures same { bags.new.entries ++ appended.new.items ≡ bags.old.entries ++ appended.old.items }
    ensures fewer { OnOk result (length appended.new.items ≡ length appended.old.items - 1) }
{
    let Some((id, bag)) = appended.pop_front() else {
        return Ok(());
    };
    match bags.insert(id, bag) {
        Ok(_) => Ok(()),
        Err(refused) => {
            appended.push_front_reserved(refused.value);
            Err(AllocError)
        }
    }
}

/// Moves all that was appended into the tree, each entry once. Where memory is refused, the rest stays.
fn move_all(
    bags: &mut BTreeMap<OpId, SharedBag>,
    appended: &mut VecDeque<(OpId, SharedBag)>,
) -> Result<(), AllocError>
    requires { Rise (bags.old.entries ++ appended.old.items) }
    ensures same { bags.new.entries ++ appended.new.items ≡ bags.old.entries ++ appended.old.items }
    ensures none_left { OnOk result (appended.new.items ≡ []) }
{
    for _ in 0..appended.len() {
        move_first(bags, appended)?;
    }
    // Nothing is left, so that its room goes back and none is asked for.
    appended.shrink_to_fit();
    Ok(())
}

/// Moves what was appended into the tree, unless an id comes before all of it.
fn make_way(
    bags: &mut BTreeMap<OpId, SharedBag>,
    appended: &mut VecDeque<(OpId, SharedBag)>,
    id: OpId,
) -> Result<(), AllocError>
    requires { Rise (bags.old.entries ++ appended.old.items) }
    ensures same { bags.new.entries ++ appended.new.items ≡ bags.old.entries ++ appended.old.items }
    ensures behind { OnOk result (below_all id_cmp id appended.new.items ≡ true) }
{
    if comes_before(appended, id) {
        return Ok(());
    }
    move_all(bags, appended)
}

impl Entries {
    /// Nothing under any id.
    pub(crate) fn new(alloc: Global) -> Self
        ensures { result ≡ map.empty }
    {
        Entries {
            alloc,
            bags: BTreeMap::new(alloc),
            appended: VecDeque::new(alloc),
        }
    }

    /// What gives memory for them.
    pub(crate) fn allocator(&self) -> Global {
        self.alloc
    }

    /// The bag of an id. It takes no memory.
    pub(crate) fn get(&self, id: OpId) -> Option<&Bag>
        ensures { option_copied result ≡ map.get self.now id }
    {
        if comes_before(&self.appended, id) {
            let bag = self.bags.get(&id)?;
            return Some(bag.bag());
        }
        let place = place_of(&self.appended, id)?;
        Some(self.appended[place].1.bag())
    }

    /// Puts a bag under an id. Where memory is refused, both are handed back.
    pub(crate) fn insert(
        &mut self,
        id: OpId,
        bag: SharedBag,
    ) -> Result<(), AllocFailed<(OpId, SharedBag)>>
        ensures ok { OnOk result (self.new ≡ map.insert self.old id bag) }
        ensures handed_back { IfErr result (λ e. e.value ≡ (id, bag)) }
        ensures err { OnErr result (self.new ≡ self.old) }
    {
        if comes_last(&self.bags, &self.appended, id) {
            self.appended.push_back((id, bag))?;
            return Ok(());
        }
        match make_way(&mut self.bags, &mut self.appended, id) {
            Ok(()) => {
                self.bags.insert(id, bag)?;
                Ok(())
            }
            Err(_) => Err(AllocFailed { value: (id, bag) }),
        }
    }

    /// Takes out the bag of an id, where there is one.
    pub(crate) fn remove(&mut self, id: OpId) -> Option<SharedBag>
        ensures bag { result ≡ map.get self.old id }
        ensures rest { self.new ≡ map.remove self.old id }
    {
        if comes_before(&self.appended, id) {
            return self.bags.remove(&id);
        }
        let place = place_of(&self.appended, id)?;
        let (_, bag) = self.appended.remove(place)?;
        Some(bag)
    }

    /// The ids of a range with their bags, in the order of ids. The first costs a look-up.
    pub(crate) fn within(&self, range: &IdRange) -> Within<'_>
        requires { range.now.lo ≤ range.now.hi }
        ensures { result ≡ within range.now (map.entries self.now) }
    {
        let start = count_before(&self.appended, range.first());
        let end = count_up_to(&self.appended, range.last());
        Within {
            rest: self.bags.range(range.first()..=range.last()),
            appended: self.appended.range(start..end),
        }
    }
}

/// Ids with their bags, in the order of ids.
#[derive(Drop)]
pub(crate) struct Within<'a> {
    rest: btree_map::Range<'a, OpId, SharedBag>,
    appended: vec_deque::Iter<'a, (OpId, SharedBag)>,
}

impl<'a> Model for Within<'a> {
    ghost use Rattle.std.specs.Prelude.{List, ◌++◌};
    ghost use Rattle.std.specs.VecDeque.Iter.{deque_iter_rest};
    ghost use Rattle.std.specs.Coded.{coded_list, coded×};
    ghost use Rattle.chr_base.specs.working.Codes as bag_codes;
    ghost use Rattle.chr_base.specs.working.Codes.{coded_atom};
    ghost use Rattle.chr_ops.specs.Operations.{Operation};
    ghost use Rattle.chr_ops.specs.working.Codes.{coded_id};

    ghost Value = { List Operation };

    ghost coded = { coded_list (coded× coded_id (bag_codes.code coded_atom)) };

    ghost view = { λ i. i.rest ++ deque_iter_rest i.appended };
}

impl<'a> Iterator for Within<'a> {
    type Item = (OpId, &'a SharedBag);

    ghost next_gives = { TakesFirst operation_entry };

    ghost remaining = { λ s. at_most (length s) };

    fn next(&mut self) -> Option<(OpId, &'a SharedBag)> {
        if let Some((id, bag)) = self.rest.next() {
            return Some((*id, bag));
        }
        let (id, bag) = self.appended.next()?;
        Some((*id, bag))
    }
}
