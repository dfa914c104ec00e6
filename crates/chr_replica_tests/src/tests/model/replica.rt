//! A slow replica of the program of the least value. It looks whether the replies to acts are those that it would give.
use crate::tests::model::values::Values;
use chr_acts::{Act, Reply};
use chr_base::derivation::Step;
use chr_join::{Done, Lease};
use chr_ops::{Added, IdRange, Op, OpId};
use chr_replica::Refusal;
use std::alloc::Global;
use std::process::Abort;

/// An operation.
#[derive(Clone, Copy)]
struct Told {
    id: OpId,
    values: Values,
}

/// A part that is leased out.
#[derive(Clone, Copy)]
struct Part {
    number: u64,
    values: Values,
}

/// A replica of plain lists.
#[derive(Drop)]
pub struct Replica {
    /// The operations that it was told.
    told: Vec<Told>,
    /// The values of its pool.
    pool: Values,
    /// The parts that are leased out.
    out: Vec<Part>,
    /// The next lease number.
    next: u64,
}

/// Whether one of the ranges has the id.
fn covers(ranges: &[IdRange], id: OpId) -> bool {
    for range in ranges {
        if range.has(id) {
            return true;
        }
    }
    false
}

/// How many ids the ranges have.
fn covered(ranges: &[IdRange]) -> u64 {
    let mut count = 0u64;
    for range in ranges {
        count = count.wrapping_add(range.hi.wrapping_sub(range.lo).wrapping_add(1));
    }
    count
}

fn is_refused(reply: &Reply, number: u8) -> bool {
    match reply {
        Reply::Refused(refusal) => refusal.number() == number,
        _ => false,
    }
}

/// Whether the reply says that these were new.
pub fn has_merged(reply: &Reply, new: u64) -> bool {
    match reply {
        Reply::Merged(count) => *count == new,
        _ => false,
    }
}

/// Whether the step is one of the one rule, whose first head is the lesser one.
fn fires(step: &Step) -> bool {
    let [kept, removed] = step.heads.as_slice() else {
        return false;
    };
    match (kept.args.as_slice(), removed.args.as_slice()) {
        ([low], [high]) => step.rule == 1 && *low <= *high,
        _ => false,
    }
}

impl Replica {
    /// The replica that was told nothing.
    pub fn new(alloc: Global) -> Replica {
        Replica {
            told: Vec::new(alloc),
            pool: Values::none(),
            out: Vec::new(alloc),
            next: 1,
        }
    }

    fn held(&self, id: OpId) -> Option<Values> {
        for told in &self.told {
            if told.id == id {
                return Some(told.values);
            }
        }
        None
    }

    /// Takes an operation in, and answers whether it was new, or nothing where its id stands for other values.
    fn take_in(&mut self, rt: &impl Abort, id: OpId, values: Values) -> Option<bool> {
        match self.held(id) {
            Some(held) if held == values => Some(false),
            Some(_) => None,
            None => {
                self.told.push(Told { id, values }).expect(rt, "memory");
                self.pool.add(&values);
                Some(true)
            }
        }
    }

    fn tell(&mut self, rt: &impl Abort, op: &Op, reply: &Reply) -> bool {
        match self.take_in(rt, op.id(), Values::of(op.bag())) {
            Some(true) => matches!(reply, Reply::Told(Added::New)),
            Some(false) => matches!(reply, Reply::Told(Added::Again)),
            None => is_refused(reply, 33),
        }
    }

    /// Whether the operation's id stands for other values here.
    fn has_other(&self, op: &Op) -> bool {
        match self.held(op.id()) {
            Some(held) => held != Values::of(op.bag()),
            None => false,
        }
    }

    fn clashes(&self, ops: &[Op]) -> bool {
        for op in ops {
            if self.has_other(op) {
                return true;
            }
        }
        false
    }

    fn merge(&mut self, rt: &impl Abort, ops: &[Op], reply: &Reply) -> bool {
        if self.clashes(ops) {
            return is_refused(reply, 33);
        }
        let mut new = 0u64;
        for op in ops {
            if self.take_in(rt, op.id(), Values::of(op.bag())) == Some(true) {
                new = new.wrapping_add(1);
            }
        }
        has_merged(reply, new)
    }

    /// Takes in what another replica holds and this one lacks, as an exchange does. Answers how many were new.
    pub fn take_all_of(&mut self, rt: &impl Abort, giver: &Replica) -> u64 {
        let mut new = 0u64;
        for told in &giver.told {
            if self.held(told.id).is_none() {
                self.take_in(rt, told.id, told.values);
                new = new.wrapping_add(1);
            }
        }
        new
    }

    /// A step of the one rule, on two atoms of the pool of which the first is to stay.
    fn step(&mut self, step: &Step, reply: &Reply) -> bool {
        let heads = Values::of_atoms(&step.heads);
        if !fires(step) || !self.pool.has(&heads) {
            return is_refused(reply, 39);
        }
        self.pool.take(&heads);
        self.pool.add(&heads.rested());
        matches!(reply, Reply::Stepped)
    }

    /// Leases a part out. Answers whether the lease has the part and the next number.
    fn lease(&mut self, rt: &impl Abort, values: Values, lease: &Lease) -> bool {
        let number = self.next;
        self.next = number.wrapping_add(1);
        self.pool.take(&values);
        self.out.push(Part { number, values }).expect(rt, "memory");
        lease.number == number && Values::of(&lease.part) == values
    }

    fn take(&mut self, rt: &impl Abort, part: Values, reply: &Reply) -> bool {
        if !self.pool.has(&part) {
            return is_refused(reply, 39);
        }
        match reply {
            Reply::Leased(lease) => self.lease(rt, part, lease),
            _ => false,
        }
    }

    /// Whether there are `parts` parts, even in size, that make up the pool.
    fn take_parts(&mut self, rt: &impl Abort, parts: u32, leases: &[Lease]) -> bool {
        let least = self.pool.len().checked_div(parts).unwrap_or(0);
        for lease in leases {
            let values = Values::of(&lease.part);
            let above = values.len().wrapping_sub(least);
            if above > 1 || !self.pool.has(&values) || !self.lease(rt, values, lease) {
                return false;
            }
        }
        leases.len() == parts as usize && self.pool.len() == 0
    }

    /// Takes the part of a number back, where it is out.
    fn comes_back(&mut self, number: u64) -> Option<Values> {
        let mut found = self.out.len();
        for place in 0..self.out.len() {
            if self.out[place].number == number {
                found = place;
            }
        }
        if found < self.out.len() {
            return Some(self.out.swap_remove(found).values);
        }
        None
    }

    /// Whether this part is out under this number.
    fn is_out(&self, number: u64, values: Values) -> bool {
        for part in &self.out {
            if part.number == number && part.values == values {
                return true;
            }
        }
        false
    }

    fn put(&mut self, done: &Done, reply: &Reply) -> bool {
        let (part, result) = (Values::of(done.part()), Values::of(done.result()));
        if !self.is_out(done.number(), part) {
            return is_refused(reply, 36);
        }
        self.comes_back(done.number());
        self.pool.add(&result);
        part.rested() == result && matches!(reply, Reply::WasPut)
    }

    fn recall(&mut self, number: u64, reply: &Reply) -> bool {
        match self.comes_back(number) {
            Some(part) => {
                self.pool.add(&part);
                matches!(reply, Reply::Recalled)
            }
            None => is_refused(reply, 36),
        }
    }

    fn settle(&mut self, reply: &Reply) -> bool {
        let rested = self.pool.rested();
        let steps = self.pool.len().wrapping_sub(rested.len());
        self.pool = rested;
        match reply {
            Reply::Settled(count) => *count == u64::from(steps),
            _ => false,
        }
    }

    fn show(&self, reply: &Reply) -> bool {
        if self.out.len() > 0 {
            return is_refused(reply, 38);
        }
        if self.pool != self.pool.rested() {
            return is_refused(reply, 40);
        }
        match reply {
            Reply::Shown(store) => Values::of(store) == self.pool,
            _ => false,
        }
    }

    fn sums_up(&self, reply: &Reply) -> bool {
        let Reply::Summed(summary) = reply else {
            return false;
        };
        let ranges = summary.ranges();
        let mut covers_all = covered(ranges) == self.told.len() as u64;
        for told in &self.told {
            covers_all = covers_all && covers(ranges, told.id);
        }
        covers_all
    }

    /// Whether these are the operations that the ranges do not cover.
    fn lacks(&self, ranges: &[IdRange], ops: &[Op]) -> bool {
        let mut count = 0usize;
        for told in &self.told {
            count = count.wrapping_add(usize::from(!covers(ranges, told.id)));
        }
        let mut are_lacked = ops.len() == count;
        for op in ops {
            let is_held = self.held(op.id()) == Some(Values::of(op.bag()));
            are_lacked = are_lacked && is_held && !covers(ranges, op.id());
        }
        are_lacked
    }

    pub fn least_lease(&self) -> Option<u64> {
        // Each number that is out is below the next one.
        let mut least = self.next;
        for part in &self.out {
            if part.number < least {
                least = part.number;
            }
        }
        if least < self.next { Some(least) } else { None }
    }

    /// Whether an act is replied to as the replica does, which carries it out then.
    pub fn replies(&mut self, rt: &impl Abort, act: &Act, reply: &Reply) -> bool {
        match (act, reply) {
            (Act::Tell(op), _) => self.tell(rt, op, reply),
            (Act::Merge(ops), _) => self.merge(rt, ops.as_slice(), reply),
            (Act::Step(step), _) => self.step(step, reply),
            (Act::Take(part), _) => self.take(rt, Values::of(part), reply),
            (Act::TakeParts(parts), Reply::LeasedParts(leases)) => {
                self.take_parts(rt, *parts, leases.as_slice())
            }
            (Act::Put(done), _) => self.put(done, reply),
            (Act::Recall(number), _) => self.recall(*number, reply),
            (Act::Settle, _) => self.settle(reply),
            (Act::Show, _) => self.show(reply),
            (Act::Summary, _) => self.sums_up(reply),
            (Act::Lacks(ids), Reply::Lacked(ops)) => self.lacks(ids.ranges(), ops.as_slice()),
            (Act::LeastLease, Reply::LeastLease(number)) => *number == self.least_lease(),
            _ => false,
        }
    }

    /// Whether the other one holds the operations of this one.
    fn is_held_by(&self, other: &Replica) -> bool {
        for told in &self.told {
            if other.held(told.id) != Some(told.values) {
                return false;
            }
        }
        true
    }

    /// Whether both hold the same operations.
    pub fn has_operations_of(&self, other: &Replica) -> bool {
        self.is_held_by(other) && other.is_held_by(self)
    }

    /// Whether no part is out of either, and both pools are at rest and equal.
    pub fn ends_as(&self, other: &Replica) -> bool {
        let none_is_out = self.out.len() == 0 && other.out.len() == 0;
        none_is_out && self.pool == self.pool.rested() && self.pool == other.pool
    }
}
