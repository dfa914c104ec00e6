//! What a replica of the program of the least value is asked, at random.
use crate::tests::model::values::VALUES;
use crate::tests::texts::{op, store};
use chr_acts::{Act, OpList, Reply};
use chr_base::atom::Atom;
use chr_join::{Accepted, Done, Lease};
use chr_ops::{Op, Summary};
use chr_testing::atoms::{atom, step};
use chr_testing::random::Random;
use std::alloc::Global;
use std::process::Abort;

/// Who asks a replica: by what the acts are drawn, and what was replied and may be asked of again.
#[derive(Drop)]
pub struct Asker {
    pub random: Random,
    /// The origin of what is told.
    pub origin: u32,
    /// What came of the last lease.
    done: Option<Done>,
    /// The last summary.
    ids: Option<Summary>,
}

fn value(random: &mut Random) -> i64 {
    random.below(VALUES) as i64
}

/// Mostly 5, and seldom another value.
fn mostly_five(random: &mut Random) -> i64 {
    if random.below(20) == 0 {
        value(random)
    } else {
        5
    }
}

fn drawn_atom(random: &mut Random) -> Atom {
    atom(0, &[value(random)])
}

fn done_of(rt: &impl Abort, alloc: Global, accepted: &Accepted, lease: &Lease) -> Done {
    let lease = lease.copy(alloc).expect(rt, "memory");
    accepted.rest_part(alloc, lease).ok().expect(rt, "memory")
}

impl Asker {
    /// An asker who knows nothing yet.
    pub fn new(seed: u64, origin: u32) -> Asker {
        Asker {
            random: Random::new(seed),
            origin,
            done: None,
            ids: None,
        }
    }

    /// An operation of the origin. Its second value is mostly 5: so one that is told again is mostly the same.
    fn op(&mut self, rt: &impl Abort, alloc: Global, number: usize) -> Op {
        let values = [(number % 6) as i64, mostly_five(&mut self.random)];
        op(rt, alloc, self.origin, number as u64, &values)
    }

    /// Operations of which no two have one number.
    fn ops(&mut self, rt: &impl Abort, alloc: Global) -> OpList {
        let mut ops = Vec::new(alloc);
        let first = self.random.below(6);
        for number in first..first + self.random.below(4) {
            let op = self.op(rt, alloc, number);
            ops.push(op).expect(rt, "memory");
        }
        OpList::of(ops)
    }

    /// What came of the last lease is put back, for the first time or again.
    fn put(&self, rt: &impl Abort, alloc: Global) -> Act {
        match &self.done {
            Some(done) => Act::Put(done.copy(alloc).expect(rt, "memory")),
            None => Act::LeastLease,
        }
    }

    /// What is lacked where the last summary was made.
    fn lacks(&self, rt: &impl Abort, alloc: Global) -> Act {
        match &self.ids {
            Some(ids) => Act::Lacks(ids.copy(alloc).expect(rt, "memory")),
            None => Act::Summary,
        }
    }

    /// An act that a seat may call for.
    pub fn call(&mut self, rt: &impl Abort, alloc: Global) -> Act {
        let number = self.random.below(6);
        match self.random.below(14) {
            0..=3 => Act::Tell(self.op(rt, alloc, number)),
            4 => Act::Merge(self.ops(rt, alloc)),
            5 => Act::Take(store(rt, alloc, &[number as i64])),
            6 => Act::Take(store(rt, alloc, &[number as i64, 5])),
            7 => Act::Recall(self.random.below(6) as u64),
            8 => Act::Settle,
            9 => Act::Show,
            10 => Act::Summary,
            11 => self.lacks(rt, alloc),
            _ => self.put(rt, alloc),
        }
    }

    /// Any act: a step and parts of the pool, too.
    pub fn act(&mut self, rt: &impl Abort, alloc: Global) -> Act {
        let heads = [drawn_atom(&mut self.random), drawn_atom(&mut self.random)];
        match self.random.below(10) {
            0 | 1 => Act::Step(step(1, &heads)),
            2 => Act::TakeParts(1 + self.random.below(4) as u32),
            _ => self.call(rt, alloc),
        }
    }

    /// Keeps what the reply tells.
    pub fn learn(&mut self, rt: &impl Abort, alloc: Global, accepted: &Accepted, reply: &Reply) {
        match reply {
            Reply::Leased(lease) => self.done = Some(done_of(rt, alloc, accepted, lease)),
            Reply::Summed(ids) => self.ids = ids.copy(alloc).ok(),
            _ => {}
        }
    }
}
