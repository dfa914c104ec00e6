//! What sets gained since others took from them.
ghost use Rattle.std.specs.Prelude.{◌≡◌, ◌≢◌, ◌≤◌, ◌++◌, ◌∷◌, ◌⊎◌, ℕ, [], IfSome, OnOk, OnErr, length};
ghost use Rattle.chr_ops.specs.Operations.{Operations};
ghost use Rattle.chr_ops.specs.News.{ids_of, GainsOnly, HoldsAll, IsTrueOf, LacksOnly};
ghost use Rattle.chr_ops.specs.working.Gaining.{GainsOrForgets, Meets, IsSince};

use crate::id::OpId;
use crate::op::Op;
use std::alloc::{AllocError, Global};
use std::collections::BTreeMap;

/// The most ids that are kept of one giver. Where more come, the giver's takers are forgotten.
const MOST_KEPT: usize = 4_096;

/// The ids that a giver gained, and how many of them there were when a taker last held all that the giver did.
#[derive(Drop)]
pub(crate) struct Gains {
    ids: Vec<OpId>,
    met: BTreeMap<usize, usize>,
}

/// What sets gained since others took from them. Givers and takers have numbers.
#[derive(Drop)]
pub struct News {
    givers: BTreeMap<usize, Gains>,
}

/// Adds the ids of operations at the end.
fn push_ids(ids: &mut Vec<OpId>, ops: &[Op]) -> Result<(), AllocError>
    ensures { OnOk result (ids.new.items ≡ ids.old.items ++ ids_of ops.now) }
{
    for op in ops {
        ids.push(op.id())?;
    }
    Ok(())
}

impl Gains {
    /// Nothing that was gained, and no taker.
    fn new(alloc: Global) -> Self
        ensures { result.met.entries ≡ [] }
    {
        Gains {
            ids: Vec::new(alloc),
            met: BTreeMap::new(alloc),
        }
    }

    /// The ids that were gained since a taker held all, where that is known.
    fn since(&self, taker: usize) -> Option<&[OpId]>
        ensures { IfSome result (λ ids. IsSince self.now taker ids.now) }
    {
        let mark = *self.met.get(&taker)?;
        self.ids.get(mark..)
    }

    /// Keeps the ids of operations that are gained. Where there are more than [`MOST_KEPT`], or memory is refused, it
    /// forgets the takers.
    fn gain(&mut self, ops: &[Op])
        ensures { GainsOrForgets self.old (ids_of ops.now) self.new }
    {
        let full = ops.len() > MOST_KEPT || self.ids.len() > MOST_KEPT - ops.len();
        if full || push_ids(&mut self.ids, ops).is_err() {
            self.ids.clear();
            self.met.clear();
        }
    }

    /// Keeps the id of one operation that is gained. Where there are more than [`MOST_KEPT`], or memory is refused, it
    /// forgets the takers.
    fn gain_one(&mut self, id: OpId)
        ensures { GainsOrForgets self.old (id ∷ []) self.new }
    {
        if self.ids.len() >= MOST_KEPT || self.ids.push(id).is_err() {
            self.ids.clear();
            self.met.clear();
        }
    }

    /// Notes that a taker holds all that the giver does. Where memory is refused nothing changes.
    fn meet(&mut self, taker: usize)
        ensures { Meets self.old taker self.new }
    {
        let count = self.ids.len();
        let _met = self.met.insert(taker, count);
    }
}

impl News {
    /// No news: of no giver is anything known.
    pub fn new(alloc: Global) -> Self
        ensures { (a b : ℕ) (m n : Operations) → IsTrueOf result a b m n }
    {
        News {
            givers: BTreeMap::new(alloc),
        }
    }

    /// Ids that a giver gained, among which is each that the giver holds and the taker lacks; nothing where they are
    /// not known. It takes no memory.
    pub fn since(&self, giver: usize, taker: usize) -> Option<&[OpId]>
        ensures { IfSome result (λ ids. (m n : Operations) → IsTrueOf self.now giver taker m n
            → LacksOnly m n ids.now) }
    {
        self.givers.get(&giver)?.since(taker)
    }

    /// Notes that a giver gains those of these operations that it does not hold.
    pub fn gained(&mut self, giver: usize, ops: &[Op])
        ensures giver { (b : ℕ) (m n k : Operations) → IsTrueOf self.old giver b m n → GainsOnly m k (ids_of ops.now)
            → IsTrueOf self.new giver b k n }
        ensures others { (a b : ℕ) (m n : Operations) → a ≢ giver → IsTrueOf self.old a b m n
            → IsTrueOf self.new a b m n }
    {
        if let Some(gains) = self.givers.get_mut(&giver) {
            gains.gain(ops);
        }
    }

    /// Notes that a giver gains the operation of an id, if it does not hold it.
    pub fn gained_one(&mut self, giver: usize, id: OpId)
        ensures giver { (b : ℕ) (m n k : Operations) → IsTrueOf self.old giver b m n → GainsOnly m k (id ∷ [])
            → IsTrueOf self.new giver b k n }
        ensures others { (a b : ℕ) (m n : Operations) → a ≢ giver → IsTrueOf self.old a b m n
            → IsTrueOf self.new a b m n }
    {
        if let Some(gains) = self.givers.get_mut(&giver) {
            gains.gain_one(id);
        }
    }

    /// Notes that a taker holds all that a giver does. Where memory is refused that is not kept.
    pub fn met(&mut self, alloc: Global, giver: usize, taker: usize)
        ensures met { (m n : Operations) → HoldsAll n m → IsTrueOf self.old giver taker m n
            → IsTrueOf self.new giver taker m n }
        ensures takers { (b : ℕ) (m n : Operations) → b ≢ taker → IsTrueOf self.old giver b m n
            → IsTrueOf self.new giver b m n }
        ensures others { (a b : ℕ) (m n : Operations) → a ≢ giver → IsTrueOf self.old a b m n
            → IsTrueOf self.new a b m n }
    {
        if !self.givers.contains_key(&giver)
            && self.givers.insert(giver, Gains::new(alloc)).is_err()
        {
            return;
        }
        if let Some(gains) = self.givers.get_mut(&giver) {
            gains.meet(taker);
        }
    }

    /// Forgets all, so that nothing is known of any giver.
    pub fn forget(&mut self)
        ensures { (a b : ℕ) (m n : Operations) → IsTrueOf self.new a b m n }
    {
        self.givers.clear();
    }
}
