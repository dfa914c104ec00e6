//! Nodes.
ghost use Rattle.std.specs.Prelude.{◌≡◌, ◌≢◌, ◌+◌, ◌++◌, [], ◌∷◌, ℕ, List, Ok, Some, None, true, false, IsTrue};
ghost use Rattle.std.specs.Prelude.{IfErr, IfOk, OnErr, OnOk};
ghost use Rattle.std.specs.Bool.{OnFalse, OnTrue};
ghost use Rattle.std.specs.FinMap as map;
ghost use Rattle.sqlite_disk.specs.Disk.{Only};
ghost use Rattle.chr_base.specs.Programs.{declarations};
ghost use Rattle.chr_records.specs.Records.{records_of, IsWhole};
ghost use Rattle.chr_feeds.specs.Feeds.{IsAtRest};
ghost use Rattle.chr_feeds.specs.Files.{IsGrown};
ghost use Rattle.chr_ops.specs.Operations.{IsHeld, IsHeldOtherwise, IsNew};
ghost use Rattle.chr_node.specs.Nodes.{IsNode, IsOwner, IsCommitted, IsNext, Keeps, KeepsOwn};
ghost use Rattle.chr_node.specs.Refusals.{IsNotNext, NodeRefuses};
ghost use Rattle.chr_node.specs.working.Staged.{StageRefuses, TakesIn};

use crate::fault::{NodeFault, Refusal};
use crate::holder::Holder;
use crate::reading::{find_operations, has_origin};
use crate::staging::stage;
use chr_feeds::{Feed, FeedFault, recover};
use chr_ops::{Added, Op, OpId};
use sqlite_disk::Disk;
use std::alloc::Global;

/// A run of a node: what it holds, and the feed that it alone writes.
#[derive(Drop)]
pub struct Node<D: Disk, H: Holder> {
    /// What it holds.
    pub holder: H,
    /// What it was told, on its disk.
    pub feed: Feed<D>,
    /// The records of what it was told since the last commit.
    pub waiting: Vec<u8>,
    /// The origin of its operations. No other run has it.
    pub origin: u32,
    /// The number of the operation that it was told last, or the one before the first.
    pub last: u64,
}

/// What came of a file.
#[derive(Clone, Copy, Debug, PartialEq, Eq)]
pub struct TakenIn {
    /// How many operations were new.
    pub new: u64,
    /// How many records have no operation of the program.
    pub strange: u64,
}

impl<D: Disk + Drop, H: Holder + Drop> Node<D, H> {
    /// A node that was told nothing, over an empty file. It numbers its operations from `last + 1` on, under this
    /// origin, which no other run may have.
    ///
    /// # Errors
    ///
    /// `Feed` where the feed can't be made.
    pub fn open(
        alloc: Global,
        holder: H,
        disk: D,
        origin: u32,
        last: u64,
    ) -> Result<Node<D, H>, NodeFault>
        requires untold { H.operations holder ≡ map.empty }
        requires empty { D.seen disk ≡ [] }
        requires durable { Only (D.seen disk) (D.may_leave disk) }
        requires usable { IsTrue (D.is_usable disk) }
        ensures node { IfOk result (IsNode D.seen H.operations H.program []) }
        ensures committed { IfOk result (IsCommitted D.seen D.may_leave D.is_usable) }
        ensures owner { IfOk result (IsOwner D.seen H.operations H.program) }
        ensures none { IfOk result (λ node. records_of (D.seen node.feed.disk) ≡ []) }
        ensures holder { IfOk result (λ node. node.holder ≡ holder) }
        ensures origin { IfOk result (λ node. node.origin ≡ origin) }
        ensures last { IfOk result (λ node. node.last ≡ last) }
    {
        let feed = match Feed::create(disk) {
            Ok(feed) => feed,
            Err(back) => return Err(NodeFault::Feed(back.fault)),
        };
        Ok(Node {
            holder,
            feed,
            waiting: Vec::new(alloc),
            origin,
            last,
        })
    }
}

impl<D: Disk, H: Holder> Node<D, H> {
    /// Whether the next operation has to have this id.
    pub fn is_next(&self, id: OpId) -> bool
        ensures next { OnTrue result (IsNext self.now id) }
        ensures not { OnFalse result (IsNotNext self.now.origin self.now.last id) }
    {
        if id.origin != self.origin || self.last == u64::MAX {
            return false;
        }
        id.number == self.last + 1
    }

    /// Whether the operation is held.
    fn holds(&self, op: &Op) -> Option<bool>
        ensures held { result ≡ Some true → IsHeld (H.operations self.now.holder) op.now }
        ensures otherwise { result ≡ Some false → IsHeldOtherwise (H.operations self.now.holder) op.now }
        ensures new { result ≡ None → IsNew (H.operations self.now.holder) op.now }
    {
        let held = self.holder.get(op.id())?;
        Some(held.is_same(op.bag()))
    }

    /// Tells an operation of the next id. Its record waits for the next commit, before which it may not be answered. An
    /// operation that is held already is told again, and nothing changes: so who has had no answer may tell it once
    /// more.
    ///
    /// # Errors
    ///
    /// Those of [`Holder::tell`], `Clash` where the id stands for another bag, `NotNext` where it is new and not the
    /// next one, `NoText`. What is held stays as it was.
    pub fn tell(&mut self, alloc: Global, op: Op) -> Result<Added, Refusal>
        ensures node { (others : List (List ℕ)) → IsNode D.seen H.operations H.program others self.old
            → IsNode D.seen H.operations H.program others self.new }
        ensures new { result ≡ Ok Added.New → IsNext self.old op.0
            × TakesIn (H.operations self.old.holder) op (H.operations self.new.holder) }
        ensures again { result ≡ Ok Added.Again → IsHeld (H.operations self.old.holder) op }
        ensures refused { IfErr result (NodeRefuses (H.program self.old.holder) (H.operations self.old.holder)
            self.old.origin self.old.last op) }
        ensures keeps { Keeps D.seen H.operations H.program (Unit {0}) self.old self.new }
        ensures last { result ≡ Ok Added.New → self.new.last ≡ self.old.last + 1 }
        ensures same { result ≢ Ok Added.New → H.operations self.new.holder ≡ H.operations self.old.holder }
        ensures same_last { result ≢ Ok Added.New → self.new.last ≡ self.old.last }
        ensures origin { self.new.origin ≡ self.old.origin }
        ensures feed { self.new.feed ≡ self.old.feed }
        ensures program { H.program self.new.holder ≡ H.program self.old.holder }
    {
        let id = op.id();
        match self.holds(&op) {
            Some(true) => return Ok(Added::Again),
            Some(false) => return Err(Refusal::Clash(id)),
            None => {}
        }
        if !self.is_next(id) {
            return Err(Refusal::NotNext);
        }
        self.stage_next(alloc, op)
    }

    /// Tells an operation of the next id.
    fn stage_next(&mut self, alloc: Global, op: Op) -> Result<Added, Refusal>
        requires { IsNext self.old op.0 }
        ensures node { (others : List (List ℕ)) → IsNode D.seen H.operations H.program others self.old
            → IsNode D.seen H.operations H.program others self.new }
        ensures new { result ≡ Ok Added.New → IsNext self.old op.0
            × TakesIn (H.operations self.old.holder) op (H.operations self.new.holder) }
        ensures again { result ≡ Ok Added.Again → IsHeld (H.operations self.old.holder) op }
        ensures refused { IfErr result
            (StageRefuses (H.program self.old.holder) (H.operations self.old.holder) op) }
        ensures keeps { Keeps D.seen H.operations H.program (Unit {0}) self.old self.new }
        ensures last { result ≡ Ok Added.New → self.new.last ≡ self.old.last + 1 }
        ensures same { result ≢ Ok Added.New → H.operations self.new.holder ≡ H.operations self.old.holder }
        ensures same_last { result ≢ Ok Added.New → self.new.last ≡ self.old.last }
        ensures origin { self.new.origin ≡ self.old.origin }
        ensures feed { self.new.feed ≡ self.old.feed }
        ensures program { H.program self.new.holder ≡ H.program self.old.holder }
    {
        let number = op.id().number;
        match stage(alloc, &mut self.holder, &mut self.waiting, op)? {
            Added::New => {
                self.last = number;
                Ok(Added::New)
            }
            Added::Again => Ok(Added::Again),
        }
    }

    /// Puts all records that wait on the disk, by one call. After it all that the node was told may be answered:
    /// whatever a crash leaves has each operation of its origin that it holds.
    ///
    /// # Errors
    ///
    /// Those of [`Feed::append`]. After `Disk` the node is over: no clause says that its feed may be written again.
    pub fn commit(&mut self, alloc: Global) -> Result<(), FeedFault>
        requires at_rest { IsAtRest D.seen D.may_leave D.is_usable self.old.feed }
        requires whole { IsWhole self.old.waiting.items }
        ensures node { OnOk result ((others : List (List ℕ)) → IsNode D.seen H.operations H.program others self.old
            → IsNode D.seen H.operations H.program others self.new) }
        ensures committed { OnOk result (IsCommitted D.seen D.may_leave D.is_usable self.new) }
        ensures durable { OnOk result ((c : List ℕ) → D.may_leave self.new.feed.disk c
            → records_of c ≡ records_of (D.seen self.old.feed.disk) ++ records_of self.old.waiting.items) }
        ensures any_moment { (c : List ℕ) → D.may_leave self.new.feed.disk c
            → IsGrown (records_of (D.seen self.old.feed.disk)) (records_of self.old.waiting.items) c }
        ensures kept { OnOk result (IsOwner D.seen H.operations H.program self.old
            → KeepsOwn (D.may_leave self.new.feed.disk) (declarations (H.program self.new.holder))
            (H.operations self.new.holder) self.new.origin) }
        ensures keeps { OnOk result (Keeps D.seen H.operations H.program (Unit {0}) self.old self.new) }
        ensures holder { self.new.holder ≡ self.old.holder }
        ensures origin { self.new.origin ≡ self.old.origin }
        ensures last { self.new.last ≡ self.old.last }
    {
        self.feed.append(alloc, &self.waiting)?;
        self.waiting.clear();
        Ok(())
    }

    /// Takes in what a file tells that the node does not write: one of an earlier run, or of another node, or a copy.
    ///
    /// # Errors
    ///
    /// `Feed` where the file can't be read, `Forked` where it has an operation of the node's own origin, and `Refused`
    /// where an operation is refused. What is held stays as it was.
    pub fn take_in<E: Disk>(&mut self, alloc: Global, file: &mut E) -> Result<TakenIn, NodeFault>
        requires usable { IsTrue (E.is_usable file.old) }
        ensures node { OnOk result (IsTrue (E.is_clean file.new) → (others : List (List ℕ))
            → IsNode D.seen H.operations H.program others self.old
            → IsNode D.seen H.operations H.program (E.seen file.old ∷ others) self.new) }
        ensures err { OnErr result (H.operations self.new.holder ≡ H.operations self.old.holder) }
        ensures keeps { Keeps D.seen H.operations H.program (IsTrue (E.is_clean file.new)) self.old self.new }
        ensures feed { self.new.feed ≡ self.old.feed }
        ensures waiting { self.new.waiting ≡ self.old.waiting }
        ensures program { H.program self.new.holder ≡ H.program self.old.holder }
        ensures origin { self.new.origin ≡ self.old.origin }
        ensures last { self.new.last ≡ self.old.last }
        ensures same { E.seen file.new ≡ E.seen file.old }
        ensures usable { IsTrue (E.is_usable file.new) }
    {
        let records = recover(alloc, file)?;
        let found = find_operations(alloc, self.holder.program(), &records.texts)?;
        if has_origin(self.origin, &found.ops) {
            return Err(NodeFault::Forked);
        }
        let new = self.holder.merge(alloc, &found.ops)?;
        Ok(TakenIn {
            new,
            strange: found.strange,
        })
    }
}
