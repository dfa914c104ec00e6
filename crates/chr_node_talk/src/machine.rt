//! A node that is fed bytes, and answers the lines that end in them.
ghost use Rattle.std.specs.Prelude.{◌≡◌, ◌++◌, [], ◌∷◌, ℕ, List, OnErr, OnOk, string_bytes};
ghost use Rattle.chr_base.specs.Programs.{declarations};
ghost use Rattle.chr_records.specs.Records.{records_of, IsFront};
ghost use Rattle.chr_node.specs.Nodes.{IsKept, Keeps};
ghost use Rattle.chr_node_talk.specs.Lines.{Answered, Answers, last_end};
ghost use Rattle.chr_node_talk.specs.Talks.{moment_of, run_of, IsReady, Stays};

use crate::folder::Folder;
use crate::talk::Talk;
use chr_feeds::FeedFault;
use chr_node::{Holder, Shower};
use sqlite_disk::Disk;
use std::alloc::{AllocError, Global};

/// A node that talks, and the beginning of a line that has not ended.
#[derive(Drop)]
pub struct NodeMachine<D: Disk, H: Holder, F> {
    pub talk: Talk<D, H, F>,
    pub begun: Vec<u8>,
}

impl<D: Disk, H: Shower, F: Folder> NodeMachine<D, H, F> {
    /// Takes one byte: the end of a line, which is answered, or a part of one.
    fn take(&mut self, alloc: Global, byte: u8, text: &mut String) -> Result<(), AllocError>
        ensures answers { OnOk result ((more : List ℕ) × (string_bytes text.new ≡ string_bytes text.old ++ more)
            × Answered (run_of H.program self.old.talk) (moment_of H.operations self.old.talk) self.old.begun.items
            (byte ∷ []) more self.new.begun.items (moment_of H.operations self.new.talk)) }
        ensures stays { Stays D.seen H.operations H.program F.is_clean self.old.talk self.new.talk }
    {
        if byte != b'\n' {
            self.begun.push(byte)?;
            return Ok(());
        }
        self.talk.answer_line(alloc, &self.begun, text)?;
        self.begun.clear();
        Ok(())
    }

    /// Answers the lines that end in the bytes. No answer may be sent before the node has committed.
    fn answer_lines(
        &mut self,
        alloc: Global,
        bytes: &[u8],
        text: &mut String,
    ) -> Result<(), AllocError>
        ensures answers { OnOk result ((more : List ℕ) × (string_bytes text.new ≡ string_bytes text.old ++ more)
            × Answered (run_of H.program self.old.talk) (moment_of H.operations self.old.talk) self.old.begun.items
            bytes.now more self.new.begun.items (moment_of H.operations self.new.talk)) }
        ensures stays { Stays D.seen H.operations H.program F.is_clean self.old.talk self.new.talk }
    {
        for byte in bytes {
            self.take(alloc, *byte, text)?;
        }
        Ok(())
    }

    /// Answers the lines that end in the bytes, once the disk has all that they tell: whatever a crash leaves then has
    /// each operation that the answers acknowledge.
    ///
    /// # Errors
    ///
    /// Those of [`Node::commit`](chr_node::Node::commit), and `Memory`. Nothing is answered, and no clause says that
    /// the machine answers again. Whatever a crash leaves still has all that was acknowledged before.
    pub fn answer_batch(
        &mut self,
        alloc: Global,
        bytes: &[u8],
        held: &mut String,
    ) -> Result<(), FeedFault>
        requires { IsReady D.seen D.may_leave D.is_usable H.operations H.program self.old.talk.node }
        ensures answers { OnOk result ((text : List ℕ) × (string_bytes held.new ≡ string_bytes held.old ++ text)
            × Answers (run_of H.program self.old.talk) (moment_of H.operations self.old.talk) self.old.begun.items
            bytes.now text self.new.begun.items (moment_of H.operations self.new.talk)
            (IsKept (D.may_leave self.new.talk.node.feed.disk) (declarations (H.program self.old.talk.node.holder)))) }
        ensures none { OnErr result (string_bytes held.new ≡ string_bytes held.old) }
        ensures ready { OnOk result
            (IsReady D.seen D.may_leave D.is_usable H.operations H.program self.new.talk.node) }
        ensures keeps { OnOk result (Keeps D.seen H.operations H.program (F.is_clean self.new.talk.folder)
            self.old.talk.node self.new.talk.node) }
        ensures before { self.new.talk.before ≡ self.old.talk.before }
        ensures any_moment { (c : List ℕ) → D.may_leave self.new.talk.node.feed.disk c
            → IsFront (records_of (D.seen self.old.talk.node.feed.disk)) (records_of c) }
    {
        let mut text = String::new(alloc);
        self.answer_lines(alloc, bytes, &mut text)?;
        self.talk.node.commit(alloc)?;
        held.push_str(text.as_str())?;
        Ok(())
    }

    /// No byte comes any more: answers the last line, if one has begun that has no end.
    ///
    /// # Errors
    ///
    /// Those of [`NodeMachine::answer_batch`].
    pub fn answer_last(&mut self, alloc: Global, held: &mut String) -> Result<(), FeedFault>
        requires { IsReady D.seen D.may_leave D.is_usable H.operations H.program self.old.talk.node }
        ensures answers { OnOk result ((text : List ℕ) × (string_bytes held.new ≡ string_bytes held.old ++ text)
            × Answers (run_of H.program self.old.talk) (moment_of H.operations self.old.talk) self.old.begun.items
            (last_end self.old.begun.items) text self.new.begun.items (moment_of H.operations self.new.talk)
            (IsKept (D.may_leave self.new.talk.node.feed.disk) (declarations (H.program self.old.talk.node.holder)))) }
        ensures none { OnErr result (string_bytes held.new ≡ string_bytes held.old) }
        ensures any_moment { (c : List ℕ) → D.may_leave self.new.talk.node.feed.disk c
            → IsFront (records_of (D.seen self.old.talk.node.feed.disk)) (records_of c) }
    {
        if self.begun.as_slice().is_empty() {
            return Ok(());
        }
        self.answer_batch(alloc, b"\n", held)
    }
}
