//! Talks: what each line is answered.
ghost use Rattle.std.specs.Prelude.{◌≡◌, ◌++◌, ℕ, Option, Some, None, IfErr, IfOk, OnErr, OnOk, string_bytes};
ghost use Rattle.chr_base.specs.FinBag as bag;
ghost use Rattle.chr_base.specs.Programs.{declarations};
ghost use Rattle.chr_node_lines.specs.Asked.{request_view};
ghost use Rattle.chr_node_lines.specs.declared.reply.Reply.{Reply as AnyReply};
ghost use Rattle.chr_node_talk.specs.Answers.{AskedAnswers, ChangesAnswers, CountAnswers, FindAnswers, IsExpected};
ghost use Rattle.chr_node_talk.specs.Answers.{IsForMemory, IsRefusedAgain, IsRefusedNext, IsRetry, LastAnswers};
ghost use Rattle.chr_node_talk.specs.Answers.{ShowAnswers, StatusAnswers, TellAnswers};
ghost use Rattle.chr_node_talk.specs.Lines.{AnswersLine, reply_line};
ghost use Rattle.chr_node_talk.specs.Moments.{Hears, IsSame, IsStoreOf, Moment, next_id};
ghost use Rattle.chr_node_talk.specs.Talks.{moment_of, run_of, Stays};

use crate::folder::Folder;
use crate::replies::{line_refusal, push_line};
use chr_base::bag::Bag;
use chr_node::{Holder, Node, Shower};
use chr_node_lines::{Refusal, Reply, Request, Status, request_of};
use chr_ops::{Added, Op, OpId};
use chr_queries::{Wanted, changes_between, count, find, named};
use sqlite_disk::Disk;
use std::alloc::{AllocError, Global};

/// A run of a node, and what its one caller was told.
#[derive(Drop)]
pub struct Talk<D: Disk, H: Holder, F> {
    /// What answers are about.
    pub node: Node<D, H>,
    /// Where operations of others come from.
    pub folder: F,
    /// The number before that of the run's first operation.
    pub before: u64,
    /// The store that the caller was told of when it asked last what came and went.
    pub shown: Bag,
}

impl<D: Disk + Drop, H: Holder + Drop, F: Drop> Talk<D, H, F> {
    /// A talk with a node that was just opened.
    pub fn of(alloc: Global, node: Node<D, H>, folder: F) -> Talk<D, H, F>
        ensures node { result.node ≡ node }
        ensures folder { result.folder ≡ folder }
        ensures before { result.before ≡ node.last }
        ensures shown { result.shown ≡ bag.empty }
    {
        let before = node.last;
        Talk {
            node,
            folder,
            before,
            shown: Bag::new(alloc),
        }
    }
}

impl<D: Disk, H: Shower, F: Folder> Talk<D, H, F> {
    /// The id of the next operation.
    fn next_id(&self) -> OpId
        ensures { result ≡ next_id (run_of H.program self.now) (moment_of H.operations self.now) }
    {
        OpId {
            origin: self.node.origin,
            number: self.node.last.saturating_add(1),
        }
    }

    /// The store at rest.
    fn store(&mut self, alloc: Global) -> Result<Bag, Refusal>
        ensures store { IfOk result (IsStoreOf (H.program self.old.node.holder) (H.operations self.old.node.holder)) }
        ensures memory { IfErr result (λ e. e ≡ Refusal.Memory) }
        ensures same { IsSame (moment_of H.operations self.old) (moment_of H.operations self.new) }
        ensures stays { Stays D.seen H.operations H.program F.is_clean self.old self.new }
    {
        let store = self.node.holder.show(alloc)?;
        Ok(store)
    }

    /// Tells an operation.
    fn tell_next(&mut self, alloc: Global, op: Op) -> Result<Reply, Refusal>
        ensures answers { (n : Option ℕ) → IsExpected (run_of H.program self.old) n op.0 → IfOk result (TellAnswers
            (run_of H.program self.old) (moment_of H.operations self.old) (moment_of H.operations self.new) n op) }
        ensures refused { IfErr result
            (IsRefusedNext (run_of H.program self.old) (moment_of H.operations self.old) op) }
        ensures same { OnErr result (IsSame (moment_of H.operations self.old) (moment_of H.operations self.new)) }
        ensures stays { Stays D.seen H.operations H.program F.is_clean self.old self.new }
    {
        let id = op.id();
        match self.node.tell(alloc, op) {
            Ok(Added::New) => Ok(Reply::Told(id)),
            // No operation that is held has the next id.
            Ok(Added::Again) => Err(Refusal::NotNext),
            Err(refusal) => Err(line_refusal(refusal)),
        }
    }

    /// What a tell under the number of another operation is answered.
    fn told_before(&self, number: u64, op: &Op) -> Result<Reply, Refusal>
        ensures refused { IfErr result (IsRefusedAgain (moment_of H.operations self.now)
            (record { origin = self.now.node.origin; number = number }, op.now.1)) }
        ensures answers { (n : Option ℕ) → IsRetry (run_of H.program self.now) n
            (record { origin = self.now.node.origin; number = number }) → IfOk result (TellAnswers
            (run_of H.program self.now) (moment_of H.operations self.now) (moment_of H.operations self.now) n op.now) }
    {
        let id = OpId {
            origin: self.node.origin,
            number,
        };
        match self.node.holder.get(id) {
            Some(bag) if bag.is_same(op.bag()) => Ok(Reply::Again(id)),
            Some(_) => Err(Refusal::Clash),
            None => Err(Refusal::NotNext),
        }
    }

    /// Tells an operation, or finds that it was told before under the number that is expected.
    fn tell(&mut self, alloc: Global, expected: Option<u64>, op: Op) -> Result<Reply, Refusal>
        ensures answers { IfOk result (TellAnswers (run_of H.program self.old) (moment_of H.operations self.old)
            (moment_of H.operations self.new) expected op) }
        ensures refused { IfErr result (λ e. TellAnswers (run_of H.program self.old) (moment_of H.operations self.old)
            (moment_of H.operations self.new) expected op (Reply.Refused e)) }
        ensures stays { Stays D.seen H.operations H.program F.is_clean self.old self.new }
    {
        let Some(place) = expected else {
            return self.tell_next(alloc, op);
        };
        match self.before.checked_add(place) {
            Some(number) if number == op.id().number => self.tell_next(alloc, op),
            Some(number) => self.told_before(number, &op),
            None => Err(Refusal::NotNext),
        }
    }

    /// How many operations were told in the run.
    fn told(&self) -> Reply
        ensures { LastAnswers (run_of H.program self.now) (moment_of H.operations self.now)
            (moment_of H.operations self.now) result }
    {
        Reply::Last(self.node.last.saturating_sub(self.before))
    }

    /// All atoms at rest.
    fn show(&mut self, alloc: Global) -> Result<Reply, Refusal>
        ensures answers { IfOk result (ShowAnswers (run_of H.program self.old) (moment_of H.operations self.old)
            (moment_of H.operations self.new) None) }
        ensures memory { IfErr result (IsForMemory (moment_of H.operations self.old)
            (moment_of H.operations self.new)) }
        ensures stays { Stays D.seen H.operations H.program F.is_clean self.old self.new }
    {
        let store = self.store(alloc)?;
        Ok(Reply::Store(store))
    }

    /// The atoms of a name at rest.
    fn show_named(&mut self, alloc: Global, name: &str) -> Result<Reply, Refusal>
        ensures answers { IfOk result (ShowAnswers (run_of H.program self.old) (moment_of H.operations self.old)
            (moment_of H.operations self.new) (Some name.now)) }
        ensures memory { IfErr result (IsForMemory (moment_of H.operations self.old)
            (moment_of H.operations self.new)) }
        ensures stays { Stays D.seen H.operations H.program F.is_clean self.old self.new }
    {
        let store = self.store(alloc)?;
        let found = named(alloc, self.node.holder.program(), &store, name)?;
        Ok(Reply::Store(found))
    }

    /// The wanted atoms at rest.
    fn find(&mut self, alloc: Global, wanted: &Wanted) -> Result<Reply, Refusal>
        ensures answers { IfOk result (FindAnswers (run_of H.program self.old) (moment_of H.operations self.old)
            (moment_of H.operations self.new) wanted.now) }
        ensures memory { IfErr result (IsForMemory (moment_of H.operations self.old)
            (moment_of H.operations self.new)) }
        ensures stays { Stays D.seen H.operations H.program F.is_clean self.old self.new }
    {
        let store = self.store(alloc)?;
        let found = find(alloc, &store, wanted)?;
        Ok(Reply::Found(found))
    }

    /// How many wanted atoms are at rest.
    fn count(&mut self, alloc: Global, wanted: &Wanted) -> Result<Reply, Refusal>
        ensures answers { IfOk result (CountAnswers (run_of H.program self.old) (moment_of H.operations self.old)
            (moment_of H.operations self.new) wanted.now) }
        ensures memory { IfErr result (IsForMemory (moment_of H.operations self.old)
            (moment_of H.operations self.new)) }
        ensures stays { Stays D.seen H.operations H.program F.is_clean self.old self.new }
    {
        let store = self.store(alloc)?;
        Ok(Reply::Count(count(&store, wanted) as u64))
    }

    /// What came and went.
    fn changes(&mut self, alloc: Global) -> Result<Reply, Refusal>
        ensures answers { IfOk result (ChangesAnswers (run_of H.program self.old) (moment_of H.operations self.old)
            (moment_of H.operations self.new)) }
        ensures memory { IfErr result (IsForMemory (moment_of H.operations self.old)
            (moment_of H.operations self.new)) }
        ensures stays { Stays D.seen H.operations H.program F.is_clean self.old self.new }
    {
        let store = self.store(alloc)?;
        let changes = changes_between(alloc, &self.shown, &store)?;
        self.shown = store;
        Ok(Reply::Changed(changes))
    }

    /// How the node is.
    fn status(&mut self, alloc: Global) -> Result<Reply, Refusal>
        ensures answers { IfOk result (StatusAnswers (run_of H.program self.old) (moment_of H.operations self.old)
            (moment_of H.operations self.new)) }
        ensures memory { IfErr result (IsForMemory (moment_of H.operations self.old)
            (moment_of H.operations self.new)) }
        ensures stays { Stays D.seen H.operations H.program F.is_clean self.old self.new }
    {
        let store = self.store(alloc)?;
        let feeds = self.folder.feeds(alloc)?;
        let left = self.folder.left(alloc)?;
        Ok(Reply::Status(Status {
            feeds,
            left,
            told: self.node.holder.told(),
            at_rest: store.len() as u64,
        }))
    }

    /// What a request is answered.
    fn answer(&mut self, alloc: Global, request: Request) -> Result<Reply, Refusal>
        ensures answers { IfOk result (AskedAnswers (run_of H.program self.old) (moment_of H.operations self.old)
            (moment_of H.operations self.new) (request_view request)) }
        ensures refused { IfErr result (λ e. AskedAnswers (run_of H.program self.old) (moment_of H.operations self.old)
            (moment_of H.operations self.new) (request_view request) (Reply.Refused e)) }
        ensures stays { Stays D.seen H.operations H.program F.is_clean self.old self.new }
    {
        match request {
            Request::Tell(expected, op) => self.tell(alloc, expected, op),
            Request::Last => Ok(self.told()),
            Request::Show(Some(name)) => self.show_named(alloc, name.as_str()),
            Request::Show(None) => self.show(alloc),
            Request::Find(wanted) => self.find(alloc, &wanted),
            Request::Count(wanted) => self.count(alloc, &wanted),
            Request::Changes => self.changes(alloc),
            Request::Status => self.status(alloc),
        }
    }

    /// Hears what has come in the folder's other files, where the request is about the store.
    fn hear_for(&mut self, alloc: Global, request: &Request) -> Result<(), AllocError>
        ensures hears { Hears (moment_of H.operations self.old) (moment_of H.operations self.new) }
        ensures stays { Stays D.seen H.operations H.program F.is_clean self.old self.new }
    {
        match request {
            Request::Tell(_, _) | Request::Last => Ok(()),
            _ => self.folder.hear(alloc, &mut self.node),
        }
    }

    /// The reply to a request, after what has come in the folder's other files.
    fn reply_to(&mut self, alloc: Global, request: Request) -> Result<Reply, AllocError>
        ensures answers { IfOk result (λ p. (now : Moment) × Hears (moment_of H.operations self.old) now
            × AskedAnswers (run_of H.program self.old) now (moment_of H.operations self.new) (request_view request) p) }
        ensures stays { Stays D.seen H.operations H.program F.is_clean self.old self.new }
    {
        self.hear_for(alloc, &request)?;
        match self.answer(alloc, request) {
            Ok(reply) => Ok(reply),
            Err(refusal) => Ok(Reply::Refused(refusal)),
        }
    }

    /// The reply to a line, which comes without its end.
    ///
    /// # Errors
    ///
    /// Where memory is refused while other files are taken in.
    pub fn reply(&mut self, alloc: Global, line: &[u8]) -> Result<Reply, AllocError>
        ensures answers { IfOk result (λ p. AnswersLine (run_of H.program self.old) (moment_of H.operations self.old)
            line.now p (moment_of H.operations self.new)) }
        ensures stays { Stays D.seen H.operations H.program F.is_clean self.old self.new }
    {
        let id = self.next_id();
        match request_of(alloc, self.node.holder.program(), id, line) {
            Ok(request) => self.reply_to(alloc, request),
            Err(refusal) => Ok(Reply::Refused(refusal)),
        }
    }

    /// Answers a line, which comes without its end. No answer may be sent before the node has committed.
    ///
    /// # Errors
    ///
    /// Where memory is refused.
    pub fn answer_line(
        &mut self,
        alloc: Global,
        line: &[u8],
        out: &mut String,
    ) -> Result<(), AllocError>
        ensures answers { OnOk result ((p : AnyReply)
            × AnswersLine (run_of H.program self.old) (moment_of H.operations self.old) line.now p
            (moment_of H.operations self.new)
            × (string_bytes out.new ≡ string_bytes out.old
            ++ reply_line (declarations (H.program self.old.node.holder)) p)) }
        ensures stays { Stays D.seen H.operations H.program F.is_clean self.old self.new }
    {
        let reply = self.reply(alloc, line)?;
        push_line(alloc, out, self.node.holder.program(), &reply)
    }
}
