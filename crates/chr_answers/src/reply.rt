//! What a command line is answered.
ghost use Rattle.std.specs.Prelude.{◌≡◌, ◌++◌, [], ◌∷◌, IfOk, OnOk, string_bytes};
ghost use Rattle.chr_base.specs.Programs.{declarations};
ghost use Rattle.chr_exchange.specs.Texts.{HaveDifferentIds};
ghost use Rattle.chr_ops.specs.Operations.{operations_of};
ghost use Rattle.chr_answers.specs.Answers.{delta_text_of};
ghost use Rattle.chr_answers.specs.Replies.{line_refusal_number};
ghost use Rattle.chr_answers.specs.working.ReplyTexts.{denial_number, merged_reply, number_text, reply_text};
ghost use Rattle.chr_answers.specs.working.ReplyTexts.{shown_reply, synced_reply, told_reply};

use chr_base::bag::Bag;
use chr_base::program::Program;
use chr_base::text::push_store;
use chr_exchange::{delta_text, delta_text_1, summary_text};
use chr_json::DeltaVersion;
use chr_ops::{Added, Op, Summary};
use chr_worlds::WorldRefusal;
use std::alloc::{AllocError, Global};
use std::fmt::Write;

/// Why a command line was refused. Nothing has changed.
#[derive(Clone, Copy, Debug, PartialEq, Eq)]
pub enum Refusal {
    /// No JSON value, or too long.
    BadLine,
    /// JSON of no known form.
    Shape,
    /// A name with a number of arguments that the program doesn't declare.
    UnknownSymbol,
    /// The id stands for another bag.
    Clash,
    /// The limit of told atoms would be passed.
    Full,
    /// There is no such replica.
    NoReplica,
}

impl Refusal {
    /// The refusal's number.
    pub fn number(self) -> u8
        ensures { result ≡ line_refusal_number self }
    {
        match self {
            Refusal::BadLine => 30,
            Refusal::Shape => 31,
            Refusal::UnknownSymbol => 32,
            Refusal::Clash => 33,
            Refusal::Full => 34,
            Refusal::NoReplica => 35,
        }
    }
}

/// The answer to a command line.
#[derive(Drop)]
pub(crate) enum Reply {
    /// Whether the operation that was told is new.
    Told(Added),
    /// How many of the operations that were merged are new.
    Merged(u64),
    /// How many operations are new to the replica that took in what another holds.
    Synced(u64),
    /// A replica's pool at rest.
    Shown(Bag),
    /// The ids of a replica's operations.
    Summed(Summary),
    /// The text of the operations that were asked for, as a delta.
    Lacked(String),
    /// The replica that was asked refuses it, or there is none.
    Denied(WorldRefusal),
    /// No replica was asked.
    Refused(Refusal),
}

impl Reply {
    /// The reply to a tell.
    pub(crate) fn told(told: Result<Added, WorldRefusal>) -> Reply
        ensures { result ≡ told_reply told }
    {
        match told {
            Ok(added) => Reply::Told(added),
            Err(refusal) => Reply::Denied(refusal),
        }
    }

    /// The reply to a merge.
    pub(crate) fn merged(merged: Result<u64, WorldRefusal>) -> Reply
        ensures { result ≡ merged_reply merged }
    {
        match merged {
            Ok(count) => Reply::Merged(count),
            Err(refusal) => Reply::Denied(refusal),
        }
    }

    /// The reply to an exchange.
    pub(crate) fn synced(synced: Result<u64, WorldRefusal>) -> Reply
        ensures { result ≡ synced_reply synced }
    {
        match synced {
            Ok(count) => Reply::Synced(count),
            Err(refusal) => Reply::Denied(refusal),
        }
    }

    /// The reply to a show.
    pub(crate) fn shown(shown: Result<Bag, WorldRefusal>) -> Reply
        ensures { result ≡ shown_reply shown }
    {
        match shown {
            Ok(bag) => Reply::Shown(bag),
            Err(refusal) => Reply::Denied(refusal),
        }
    }
}

/// The text of operations as a delta of this version.
pub(crate) fn text_of_delta(
    alloc: Global,
    program: &Program,
    version: DeltaVersion,
    ops: &[Op],
) -> Result<String, AllocError>
    requires { HaveDifferentIds ops.now }
    ensures { IfOk result (λ text.
        string_bytes text ≡ delta_text_of version (declarations program.now) (operations_of ops.now)) }
{
    match version {
        DeltaVersion::One => delta_text_1(alloc, program, ops),
        DeltaVersion::Two => delta_text(alloc, program, ops),
    }
}

/// The number under which a world's refusal is answered.
fn number_of(refusal: WorldRefusal) -> u8
    ensures { result ≡ denial_number refusal }
{
    match refusal {
        WorldRefusal::Replica(refusal) => refusal.number(),
        WorldRefusal::UnknownSymbol => Refusal::UnknownSymbol.number(),
        WorldRefusal::NoReplica => Refusal::NoReplica.number(),
    }
}

/// Adds the answer of a refusal of this number.
fn push_number(out: &mut String, number: u8) -> Result<(), AllocError>
    ensures { OnOk result (string_bytes out.new ≡ string_bytes out.old ++ number_text number) }
{
    write!(out, "refused {number}")
}

/// Adds the answer, without its line feed.
fn push_text(
    alloc: Global,
    out: &mut String,
    program: &Program,
    reply: &Reply,
) -> Result<(), AllocError>
    ensures { OnOk result (string_bytes out.new
        ≡ string_bytes out.old ++ reply_text (declarations program.now) reply.now) }
{
    match reply {
        Reply::Told(Added::New) => out.push_str("told"),
        Reply::Told(Added::Again) => out.push_str("again"),
        Reply::Merged(count) => write!(out, "merged {count}"),
        Reply::Synced(count) => write!(out, "synced {count}"),
        Reply::Shown(bag) => push_store(alloc, out, program, bag),
        Reply::Summed(summary) => {
            let text = summary_text(alloc, summary)?;
            out.push_str(text.as_str())
        }
        Reply::Lacked(text) => out.push_str(text.as_str()),
        Reply::Denied(refusal) => push_number(out, number_of(*refusal)),
        Reply::Refused(refusal) => push_number(out, refusal.number()),
    }
}

/// Adds the answer and a line feed.
pub(crate) fn push_reply(
    alloc: Global,
    out: &mut String,
    program: &Program,
    reply: &Reply,
) -> Result<(), AllocError>
    ensures { OnOk result (string_bytes out.new
        ≡ string_bytes out.old ++ reply_text (declarations program.now) reply.now ++ 10 ∷ []) }
{
    push_text(alloc, out, program, reply)?;
    out.push_str("\n")
}
