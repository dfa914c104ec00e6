//! Commands as a line spells them.

ghost use Rattle.std.specs.Prelude.{◌≡◌, IfOk};
ghost use Rattle.serde_json.specs.View.{view as data_of};
ghost use Rattle.chr_json.specs.Commands.{command_of, command_of_one, command_of_three, command_of_two, lacks_of};
ghost use Rattle.chr_json.specs.Commands.{merge_of, sync_of, tell_of, version_of};
ghost use Rattle.chr_json.specs.WrittenCommands.{CommandsAreRead};
ghost use Rattle.chr_json.specs.Reads.{IsSized, command_view};
ghost use Rattle.chr_json.specs.Texts.{CommandTextsAreSaid};
ghost use Rattle.chr_json.specs.Parts.{GivesPart};

use crate::atom::RawAtom;
use crate::delta::{is_natural, operations_in};
use crate::fault::LineFault;
use crate::operation::{RawOp, operation_in};
use crate::summary::ranges_in;
use crate::value::{elements, is_string};
use chr_ops::IdRange;
use serde_json::Value;
use std::alloc::Global;

/// How a delta is written: operation by operation, or in groups of one origin each.
#[derive(Clone, Copy, Debug, PartialEq, Eq)]
pub enum DeltaVersion {
    One,
    Two,
}

/// What a line asks for. Replicas are meant by their numbers.
#[derive(Debug, PartialEq, Drop)]
pub enum Command<'a> {
    /// Tell a replica an operation.
    Tell {
        /// The replica's number.
        replica: u64,
        /// Who made the operation.
        origin: u32,
        /// The operation's number at its origin.
        number: u64,
        /// 1 to [`MAX_OPERATION`](crate::MAX_OPERATION) atoms, in the line's order.
        atoms: Vec<RawAtom<'a>>,
    },
    /// Show a replica's store.
    Show {
        /// The replica's number.
        replica: u64,
    },
    /// Give one replica the operations of another that it lacks.
    Sync {
        /// The replica whose operations these are.
        from: u64,
        /// The replica that is to have them.
        to: u64,
    },
    /// Tell the ids of a replica's operations, as ranges.
    Summary {
        /// The replica's number.
        replica: u64,
    },
    /// Tell the operations of a replica whose ids a summary doesn't cover.
    Lacks {
        /// The replica's number.
        replica: u64,
        /// The summary's ranges, in the line's order. They may overlap and touch, and none is empty.
        ranges: Vec<IdRange>,
        /// How the operations are to be written.
        version: DeltaVersion,
    },
    /// Merge operations into those of a replica.
    Merge {
        /// The replica's number.
        replica: u64,
        /// The operations, in the line's order.
        operations: Vec<RawOp<'a>>,
    },
}

fn tell(
    alloc: Global,
    replica: &Value,
    name: &Value,
    values: &Value,
) -> Result<Command<'static>, LineFault>
    ensures read { GivesPart command_view result
        (tell_of (data_of replica.now) (data_of name.now) (data_of values.now)) }
    ensures sized { IfOk result IsSized }
{
    let Some(replica) = replica.as_u64() else {
        return Err(LineFault::Shape);
    };
    let RawOp { id, atoms } = operation_in(alloc, name, values)?;
    Ok(Command::Tell {
        replica,
        origin: id.origin,
        number: id.number,
        atoms,
    })
}

fn sync(from: &Value, to: &Value) -> Result<Command<'static>, LineFault>
    ensures read { GivesPart command_view result (sync_of (data_of from.now) (data_of to.now)) }
    ensures sized { IfOk result IsSized }
{
    let Some(from) = from.as_u64() else {
        return Err(LineFault::Shape);
    };
    let Some(to) = to.as_u64() else {
        return Err(LineFault::Shape);
    };
    Ok(Command::Sync { from, to })
}

fn lacks(
    alloc: Global,
    replica: &Value,
    held: &Value,
    version: DeltaVersion,
) -> Result<Command<'static>, LineFault>
    ensures read { GivesPart command_view result (lacks_of (data_of replica.now) (data_of held.now) version) }
    ensures sized { IfOk result IsSized }
{
    let Some(replica) = replica.as_u64() else {
        return Err(LineFault::Shape);
    };
    let ranges = ranges_in(alloc, held)?;
    Ok(Command::Lacks {
        replica,
        ranges,
        version,
    })
}

fn merge(alloc: Global, replica: &Value, delta: &Value) -> Result<Command<'static>, LineFault>
    ensures read { GivesPart command_view result (merge_of (data_of replica.now) (data_of delta.now)) }
    ensures sized { IfOk result IsSized }
{
    let Some(replica) = replica.as_u64() else {
        return Err(LineFault::Shape);
    };
    let operations = operations_in(alloc, delta)?;
    Ok(Command::Merge {
        replica,
        operations,
    })
}

/// The version of the number 1 or 2.
fn version(value: &Value) -> Option<DeltaVersion>
    ensures { result ≡ version_of (data_of value.now) }
{
    if is_natural(1, value) {
        Some(DeltaVersion::One)
    } else if is_natural(2, value) {
        Some(DeltaVersion::Two)
    } else {
        None
    }
}

/// The command of a word that takes one thing.
fn command_of_one(word: &Value, replica: &Value) -> Result<Command<'static>, LineFault>
    ensures read { GivesPart command_view result (command_of_one (data_of word.now) (data_of replica.now)) }
    ensures sized { IfOk result IsSized }
{
    let Some(replica) = replica.as_u64() else {
        return Err(LineFault::Shape);
    };
    if is_string(word, "show") {
        Ok(Command::Show { replica })
    } else if is_string(word, "summary") {
        Ok(Command::Summary { replica })
    } else {
        Err(LineFault::Shape)
    }
}

/// The command of a word that takes two things.
fn command_of_two(
    alloc: Global,
    word: &Value,
    replica: &Value,
    more: &Value,
) -> Result<Command<'static>, LineFault>
    ensures read { GivesPart command_view result
        (command_of_two (data_of word.now) (data_of replica.now) (data_of more.now)) }
    ensures sized { IfOk result IsSized }
{
    if is_string(word, "sync") {
        sync(replica, more)
    } else if is_string(word, "lacks") {
        lacks(alloc, replica, more, DeltaVersion::Two)
    } else if is_string(word, "merge") {
        merge(alloc, replica, more)
    } else {
        Err(LineFault::Shape)
    }
}

/// The command of a word that takes three things.
fn command_of_three(
    alloc: Global,
    word: &Value,
    replica: &Value,
    more: &Value,
    last: &Value,
) -> Result<Command<'static>, LineFault>
    ensures read { GivesPart command_view result
        (command_of_three (data_of word.now) (data_of replica.now) (data_of more.now) (data_of last.now)) }
    ensures sized { IfOk result IsSized }
{
    if is_string(word, "tell") {
        return tell(alloc, replica, more, last);
    }
    if !is_string(word, "lacks") {
        return Err(LineFault::Shape);
    }
    match version(last) {
        Some(version) => lacks(alloc, replica, more, version),
        None => Err(LineFault::Shape),
    }
}

/// The command that a value is.
pub fn command_in(alloc: Global, value: &Value) -> Result<Command<'static>, LineFault>
    ensures read { GivesPart command_view result (command_of (data_of value.now)) }
    ensures sized { IfOk result IsSized }
{
    let Some(values) = elements(value) else {
        return Err(LineFault::Shape);
    };
    if let [word, replica] = values {
        return command_of_one(word, replica);
    }
    if let [word, replica, more] = values {
        return command_of_two(alloc, word, replica, more);
    }
    let [word, replica, more, last] = values else {
        return Err(LineFault::Shape);
    };
    command_of_three(alloc, word, replica, more, last)
}

/// Each command within the limits is the command of its own JSON value.
pub fn commands_are_read()
    ensures { CommandsAreRead }
{}

/// Each command within the limits is what its own text says, as a line of JSON without white space.
pub fn command_texts_are_said()
    ensures { CommandTextsAreSaid }
{}
