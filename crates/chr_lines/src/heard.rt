//! What a run makes of a command line, as far as the line and the program say it.

ghost use Rattle.std.specs.Prelude.{◌≡◌, All, IfOk, Ok, map};
ghost use Rattle.chr_base.specs.Programs.{declarations};
ghost use Rattle.chr_json.specs.Commands.{merge, tell};
ghost use Rattle.chr_json.specs.Reads.{command_view, raw_atom_view, raw_op_view, IsSized, IsSizedOperation};
ghost use Rattle.chr_lines.specs.Heard.{HearsLine, HearsSaid, IsRefusedAs, NamesReplicas};
ghost use Rattle.chr_lines.specs.Mistakes.{mistake_number};

use crate::json::json_fault;
use crate::mistake::Mistake;
use crate::places::{missing_in, no_replica, undeclared};
use crate::shape::command_fault;
use chr_base::limits::MAX_REPLICAS;
use chr_base::program::Program;
use chr_exchange::{declared_operation, declared_operations};
use chr_json::{Command, LineFault, MAX_LINE, RawOp, is_blank, read_line};
use chr_ops::OpId;
use std::alloc::{AllocError, Global};

/// What a run makes of a line.
#[derive(Drop)]
pub enum Heard {
    /// It is passed over.
    Blank,
    /// It is taken where there are at least so many replicas, unless what came before it keeps it from that.
    Taken(u64),
    /// It is refused, whatever came before it.
    Refused(Mistake),
}

/// What is heard of a line that names these replicas and is otherwise taken.
fn replicas_heard(alloc: Global, line: &[u8], first: u64, second: u64) -> Result<Heard, AllocError>
    ensures { IfOk result (λ heard. NamesReplicas heard first second) }
{
    let most = first.max(second);
    if first == 0 || second == 0 || most > u64::from(MAX_REPLICAS) {
        let fault = no_replica(alloc, line, first, second)?;
        return Ok(Heard::Refused(Mistake::NoReplica(fault)));
    }
    Ok(Heard::Taken(most))
}

/// What is heard of a line that tells or merges these operations, of which the program doesn't declare all atoms.
fn missing_heard(
    alloc: Global,
    program: &Program,
    line: &[u8],
    is_merge: bool,
    raws: &[RawOp],
) -> Result<Heard, AllocError>
    ensures { IfOk result (λ heard. IsRefusedAs heard 32) }
{
    let missing = missing_in(alloc, program, raws)?;
    let fault = undeclared(alloc, line, is_merge, missing)?;
    Ok(Heard::Refused(Mistake::Undeclared(fault)))
}

/// What is heard of a line that tells this operation.
fn tell_heard(
    alloc: Global,
    program: &Program,
    line: &[u8],
    replica: u64,
    raw: RawOp,
) -> Result<Heard, AllocError>
    requires { IsSizedOperation raw }
    ensures { IfOk result (λ heard. HearsSaid (declarations program.now) heard
        (tell replica raw.entry.id.origin raw.entry.id.number (map raw_atom_view raw.entry.atoms.items))) }
{
    match declared_operation(alloc, program, &raw)? {
        Some(_) => replicas_heard(alloc, line, replica, replica),
        None => missing_heard(alloc, program, line, false, &[raw]),
    }
}

/// What is heard of a line that merges these operations.
fn merge_heard(
    alloc: Global,
    program: &Program,
    line: &[u8],
    replica: u64,
    raws: &[RawOp],
) -> Result<Heard, AllocError>
    requires { All IsSizedOperation raws.now }
    ensures { IfOk result (λ heard. HearsSaid (declarations program.now) heard
        (merge replica (map raw_op_view raws.now))) }
{
    match declared_operations(alloc, program, raws)? {
        Some(_) => replicas_heard(alloc, line, replica, replica),
        None => missing_heard(alloc, program, line, true, raws),
    }
}

/// What is heard of a line that is this command.
fn command_heard(
    alloc: Global,
    program: &Program,
    line: &[u8],
    command: Command,
) -> Result<Heard, AllocError>
    requires { IsSized command }
    ensures { IfOk result (λ heard. HearsSaid (declarations program.now) heard (command_view command.entry)) }
{
    match command {
        Command::Tell {
            replica,
            origin,
            number,
            atoms,
        } => {
            let id = OpId { origin, number };
            tell_heard(alloc, program, line, replica, RawOp { id, atoms })
        }
        Command::Merge {
            replica,
            operations,
        } => merge_heard(alloc, program, line, replica, &operations),
        Command::Sync { from, to } => replicas_heard(alloc, line, from, to),
        Command::Show { replica } | Command::Summary { replica } | Command::Lacks { replica, .. } =>
            replicas_heard(alloc, line, replica, replica),
    }
}

/// What is wrong with a line that is too long, or no JSON value.
fn bad_line(alloc: Global, line: &[u8]) -> Result<Mistake, AllocError>
    ensures { IfOk result (λ mistake. mistake_number mistake ≡ 30) }
{
    if line.len() > MAX_LINE {
        return Ok(Mistake::TooLong);
    }
    Ok(Mistake::NoJson(json_fault(alloc, line)?))
}

/// What a run makes of a line, which comes without its end, as far as the line and the program say it.
pub fn line_heard(alloc: Global, program: &Program, line: &[u8]) -> Result<Heard, AllocError>
    ensures { IfOk result (λ heard. HearsLine (declarations program.now) heard line.now) }
{
    if is_blank(line) {
        return Ok(Heard::Blank);
    }
    match read_line(alloc, line) {
        Ok(command) => command_heard(alloc, program, line, command),
        Err(LineFault::BadLine) => Ok(Heard::Refused(bad_line(alloc, line)?)),
        Err(LineFault::Shape) => {
            let fault = command_fault(alloc, line)?;
            Ok(Heard::Refused(Mistake::NoCommand(fault)))
        }
        Err(LineFault::Memory) => Err(AllocError),
    }
}
