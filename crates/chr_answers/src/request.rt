//! What command lines ask for, as far as their bytes and the program say.
ghost use Rattle.std.specs.Prelude.{◌≡◌, All, IfOk, Ok, map};
ghost use Rattle.chr_json.specs.Commands.{merge, tell};
ghost use Rattle.chr_json.specs.Reads.{command_view, line_said, raw_atom_view, raw_op_view, IsSized, IsSizedOperation};
ghost use Rattle.chr_answers.specs.Requests.{Asks};

use crate::reply::Refusal;
use chr_base::program::Program;
use chr_exchange::{declared_operation, declared_operations};
use chr_json::{Command, DeltaVersion, LineFault, RawOp, read_line};
use chr_ops::{IdRange, Op, OpId};
use std::alloc::{AllocError, Global};

/// What a line asks for, in atoms of the program. Replicas are meant by their numbers.
#[derive(Drop)]
pub enum Request {
    /// Tell a replica an operation.
    Tell(u64, Op),
    /// Merge operations into those of a replica.
    Merge(u64, Vec<Op>),
    /// Give what the first replica holds to the second.
    Sync(u64, u64),
    /// Show a replica's store.
    Show(u64),
    /// Tell the ids of a replica's operations.
    Summary(u64),
    /// Tell a replica's operations whose ids these ranges don't cover.
    Lacks(u64, Vec<IdRange>, DeltaVersion),
    /// Nothing that any replica does.
    Refused(Refusal),
}

/// To tell a replica an operation that is spelt so.
fn tell_request(
    alloc: Global,
    program: &Program,
    replica: u64,
    raw: &RawOp,
) -> Result<Request, AllocError>
    requires { IsSizedOperation raw.now }
    ensures { IfOk result (Asks program.now
        (Ok (tell replica raw.now.id.origin raw.now.id.number (map raw_atom_view raw.now.atoms.items)))) }
{
    match declared_operation(alloc, program, raw)? {
        Some(op) => Ok(Request::Tell(replica, op)),
        None => Ok(Request::Refused(Refusal::UnknownSymbol)),
    }
}

/// To merge operations that are spelt so into those of a replica.
fn merge_request(
    alloc: Global,
    program: &Program,
    replica: u64,
    raws: &[RawOp],
) -> Result<Request, AllocError>
    requires { All IsSizedOperation raws.now }
    ensures { IfOk result (Asks program.now (Ok (merge replica (map raw_op_view raws.now)))) }
{
    match declared_operations(alloc, program, raws)? {
        Some(ops) => Ok(Request::Merge(replica, ops)),
        None => Ok(Request::Refused(Refusal::UnknownSymbol)),
    }
}

/// What a command asks for.
fn command_request(
    alloc: Global,
    program: &Program,
    command: Command,
) -> Result<Request, AllocError>
    requires { IsSized command }
    ensures { IfOk result (Asks program.now (Ok (command_view command.entry))) }
{
    match command {
        Command::Tell {
            replica,
            origin,
            number,
            atoms,
        } => {
            let id = OpId { origin, number };
            tell_request(alloc, program, replica, &RawOp { id, atoms })
        }
        Command::Merge {
            replica,
            operations,
        } => merge_request(alloc, program, replica, &operations),
        Command::Sync { from, to } => Ok(Request::Sync(from, to)),
        Command::Show { replica } => Ok(Request::Show(replica)),
        Command::Summary { replica } => Ok(Request::Summary(replica)),
        Command::Lacks {
            replica,
            ranges,
            version,
        } => Ok(Request::Lacks(replica, ranges, version)),
    }
}

/// What a line asks for, which comes without its end.
pub(crate) fn request_of(
    alloc: Global,
    program: &Program,
    line: &[u8],
) -> Result<Request, AllocError>
    ensures { IfOk result (Asks program.now (line_said line.now)) }
{
    match read_line(alloc, line) {
        Ok(command) => command_request(alloc, program, command),
        Err(LineFault::Shape) => Ok(Request::Refused(Refusal::Shape)),
        Err(LineFault::BadLine) => Ok(Request::Refused(Refusal::BadLine)),
        Err(LineFault::Memory) => Err(AllocError),
    }
}
