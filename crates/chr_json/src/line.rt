//! Lines.

ghost use Rattle.std.specs.Prelude.{◌≡◌, ◌<◌, length, Err, IfOk};
ghost use Rattle.chr_json.specs.Lines.{is_blank_line};
ghost use Rattle.chr_json.specs.Values.{json_in};
ghost use Rattle.chr_json.specs.Reads.{GivesLine, IsSized, line_said, value_said};
ghost use Rattle.chr_json.specs.Parts.{GivesValue};
ghost use Rattle.chr_json.specs.declared.limits.TheConstants.{MAX_LINE};
ghost use Rattle.chr_json.specs.declared.fault.LineFault.TheVariants.{BadLine};

use crate::command::{Command, command_in};
use crate::compact::tell_in;
use crate::fault::LineFault;
use crate::limits::MAX_LINE;
use crate::piece::Stop;
use serde_json::{Category, Value};
use std::alloc::Global;

/// Whether a line has spaces and tabs alone, or nothing. Such a line is no command, however long.
pub fn is_blank(line: &[u8]) -> bool
    ensures { result ≡ is_blank_line line.now }
{
    line.iter().all(|byte| *byte == b' ' || *byte == b'\t')
}

/// The JSON value of the bytes, however many.
///
/// # Errors
///
/// `BadLine` where the bytes are no JSON value, and `Memory` where no memory was left.
pub fn value_in(alloc: Global, line: &[u8]) -> Result<Value, LineFault>
    ensures { GivesValue result (json_in line.now) }
{
    match Value::from_slice(alloc, line) {
        Ok(value) => Ok(value),
        Err(e) => match e.classify() {
            Category::Memory => Err(LineFault::Memory),
            _ => Err(LineFault::BadLine),
        },
    }
}

/// The command of a line's JSON value.
fn command_by_value<'a>(alloc: Global, line: &[u8]) -> Result<Command<'a>, LineFault>
    ensures read { GivesLine result (value_said (json_in line.now)) }
    ensures sized { IfOk result IsSized }
{
    let value = value_in(alloc, line)?;
    command_in(alloc, &value)
}

/// The command of a line, which comes without its end.
///
/// # Errors
///
/// `BadLine` where the line has more than [`MAX_LINE`] bytes, which needs no memory, or is no JSON value; `Shape` where
/// its value is no command; and `Memory` where no memory was left.
pub fn read_line(alloc: Global, line: &[u8]) -> Result<Command<'_>, LineFault>
    ensures read { GivesLine result (line_said line.now) }
    ensures long { MAX_LINE < length line.now → result ≡ Err BadLine }
    ensures sized { IfOk result IsSized }
{
    if line.len() > MAX_LINE {
        return Err(LineFault::BadLine);
    }
    match tell_in(alloc, line) {
        Ok(command) => Ok(command),
        Err(Stop::Memory) => Err(LineFault::Memory),
        Err(Stop::Other) => command_by_value(alloc, line),
    }
}
