//! What of an input has to be held until its output is written.
ghost use Rattle.std.specs.Prelude.{◌≡◌, ◌<◌, ◌+◌, length, true, OnOk, IfOk, IfSome, IsErrOf};
ghost use Rattle.std.specs.Bool.{OnTrue};
ghost use Rattle.std.specs.Io.KnownBytes.{IsAtEnd};
ghost use Rattle.chr_device.specs.Devices.{inner_of, has_failed};
ghost use Rattle.chr_device.specs.declared.fault.RunFault.TheVariants.{Device, Memory};
ghost use Rattle.chr_read.specs.declared.reader.TheConstants.{MAX_TEXT};
ghost use Rattle.chr_report.specs.Outputs.{Decides};
ghost use Rattle.chr_report.specs.working.Divided.{IsUndivided};

use crate::input::{MOST_TEXT, divided};
use chr_device::{RunFault, Watched, read_on, read_past};
use std::alloc::Global;
use std::io::Read;
use std::sync::Wait;

/// Reads all of an input, and keeps what decides its output: of a program text that is too long, a beginning.
///
/// # Errors
///
/// `Device` where a read fails, and `Memory` where memory was refused: then the reader may have been read in part.
pub fn read_input<R: Read>(
    rt: &impl Wait,
    alloc: Global,
    reader: &mut Watched<R>,
) -> Result<Vec<u8>, RunFault>
    ensures ok { IfOk result (λ kept. IfSome (R.remaining (inner_of reader.old)) (Decides kept.items)) }
    ensures end { OnOk result (IsAtEnd (R.remaining (inner_of reader.new))) }
    ensures whole { OnOk result (has_failed reader.new ≡ has_failed reader.old) }
    ensures device { IsErrOf result Device → has_failed reader.new ≡ true }
    ensures memory { IsErrOf result Memory → has_failed reader.new ≡ has_failed reader.old }
{
    let mut kept = Vec::new(alloc);
    let ended = read_on(reader, &mut kept, MOST_TEXT)?;
    if ended {
        return Ok(kept);
    }
    let Some(_parts) = divided(&kept) else {
        read_past(rt, reader)?;
        return Ok(kept);
    };
    let _all = read_on(reader, &mut kept, usize::MAX)?;
    Ok(kept)
}
