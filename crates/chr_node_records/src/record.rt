//! Records of operations.
ghost use Rattle.std.specs.Prelude.{◌≡◌, ◌≢◌, ◌++◌, [], ◌∷◌, IfOk, IfNone, IfSome, OnErr, OnOk};
ghost use Rattle.std.specs.Bool.{OnTrue, OnFalse};
ghost use Rattle.chr_base.specs.Programs.{declarations};
ghost use Rattle.chr_records.specs.Records.{record_bytes, records_of, IsWhole};
ghost use Rattle.chr_node_records.specs.Texts.{operation_text, operations_in};

use chr_base::program::Program;
use chr_exchange::{MessageFault, delta_text, read_delta};
use chr_ops::Op;
use chr_records::{is_text, message_in, push_message};
use std::alloc::{AllocError, Global};
use std::slice;

/// The operations of a record's text, or nothing where it has none: where its checksum is wrong, or the message is no
/// delta of the program's atoms.
///
/// # Errors
///
/// Out of memory.
pub fn operations_of_text(
    alloc: Global,
    program: &Program,
    text: &[u8],
) -> Result<Option<Vec<Op>>, AllocError>
    ensures some { IfOk result (λ found. IfSome found (λ ops.
        ops.items ≡ operations_in (declarations program.now) text.now)) }
    ensures none { IfOk result (λ found. IfNone found (operations_in (declarations program.now) text.now ≡ [])) }
{
    let message = match message_in(text) {
        Some(message) => message,
        None => return Ok(None),
    };
    match read_delta(alloc, program, message) {
        Ok(ops) => Ok(Some(ops)),
        Err(fault) => {
            unless_memory(fault)?;
            Ok(None)
        }
    }
}

/// Gives up where a message was refused for want of memory.
fn unless_memory(fault: MessageFault) -> Result<(), AllocError>
    ensures { OnOk result (fault ≢ MessageFault.Memory) }
{
    match fault {
        MessageFault::Memory => Err(AllocError),
        MessageFault::BadJson | MessageFault::Shape | MessageFault::UnknownSymbol => Ok(()),
    }
}

/// Adds the record of an operation behind what is there. False is answered, and nothing is added, where its text can't
/// stand in a record.
///
/// # Errors
///
/// Out of memory.
pub fn push_operation(
    alloc: Global,
    bytes: &mut Vec<u8>,
    program: &Program,
    op: &Op,
) -> Result<bool, AllocError>
    ensures bytes { IfOk result (λ added. OnTrue added (bytes.new.items ≡ bytes.old.items
        ++ record_bytes (operation_text (declarations program.now) op.now))) }
    ensures whole { IfOk result (λ added. OnTrue added (IsWhole bytes.old.items → IsWhole bytes.new.items
        × (records_of bytes.new.items ≡ records_of bytes.old.items
        ++ operation_text (declarations program.now) op.now ∷ []))) }
    ensures same { IfOk result (λ added. OnFalse added (bytes.new.items ≡ bytes.old.items)) }
    ensures err { OnErr result (bytes.new.items ≡ bytes.old.items) }
{
    let message = delta_text(alloc, program, slice::from_ref(op))?;
    if !is_text(message.as_bytes()) {
        return Ok(false);
    }
    let mut record = Vec::new(alloc);
    push_message(&mut record, message.as_bytes())?;
    bytes.extend_from_slice(&record)?;
    Ok(true)
}
