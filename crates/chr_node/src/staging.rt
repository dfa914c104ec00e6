//! Operations that are told, with their records.
ghost use Rattle.std.specs.Prelude.{◌≡◌, ◌≢◌, IfErr, Ok};
ghost use Rattle.chr_base.specs.Programs.{declarations};
ghost use Rattle.chr_records.specs.Records.{IsWhole};
ghost use Rattle.chr_ops.specs.Operations.{IsHeld};
ghost use Rattle.chr_node.specs.working.Staged.{AddsRecord, StageRefuses, TakesIn};

use crate::fault::Refusal;
use crate::holder::Holder;
use chr_node_records::{operation_texts_are_read, push_operation};
use chr_ops::{Added, Op};
use std::alloc::Global;

/// Tells an operation, and adds its record behind others. Unless it is new, nothing changes.
pub(crate) fn stage<H: Holder>(
    alloc: Global,
    holder: &mut H,
    records: &mut Vec<u8>,
    op: Op,
) -> Result<Added, Refusal>
    ensures program { H.program holder.new ≡ H.program holder.old }
    ensures new { result ≡ Ok Added.New → TakesIn (H.operations holder.old) op (H.operations holder.new) }
    ensures record { result ≡ Ok Added.New → IsWhole records.old.items
        → AddsRecord (declarations (H.program holder.old)) op records.old.items records.new.items }
    ensures again { result ≡ Ok Added.Again → IsHeld (H.operations holder.old) op }
    ensures refused { IfErr result (StageRefuses (H.program holder.old) (H.operations holder.old) op) }
    ensures same { result ≢ Ok Added.New → H.operations holder.new ≡ H.operations holder.old }
    ensures same_records { result ≢ Ok Added.New → records.new.items ≡ records.old.items }
{
    operation_texts_are_read();
    let _id = op.id();
    let _bag = op.bag();
    let size = records.len();
    if !push_operation(alloc, records, holder.program(), &op)? {
        return Err(Refusal::NoText);
    }
    let told = holder.tell(alloc, op);
    if told != Ok(Added::New) {
        records.truncate(size);
    }
    told
}
