//! The operations of records that are read.
ghost use Rattle.std.specs.Prelude.{◌≡◌, ◌≢◌, ◌++◌, All, IfOk, OnOk};
ghost use Rattle.std.specs.Bool.{OnFalse};
ghost use Rattle.chr_base.specs.Programs.{declarations};
ghost use Rattle.chr_records.specs.Records.{texts_in};
ghost use Rattle.chr_node_laws.specs.Folders.{told_by};
ghost use Rattle.chr_node_records.specs.Texts.{operations_in};

use chr_base::program::Program;
use chr_node_records::operations_of_text;
use chr_ops::Op;
use std::alloc::{AllocError, Global};

/// The operations of texts, and how many of the texts have none.
#[derive(Drop)]
pub(crate) struct Found {
    pub(crate) ops: Vec<Op>,
    pub(crate) strange: u64,
}

/// The operations of texts, in their order.
pub(crate) fn find_operations(
    alloc: Global,
    program: &Program,
    texts: &[Vec<u8>],
) -> Result<Found, AllocError>
    ensures { IfOk result (λ found. found.ops.items
        ≡ told_by (operations_in (declarations program.now)) (texts_in texts.now)) }
{
    let mut ops = Vec::new(alloc);
    let mut strange = 0u64;
    for text in texts {
        match operations_of_text(alloc, program, text)? {
            Some(more) => push_all(&mut ops, more)?,
            None => strange = strange.saturating_add(1),
        }
    }
    Ok(Found { ops, strange })
}

/// Moves operations behind others.
fn push_all(ops: &mut Vec<Op>, more: Vec<Op>) -> Result<(), AllocError>
    ensures { OnOk result (ops.new.items ≡ ops.old.items ++ more.items) }
{
    for op in more {
        ops.push(op)?;
    }
    Ok(())
}

/// Whether an operation has this origin.
pub(crate) fn has_origin(origin: u32, ops: &[Op]) -> bool
    ensures { OnFalse result (All (λ o. o.0.origin ≢ origin) ops.now) }
{
    for op in ops {
        if op.id().origin == origin {
            return true;
        }
    }
    false
}
