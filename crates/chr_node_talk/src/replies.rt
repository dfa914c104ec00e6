//! Replies as lines.
ghost use Rattle.std.specs.Prelude.{◌≡◌, ◌++◌, OnOk, string_bytes};
ghost use Rattle.chr_base.specs.Programs.{declarations};
ghost use Rattle.chr_node_talk.specs.Answers.{line_refusal};
ghost use Rattle.chr_node_talk.specs.Lines.{reply_line};

use chr_base::program::Program;
use chr_node::Refusal as NodeRefusal;
use chr_node_lines::{Refusal, Reply, push_reply};
use std::alloc::{AllocError, Global};

/// A node's refusal, as lines are refused.
pub(crate) fn line_refusal(refusal: NodeRefusal) -> Refusal
    ensures { result ≡ line_refusal refusal }
{
    match refusal {
        NodeRefusal::UnknownSymbol => Refusal::UnknownSymbol,
        NodeRefusal::Clash(_) => Refusal::Clash,
        NodeRefusal::Full => Refusal::Full,
        NodeRefusal::NotNext => Refusal::NotNext,
        NodeRefusal::NoText => Refusal::NoText,
        NodeRefusal::Memory => Refusal::Memory,
    }
}

/// Adds a reply and a line feed.
pub(crate) fn push_line(
    alloc: Global,
    out: &mut String,
    program: &Program,
    reply: &Reply,
) -> Result<(), AllocError>
    ensures { OnOk result (string_bytes out.new
        ≡ string_bytes out.old ++ reply_line (declarations program.now) reply.now) }
{
    push_reply(alloc, out, program, reply)?;
    out.push_str("\n")?;
    Ok(())
}
