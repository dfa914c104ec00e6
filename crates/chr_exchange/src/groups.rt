//! What stands between items that are written in groups.

ghost use Rattle.std.specs.Prelude.{◌≡◌, ◌++◌, OnOk, codes, decimal, string_bytes};
ghost use Rattle.chr_exchange.specs.working.Groups.{closing, opening};

use crate::pieces::push_natural;
use std::alloc::AllocError;

/// Adds the beginning of a group, up to its first item.
fn push_beginning(out: &mut String, brackets: &str, origin: u32) -> Result<(), AllocError>
    ensures { OnOk result (string_bytes out.new
        ≡ string_bytes out.old ++ brackets.now ++ decimal origin ++ codes ",[") }
{
    out.push_str(brackets)?;
    push_natural(out, u64::from(origin))?;
    out.push_str(",[")
}

/// Adds what stands before an item of an origin, where `last` is the origin of the item before it.
pub(crate) fn push_opening(
    out: &mut String,
    last: Option<u32>,
    origin: u32,
) -> Result<(), AllocError>
    ensures { OnOk result (string_bytes out.new ≡ string_bytes out.old ++ opening last origin) }
{
    match last {
        None => push_beginning(out, "[[", origin),
        Some(last) => {
            if last == origin {
                out.push_str(",")
            } else {
                push_beginning(out, "]],[", origin)
            }
        }
    }
}

/// Adds what stands behind the last item.
pub(crate) fn push_closing(out: &mut String, last: Option<u32>) -> Result<(), AllocError>
    ensures { OnOk result (string_bytes out.new ≡ string_bytes out.old ++ closing last) }
{
    match last {
        None => out.push_str("[]"),
        Some(_) => out.push_str("]]]"),
    }
}
