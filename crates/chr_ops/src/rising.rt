//! Operations in the order of their ids.
ghost use Rattle.std.specs.Prelude.{◌↔◌, IsTrue};
ghost use Rattle.chr_ops.specs.working.Entries.{Rise};

use crate::op::Op;

/// Whether each of these operations has a greater id than the one before it. Then no id stands twice.
pub(crate) fn ids_rise(ops: &[Op]) -> bool
    ensures { IsTrue result ↔ Rise ops.now }
{
    for i in 1..ops.len() {
        if ops[i].id() <= ops[i - 1].id() {
            return false;
        }
    }
    true
}
