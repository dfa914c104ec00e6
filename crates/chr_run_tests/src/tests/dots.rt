//! A machine of which all is promised: it answers each byte by a dot.
ghost use Rattle.std.specs.Prelude.{◌≡◌, ◌++◌, ℕ, List, [], refl, map, false, OnOk, IfSome};
ghost use Rattle.std.specs.Io.KnownBytes.{Appends};
ghost use Rattle.chr_device.specs.Devices.{inner_of, has_failed};
ghost use Rattle.chr_run_tests.specs.Dots.{dots, dots_join};

use chr_device::{RunFault, Watched};
use chr_run::{Machine, answer_at_end};
use std::alloc::{AllocError, Global};
use std::io::{Read, Write};
use std::sync::Wait;

/// Answers each byte by a dot.
#[derive(Clone, Copy, Debug)]
struct Dots;

impl Machine<Vec<u8>> for Dots {
    ghost Answers = { λ _ bytes text _. text ≡ dots bytes };

    ghost Finishes = { λ _ bytes text _. text ≡ dots bytes };

    ghost AnswersAll = { λ _ bytes text. text ≡ dots bytes };

    ghost IsDone = { λ _. ⊥ };

    ghost IsReady = { λ _. Unit {0} };

    ghost fits = { λ _ _. Unit {0} };

    fn answer(
        &mut self,
        _batch: &mut Vec<u8>,
        at: usize,
        held: &mut String,
    ) -> Result<usize, AllocError> {
        held.push('.')?;
        Ok(at + 1)
    }

    fn finish(&mut self, _held: &mut String) -> Result<(), AllocError> {
        Ok(())
    }

    fn is_done(&self) -> bool {
        false
    }

    ghost starts = { λ _. refl };

    ghost joins = { λ _ _ _ front rest _ _. dots_join front rest };

    ghost ends = { λ _ _ _ front rest _ _. dots_join front rest };

    ghost goes_on = { λ _ _ front rest _ _. dots_join front rest };

    ghost all = { λ _ _ _ _ e. e };

    ghost done = { λ _ _ h. absurd h };

    ghost exists = { λ _ bytes. (dots bytes, refl) };
}

/// Writes a dot for each byte of a reader.
fn write_dots<R: Read, W: Write>(
    rt: &impl Wait,
    alloc: Global,
    reader: &mut Watched<R>,
    writer: &mut Watched<W>,
) -> Result<(), RunFault>
    requires reads { has_failed reader.old ≡ false }
    requires writes { has_failed writer.old ≡ false }
    ensures { OnOk result (IfSome (R.remaining (inner_of reader.old)) (λ input.
        Appends (W.contents (inner_of writer.old)) (W.contents (inner_of writer.new)) (dots input))) }
{
    answer_at_end(rt, alloc, &mut Dots, reader, writer)
}

#[test]
fn each_byte_is_answered(rt: HostRuntime) {
    let alloc = rt.alloc();
    let mut reader = Watched::of(b"abc".as_slice());
    let room = Vec::with_capacity(alloc, 64).expect(&rt, "memory");
    let mut writer = Watched::of(room);
    write_dots(&rt, alloc, &mut reader, &mut writer).expect(&rt, "a run");
    assert!(rt; writer.into_inner().as_slice() == b"...".as_slice());
}
