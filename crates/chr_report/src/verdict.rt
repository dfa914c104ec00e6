//! The lines of verdicts.
ghost use Rattle.std.specs.Prelude.{◌≡◌, ◌++◌, [], ◌∷◌, IfOk, OnOk, codes, string_bytes};
ghost use Rattle.std.specs.Fmt.{decimal};
ghost use Rattle.std.specs.List.{flat_map};
ghost use Rattle.chr_base.specs.Programs.{declarations};
ghost use Rattle.chr_report.specs.Outputs.{IsFaultLine, not_lowered_text, accepted_text, IsCauseLine};
ghost use Rattle.chr_report.specs.Overlaps.{matching_text, overlap_text};
ghost use Rattle.chr_report.specs.Overlaps.{failure_text, too_many_text};

use chr_base::program::Program;
use chr_base::text::store_text;
use chr_join::{Cause, Failure, TooManyTypes};
use chr_overlaps::Overlap;
use chr_read::ReadFault;
use chr_weights::NotLowered;
use std::alloc::{AllocError, Global};
use std::fmt::Write;

/// The line of a text that is no program.
pub(crate) fn fault_line(alloc: Global, fault: &ReadFault) -> Result<String, AllocError>
    ensures { IfOk result (λ s. IsFaultLine fault.now (string_bytes s)) }
{
    let mut text = String::new(alloc);
    match fault {
        ReadFault::TooLong => text.push_str("refused 2\n")?,
        ReadFault::Bad { fault, clause } => {
            let number = fault.number();
            write!(text, "refused {number}: clause {clause}\n")?;
        }
        ReadFault::Memory => return Err(AllocError),
    }
    Ok(text)
}

/// The line of a program with a rule that does not lower the weight: the weights before and after the rule, with both
/// numbers of each where `paired`.
pub(crate) fn not_lowered_line(
    alloc: Global,
    paired: bool,
    fault: &NotLowered,
) -> Result<String, AllocError>
    ensures { IfOk result (λ s. string_bytes s
        ≡ not_lowered_text paired fault.now.rule fault.now.before fault.now.after ++ 10 ∷ []) }
{
    let mut text = String::new(alloc);
    write!(text, "refused 20: rule {}; before ", fault.rule)?;
    fault.before.push_text(&mut text, paired)?;
    text.push_str("; after ")?;
    fault.after.push_text(&mut text, paired)?;
    text.push_str("\n")?;
    Ok(text)
}

/// The line of a program of which no case fails.
pub(crate) fn accepted_line(alloc: Global, rules: usize, cases: u64) -> Result<String, AllocError>
    ensures { IfOk result (λ s. string_bytes s ≡ accepted_text rules cases ++ 10 ∷ []) }
{
    let mut text = String::new(alloc);
    write!(text, "accepted: rules {rules}, cases {cases}\n")?;
    Ok(text)
}

/// Adds the entries, each after a comma.
fn push_more_entries(out: &mut String, entries: &[u8]) -> Result<(), AllocError>
    ensures { OnOk result (string_bytes out.new
        ≡ string_bytes out.old ++ flat_map (λ n. codes "," ++ decimal n) entries.now) }
{
    for entry in entries {
        write!(out, ",{entry}")?;
    }
    Ok(())
}

fn push_matching(out: &mut String, matching: &[u8]) -> Result<(), AllocError>
    ensures { OnOk result (string_bytes out.new ≡ string_bytes out.old ++ matching_text matching.now) }
{
    out.push_str("(")?;
    if let Some((first, rest)) = matching.split_first() {
        write!(out, "{first}")?;
        push_more_entries(out, rest)?;
    }
    out.push_str(")")
}

fn push_overlap(out: &mut String, overlap: &Overlap) -> Result<(), AllocError>
    ensures { OnOk result (string_bytes out.new ≡ string_bytes out.old ++ overlap_text overlap.now) }
{
    let first = overlap.first;
    let second = overlap.second;
    write!(out, "rules {first} {second}; matching ")?;
    push_matching(out, overlap.matching.as_slice())
}

/// The line of a program with a case that fails, without its end.
fn failure_text(alloc: Global, program: &Program, failure: &Failure) -> Result<String, AllocError>
    ensures { IfOk result (λ s. string_bytes s ≡ failure_text (declarations program.now) failure.now) }
{
    let store = store_text(alloc, program, &failure.left.start)?;
    let left = store_text(alloc, program, &failure.left_end)?;
    let right = store_text(alloc, program, &failure.right_end)?;
    let mut text = String::new(alloc);
    text.push_str("refused 21: ")?;
    push_overlap(&mut text, &failure.overlap)?;
    write!(text, "; store {store}; left {left}; right {right}")?;
    Ok(text)
}

/// The line of a program with an overlap of too many order types, without its end.
fn too_many_text(alloc: Global, too_many: &TooManyTypes) -> Result<String, AllocError>
    ensures { IfOk result (λ s. string_bytes s ≡ too_many_text too_many.now) }
{
    let classes = too_many.classes;
    let mut text = String::new(alloc);
    text.push_str("refused 22: ")?;
    push_overlap(&mut text, &too_many.overlap)?;
    write!(text, "; classes {classes}")?;
    Ok(text)
}

/// The line of a program that lowers and is refused.
pub(crate) fn refusal_line(
    alloc: Global,
    program: &Program,
    cause: &Cause,
) -> Result<String, AllocError>
    ensures { IfOk result (λ s. IsCauseLine (declarations program.now) cause.now (string_bytes s)) }
{
    let mut text = match cause {
        Cause::Fails(failure) => failure_text(alloc, program, failure)?,
        Cause::TooManyTypes(too_many) => too_many_text(alloc, too_many)?,
        Cause::Memory => return Err(AllocError),
    };
    text.push_str("\n")?;
    Ok(text)
}
