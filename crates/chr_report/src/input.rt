//! The program text and the command lines of an input.
ghost use Rattle.std.specs.Prelude.{◌≡◌, ◌<◌, ◌∷◌, ◌++◌, IfSome, IfNone, length};
ghost use Rattle.chr_answers.specs.Lines.{lines};
ghost use Rattle.chr_report.specs.Inputs.{is_divider, text_of, commands_of};
ghost use Rattle.chr_report.specs.Outputs.{asked};
ghost use Rattle.chr_report.specs.working.Divided.{IsDivided, IsUndivided};
ghost use Rattle.chr_report.specs.working.LinesLeft.{lines_left};

use chr_answers::{ended_line, without_return};
use chr_device::Verb;
use chr_read::MAX_TEXT;

/// The most bytes that are held before the program text has ended: a longer beginning without a divider has a text over
/// its limit, and is refused whatever follows. A line that is no longer than the longest divider may still become one.
pub(crate) const MOST_TEXT: usize = MAX_TEXT + 4;

/// The first line, and what comes after its line feed.
pub(crate) fn next_line(bytes: &[u8]) -> (&[u8], Option<&[u8]>)
    ensures lines { lines bytes.now ≡ result.0.now ∷ lines_left result.1 }
    ensures alone { IfNone result.1 (bytes.now ≡ result.0.now) }
    ensures before { IfSome result.1 (λ rest. bytes.now ≡ result.0.now ++ 10 ∷ rest.now) }
    ensures shorter { IfSome result.1 (λ rest. length rest.now < length bytes.now) }
{
    match ended_line(bytes) {
        Some((line, rest)) => (line, Some(rest)),
        None => (bytes, None),
    }
}

/// Whether a line ends the program text.
pub(crate) fn is_divider(line: &[u8]) -> bool
    ensures { result ≡ is_divider line.now }
{
    without_return(line) == b"---".as_slice()
}

/// The program text, which ends before the first line `---`, and what comes after that line, or nothing where there is
/// no such line or nothing comes after it.
pub(crate) fn split(input: &[u8]) -> (&[u8], Option<&[u8]>)
    ensures text { result.0.now ≡ text_of (lines input.now) }
    ensures commands { commands_of (lines input.now) ≡ lines_left result.1 }
{
    let mut next = Some(input);
    while let Some(rest) = next {
        let (line, more) = next_line(rest);
        if is_divider(line) {
            return (&input[..input.len() - rest.len()], more);
        }
        next = more;
    }
    (input, None)
}

/// The program text before the first line `---` that has ended, and what comes after that line, or nothing where there
/// is no such line yet.
pub(crate) fn divided(input: &[u8]) -> Option<(&[u8], &[u8])>
    ensures some { IfSome result (λ p. IsDivided input.now p.0.now p.1.now) }
    ensures none { IfNone result (IsUndivided input.now) }
{
    let mut rest = input;
    while let Some((line, more)) = ended_line(rest) {
        if is_divider(line) {
            return Some((&input[..input.len() - rest.len()], more));
        }
        rest = more;
    }
    None
}

/// The commands that are to be answered: by a run or a service all, by a check or an explanation none.
pub(crate) fn asked(verb: Verb, commands: Option<&[u8]>) -> Option<&[u8]>
    ensures { lines_left result ≡ asked verb (lines_left commands.entry) }
{
    match verb {
        Verb::Check | Verb::Explain => None,
        Verb::Run | Verb::Serve => commands,
    }
}

/// The program text of an input.
pub fn program_text(input: &[u8]) -> &[u8]
    ensures { result.now ≡ text_of (lines input.now) }
{
    split(input).0
}
