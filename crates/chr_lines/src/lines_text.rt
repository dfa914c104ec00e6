//! Command lines told to a person.

use crate::command_text::{push_advice, push_no_command};
use crate::json_text::push_no_json;
use crate::lines::{LinesHeard, RefusedLine, lines_heard};
use crate::mistake::Mistake;
use crate::symbol_text::push_undeclared;
use chr_base::limits::MAX_REPLICAS;
use chr_base::program::Program;
use chr_faults::{ColumnNames, columns_in, push_line, push_number};
use chr_json::MAX_LINE;
use std::alloc::{AllocError, Global};

/// A program, with the names that its text gives columns.
#[derive(Clone, Copy)]
pub(crate) struct Source<'a> {
    pub program: &'a Program,
    pub columns: &'a [ColumnNames],
}

/// Tells what is wrong with a line.
fn push_mistake(
    out: &mut String,
    source: Source<'_>,
    line: &[u8],
    mistake: &Mistake,
) -> Result<(), AllocError> {
    match mistake {
        Mistake::TooLong => push_number(
            out,
            "the line has more than ",
            MAX_LINE as u64,
            " bytes: write several",
        ),
        Mistake::NoJson(it) => push_no_json(out, line, *it),
        Mistake::NoCommand(it) => push_no_command(out, source, line, *it),
        Mistake::Undeclared(it) => push_undeclared(out, source, it),
        Mistake::NoReplica(it) => {
            push_number(
                out,
                "there is no replica ",
                it.replica,
                ": they have the numbers from 1 on",
            )?;
            push_number(out, ", up to ", u64::from(MAX_REPLICAS), "")
        }
    }
}

/// Adds where a line is refused, and as which number.
fn push_place(out: &mut String, refused: &RefusedLine<'_>, at: usize) -> Result<(), AllocError> {
    push_number(out, "line ", refused.number as u64, "")?;
    push_number(out, ", column ", at.saturating_add(1) as u64, "")?;
    push_number(out, ", refused ", u64::from(refused.mistake.number()), ": ")
}

/// Tells of a refused line: where, why, the line itself, and what would be right.
fn push_refused(
    out: &mut String,
    source: Source<'_>,
    refused: &RefusedLine<'_>,
) -> Result<(), AllocError> {
    let mistake = &refused.mistake;
    let at = mistake.at().min(refused.line.len());
    push_place(out, refused, at)?;
    push_mistake(out, source, refused.line, mistake)?;
    out.push_str("\n")?;
    push_line(out, refused.line, at)?;
    match mistake {
        Mistake::NoCommand(it) => push_advice(out, *it),
        _ => Ok(()),
    }
}

/// Tells how many lines there are, and how many of them are refused.
fn push_counts(out: &mut String, heard: &LinesHeard<'_>) -> Result<(), AllocError> {
    push_number(out, "Command lines: ", heard.count as u64, "")?;
    if heard.refused == 0 {
        return out.push_str(", none of them refused for what it says.\n");
    }
    let refused = heard.refused as u64;
    push_number(
        out,
        ", of which `run` refuses ",
        refused,
        ", whatever came before:\n",
    )
}

/// Tells how many more lines are refused.
fn push_more(out: &mut String, heard: &LinesHeard<'_>) -> Result<(), AllocError> {
    match heard.refused.saturating_sub(heard.told.len()) {
        0 => Ok(()),
        more => push_number(out, "and ", more as u64, " more\n"),
    }
}

/// Tells how many replicas the lines want, where that is more than one.
fn push_replicas(out: &mut String, heard: &LinesHeard<'_>) -> Result<(), AllocError> {
    let Some(first) = heard.first else {
        return Ok(());
    };
    push_number(
        out,
        "The lines want `--replicas ",
        heard.replicas,
        "`: with fewer, `run` refuses lines as 35",
    )?;
    push_number(out, "; without it, line ", first as u64, " is the first.\n")
}

/// Adds what a run makes of the lines of an input.
fn push_heard(
    out: &mut String,
    source: Source<'_>,
    heard: &LinesHeard<'_>,
) -> Result<(), AllocError> {
    push_counts(out, heard)?;
    for refused in &heard.told {
        push_refused(out, source, refused)?;
    }
    push_more(out, heard)?;
    push_replicas(out, heard)?;
    out.push_str(
        "What hangs on the lines before isn't looked at: 33, an id that stands for other atoms, and 34, too many atoms.\n",
    )
}

/// Adds what a run of the program makes of the command lines of an input. Its text has stood before these bytes, of
/// which the first line is `---`. Nothing is told where there are no lines, or all are blank.
pub fn push_lines(
    alloc: Global,
    out: &mut String,
    program: &Program,
    text: &[u8],
    behind: &[u8],
) -> Result<(), AllocError> {
    let Some(divider) = behind.iter().position(|byte| *byte == b'\n') else {
        return Ok(());
    };
    let lines = behind.get(divider.saturating_add(1)..).unwrap_or(&[]);
    let before = text.iter().filter(|byte| **byte == b'\n').count();
    let heard = lines_heard(alloc, program, lines, before.saturating_add(2))?;
    if heard.count == 0 {
        return Ok(());
    }
    let columns = columns_in(alloc, text, program)?;
    let source = Source {
        program,
        columns: &columns,
    };
    push_heard(out, source, &heard)
}
