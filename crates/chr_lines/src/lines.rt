//! All command lines of an input.

use crate::heard::{Heard, line_heard};
use crate::limits::MAX_TOLD_LINES;
use crate::mistake::Mistake;
use chr_base::program::Program;
use std::alloc::{AllocError, Global};

/// A line that is refused whatever came before it.
#[derive(Drop)]
pub(crate) struct RefusedLine<'a> {
    /// Its number in the input, counted from 1.
    pub number: usize,
    pub line: &'a [u8],
    pub mistake: Mistake,
}

/// What a run makes of the lines of an input.
#[derive(Drop)]
pub(crate) struct LinesHeard<'a> {
    /// How many are no blank ones.
    pub count: usize,
    /// How many are refused whatever came before them.
    pub refused: usize,
    /// The first of those.
    pub told: Vec<RefusedLine<'a>>,
    /// By how many replicas all others are taken.
    pub replicas: u64,
    /// The number of the first line that one replica does not do for.
    pub first: Option<usize>,
}

/// A line without the one carriage return at its end.
fn without_return(line: &[u8]) -> &[u8] {
    line.strip_suffix(b"\r").unwrap_or(line)
}

impl<'a> LinesHeard<'a> {
    /// Notes a line that so many replicas take.
    fn take(&mut self, number: usize, replicas: u64) {
        self.count = self.count.saturating_add(1);
        self.replicas = self.replicas.max(replicas);
        if replicas > 1 && self.first.is_none() {
            self.first = Some(number);
        }
    }

    /// Notes a line that is refused.
    fn refuse(&mut self, refused: RefusedLine<'a>) -> Result<(), AllocError> {
        self.count = self.count.saturating_add(1);
        self.refused = self.refused.saturating_add(1);
        if self.told.len() < MAX_TOLD_LINES {
            self.told.push(refused)?;
        }
        Ok(())
    }
}

/// What a run of the program makes of these lines, of which the first has this number.
pub(crate) fn lines_heard<'a>(
    alloc: Global,
    program: &Program,
    lines: &'a [u8],
    first: usize,
) -> Result<LinesHeard<'a>, AllocError> {
    let mut heard = LinesHeard {
        count: 0,
        refused: 0,
        told: Vec::new(alloc),
        replicas: 1,
        first: None,
    };
    let mut number = first;
    for line in lines.split(|byte| *byte == b'\n') {
        let line = without_return(line);
        match line_heard(alloc, program, line)? {
            Heard::Blank => {}
            Heard::Taken(replicas) => heard.take(number, replicas),
            Heard::Refused(mistake) => heard.refuse(RefusedLine {
                number,
                line,
                mistake,
            })?,
        }
        number = number.saturating_add(1);
    }
    Ok(heard)
}
