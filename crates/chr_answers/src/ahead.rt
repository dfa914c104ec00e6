//! Command lines that were read before their turn.
ghost use Rattle.std.specs.Prelude.{◌≡◌, ◌<◌, List, ℕ, All, IfSome};
ghost use Rattle.chr_base.specs.declared.program.Program.{Program as ProgramValue};
ghost use Rattle.chr_answers.specs.Ahead.{IsAhead};
ghost use Rattle.chr_answers.specs.Gathered.{AreTells};
ghost use Rattle.chr_answers.specs.Requests.{AsksFirst, IsHeard};

use crate::lines::{first_of_last, without_return};
use crate::request::{Request, request_of};
use crate::tells::Tells;
use chr_base::program::Program;
use chr_json::is_blank;
use std::alloc::Global;
use std::vec::IntoIter;

/// One of a text's lines, and what it asks for.
#[derive(Drop)]
pub struct Heard {
    /// How many bytes of the text are left at the line's start.
    pub left: usize,
    /// How many bytes of the text are left after the line's end.
    pub more: usize,
    /// What the line asks for, if that is known and the line is not blank.
    pub request: Option<Request>,
}

/// What the first line of a text's last `left` bytes asks for. Nothing is answered where no line ends in them.
pub fn read_one(alloc: Global, program: &Program, text: &[u8], left: usize) -> Option<Heard>
    ensures heard { IfSome result (IsHeard program.now text.now) }
    ensures left { IfSome result (λ heard. heard.left ≡ left) }
    ensures shorter { IfSome result (λ heard. heard.more < left) }
{
    let (line, more) = first_of_last(text, left)?;
    let line = without_return(line);
    let mut request = None;
    if !is_blank(line) {
        request = request_of(alloc, program, line).ok();
    }
    Some(Heard {
        left,
        more,
        request,
    })
}

/// Lines of a text that were read before their turn, in order: tells at its beginning that were rested, and what each
/// line after them asks for.
#[derive(Drop)]
pub struct Ahead {
    /// The tells that were rested, if any were.
    pub(crate) tells: Option<Tells>,
    /// The lines after them.
    pub(crate) heard: IntoIter<Heard>,
}

impl Ahead {
    /// No line was read before its turn.
    pub fn none(alloc: Global) -> Self
        ensures { (p : ProgramValue) (text : List ℕ) → IsAhead p text result }
    {
        Ahead {
            tells: None,
            heard: Vec::new(alloc).into_iter(),
        }
    }

    /// These tells were rested, and these lines were read after them.
    pub fn of(tells: Option<Tells>, heard: Vec<Heard>) -> Self
        ensures { (p : ProgramValue) (text : List ℕ) → IfSome tells (AreTells p text)
            → All (IsHeard p text) heard.items → IsAhead p text result }
    {
        Ahead {
            tells,
            heard: heard.into_iter(),
        }
    }

    /// The tells that were rested, if any were.
    pub fn rested(&self) -> Option<&Tells> {
        self.tells.as_ref()
    }

    /// The tells that were rested, if they are what comes next where `left` bytes are left.
    pub(crate) fn tells(&mut self, left: usize) -> Option<Tells>
        ensures ahead { (p : ProgramValue) (text : List ℕ) → IsAhead p text self.old → IsAhead p text self.new }
        ensures tells { (p : ProgramValue) (text : List ℕ) → IsAhead p text self.old
            → IfSome result (AreTells p text) }
        ensures left { IfSome result (λ tells. tells.left ≡ left) }
    {
        if !matches!(&self.tells, Some(tells) if tells.left == left) {
            return None;
        }
        self.tells.take()
    }

    /// What the line that begins where `left` bytes are left asks for, and how many bytes are left after its end, if
    /// that was read before its turn.
    pub(crate) fn request(&mut self, left: usize) -> Option<(Request, usize)>
        ensures ahead { (p : ProgramValue) (text : List ℕ) → IsAhead p text self.old → IsAhead p text self.new }
        ensures first { (p : ProgramValue) (text : List ℕ) → IsAhead p text self.old
            → IfSome result (λ r. AsksFirst p text left r.1 r.0) }
    {
        let heard = self.heard.next()?;
        let Heard {
            left: start,
            more,
            request,
        } = heard;
        match request {
            Some(request) if start == left => Some((request, more)),
            _ => None,
        }
    }
}
