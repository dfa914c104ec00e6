//! What may be wrong with a command line, and where.

ghost use Rattle.std.specs.Prelude.{◌≡◌};
ghost use Rattle.chr_lines.specs.Mistakes.{mistake_number};

use chr_json::MAX_LINE;

/// Why bytes are no JSON value.
#[derive(Clone, Copy)]
pub enum JsonFault {
    /// They are not UTF-8.
    NoText,
    /// They end, with so many brackets open.
    Ends(usize),
    /// A text has no double quote at its end.
    OpenText,
    /// A text holds a character that has to be written with a backslash.
    Control,
    /// A backslash has no character behind it that gives it a meaning.
    Escape,
    /// An escape stands for one half of a character.
    Half,
    /// A number is written as JSON has none, or is beyond all that JSON readers keep.
    BadNumber,
    /// A word has no double quotes.
    Word,
    /// A comma has nothing before it or behind it.
    Comma,
    /// A comma is missing.
    NoComma,
    /// A member of an object has no name.
    NoKey,
    /// A colon is missing.
    NoColon,
    /// A bracket is closed that is not the last one open.
    Bracket,
    /// Brackets stand in too many others.
    Depth,
    /// Something stands behind the value.
    Behind,
    /// A character begins no value.
    Sign,
}

/// Bytes that are no JSON value, and where that shows.
#[derive(Clone, Copy)]
pub struct NoJson {
    pub at: usize,
    pub fault: JsonFault,
}

/// The words with which commands begin.
#[derive(Clone, Copy)]
pub enum Word {
    Tell,
    Show,
    Sync,
    Summary,
    Lacks,
    Merge,
}

/// Where an argument belongs.
#[derive(Clone, Copy)]
pub struct ArgumentPlace {
    /// Where the name of its atom stands in the line.
    pub name_at: usize,
    /// How many arguments the atom has.
    pub arity: usize,
    /// Which of them it is, counted from 0.
    pub number: usize,
}

/// What belongs at a place of a command.
#[derive(Clone, Copy)]
pub enum Wanted {
    Command,
    Word,
    /// What this word takes.
    Parts(Word),
    Replica,
    Id,
    Origin,
    /// A number of an operation.
    Number,
    Atoms,
    Atom,
    Name,
    Argument(ArgumentPlace),
    Summary,
    /// An origin and its ranges.
    OriginRanges,
    Range,
    /// The greater end of a range.
    RangeEnd,
    Version,
    Delta,
    /// The number with which a delta begins that has groups.
    DeltaVersion,
    /// An origin and its operations.
    Group,
    /// A number and the atoms of its operation.
    Numbered,
    /// An id and the atoms of its operation.
    Operation,
}

/// What stands at a place of a line that is a JSON value.
#[derive(Clone, Copy)]
pub enum Found {
    Nothing,
    /// Fewer things than belong there.
    Less,
    /// More of them.
    More,
    Null,
    Truth,
    Text,
    /// A text of digits alone.
    Digits,
    Whole,
    Negative,
    Large,
    Fraction,
    Array,
    Object,
}

/// A JSON value that is no command: where that shows, what belongs there, and what stands there.
#[derive(Clone, Copy)]
pub struct NoCommand {
    pub at: usize,
    pub wanted: Wanted,
    pub found: Found,
}

/// An atom of a name and a number of arguments that the program doesn't declare, and where it stands.
#[derive(Drop)]
pub struct Undeclared {
    pub at: usize,
    pub name: String,
    pub arity: usize,
}

/// A replica that is never there, and where it is named.
#[derive(Clone, Copy)]
pub struct NoReplica {
    pub at: usize,
    pub replica: u64,
}

/// What is wrong with a line.
#[derive(Drop)]
pub enum Mistake {
    /// It is longer than [`MAX_LINE`].
    TooLong,
    NoJson(NoJson),
    NoCommand(NoCommand),
    Undeclared(Undeclared),
    NoReplica(NoReplica),
}

impl Mistake {
    /// The number of the refusal.
    pub fn number(&self) -> u8
        ensures { result ≡ mistake_number self.now }
    {
        match self {
            Mistake::TooLong | Mistake::NoJson(_) => 30,
            Mistake::NoCommand(_) => 31,
            Mistake::Undeclared(_) => 32,
            Mistake::NoReplica(_) => 35,
        }
    }

    /// The byte of the line at which it shows.
    pub fn at(&self) -> usize {
        match self {
            Mistake::TooLong => MAX_LINE,
            Mistake::NoJson(it) => it.at,
            Mistake::NoCommand(it) => it.at,
            Mistake::Undeclared(it) => it.at,
            Mistake::NoReplica(it) => it.at,
        }
    }
}
