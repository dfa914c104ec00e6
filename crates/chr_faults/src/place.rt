//! Lines and columns.
ghost use Rattle.std.specs.Prelude.{◌≡◌, ◌≤◌, length};
ghost use Rattle.chr_faults.specs.Places.{line_at, column_at, goes_on, place_outside, PlacesAreOutside};

/// A line and a column, counted from 1. Columns count bytes.
#[derive(Clone, Copy, Debug, PartialEq, Eq)]
pub struct Place {
    pub line: usize,
    pub column: usize,
}

/// The line and the column of the byte at `at`.
pub fn place_of(text: &[u8], at: usize) -> Place
    requires { at ≤ length text.now }
    ensures line { result.line ≡ line_at text.now at }
    ensures column { result.column ≡ column_at text.now at }
{
    let mut line = 1;
    let mut column = 0;
    for b in &text[..at] {
        if *b == b'\n' {
            line += 1;
            column = 0;
        } else {
            column += 1;
        }
    }
    Place {
        line,
        column: column + 1,
    }
}

/// Whether a comment goes on after this byte.
fn goes_on(in_comment: bool, byte: u8) -> bool
    ensures { result ≡ goes_on in_comment byte }
{
    if byte == b'\n' {
        false
    } else {
        in_comment || byte == b'%'
    }
}

/// Where in the text the byte stands that has `n` bytes outside comments before it, itself outside comments.
pub fn place_outside(text: &[u8], n: usize) -> Option<usize>
    ensures { result ≡ place_outside text.now n }
{
    let mut left = n;
    let mut in_comment = false;
    for (i, b) in text.iter().enumerate() {
        in_comment = goes_on(in_comment, *b);
        if !in_comment {
            if left == 0 {
                return Some(i);
            }
            left -= 1;
        }
    }
    None
}

/// What a place outside comments is.
pub fn places_are_outside()
    ensures { PlacesAreOutside }
{}
