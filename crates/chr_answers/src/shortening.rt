//! How much is held of a line that has not ended.
ghost use Rattle.std.specs.Prelude.{◌≤◌, length};
ghost use Rattle.chr_answers.specs.Lines.{HasNoFeed};
ghost use Rattle.chr_answers.specs.Shortened.{StandsFor};

use chr_json::{MAX_LINE, is_blank};

/// The most bytes that are held of a line. A line with this many is over its limit even without a carriage return at
/// its end, and refused whatever follows, unless it is blank.
pub(crate) const MOST_HELD: usize = MAX_LINE + 2;

/// A byte that is in no blank line, and ends none.
const NOT_BLANK: u8 = b'x';

/// Cuts a line that has begun and is longer than any command. However the line goes on, what is left of it is answered
/// as the line would be: it is blank where the line is, and its last byte may be a carriage return that belongs to the
/// line's end.
pub fn shorten(line: &mut Vec<u8>)
    ensures stands { StandsFor line.new.items line.old.items }
    ensures unended { HasNoFeed line.old.items → HasNoFeed line.new.items }
    ensures bounded { length line.new.items ≤ MOST_HELD }
{
    if line.len() <= MOST_HELD {
        return;
    }
    let place = MOST_HELD - 1;
    let end = line.len() - 1;
    let kept = if is_blank(&line[place..end]) {
        line[end]
    } else {
        NOT_BLANK
    };
    line[place] = kept;
    line.truncate(MOST_HELD);
}
