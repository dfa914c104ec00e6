//! The lines of a text.
ghost use Rattle.std.specs.Prelude.{◌≡◌, ◌<◌, ◌≤◌, ◌∷◌, ◌++◌, ◌==◌, IfSome, IfNone, length, take, drop};
ghost use Rattle.std.specs.List.{position_or_len};
ghost use Rattle.chr_answers.specs.Lines.{AreWholeLines, HasNoFeed, last_bytes, without_return};

use memchr::{memchr, memrchr};

/// How many bytes stand before the first line feed.
fn line_len(bytes: &[u8]) -> usize
    ensures value { result ≡ position_or_len (λ b. b == 10) bytes.now }
    ensures within { result ≤ length bytes.now }
{
    match memchr(b'\n', bytes) {
        Some(place) => place,
        None => bytes.len(),
    }
}

/// What stands before the first line feed and after it, or nothing where there is no line feed.
pub fn ended_line(bytes: &[u8]) -> Option<(&[u8], &[u8])>
    ensures some { IfSome result (λ p. bytes.now ≡ p.0.now ++ 10 ∷ p.1.now) }
    ensures unended { IfSome result (λ p. HasNoFeed p.0.now) }
    ensures shorter { IfSome result (λ p. length p.1.now < length bytes.now) }
    ensures none { IfNone result (HasNoFeed bytes.now) }
{
    let n = line_len(bytes);
    if n == bytes.len() {
        return None;
    }
    Some((&bytes[..n], &bytes[n + 1..]))
}

/// The last `count` bytes of a text.
pub(crate) fn last_bytes(text: &[u8], count: usize) -> &[u8]
    ensures { result.now ≡ last_bytes count text.now }
{
    text.split_at(text.len().saturating_sub(count)).1
}

/// The first line of a text's last `left` bytes, and how many bytes come after its end, or nothing where no line ends
/// in them.
pub(crate) fn first_of_last(text: &[u8], left: usize) -> Option<(&[u8], usize)>
    ensures some { IfSome result (λ p. last_bytes left text.now ≡ p.0.now ++ 10 ∷ last_bytes p.1 text.now) }
    ensures unended { IfSome result (λ p. HasNoFeed p.0.now) }
    ensures shorter { IfSome result (λ p. p.1 < left) }
    ensures none { IfNone result (HasNoFeed (last_bytes left text.now)) }
{
    let (line, rest) = ended_line(last_bytes(text, left))?;
    Some((line, rest.len()))
}

/// How many bytes of a text are whole lines: all up to its last line feed.
pub fn whole_len(text: &[u8]) -> usize
    ensures within { result ≤ length text.now }
    ensures whole { AreWholeLines (take result text.now) }
    ensures unended { HasNoFeed (drop result text.now) }
{
    match memrchr(b'\n', text) {
        Some(place) => place + 1,
        None => 0,
    }
}

/// A line without the one carriage return at its end.
pub fn without_return(line: &[u8]) -> &[u8]
    ensures { result.now ≡ without_return line.now }
{
    if line.ends_with(b"\r") {
        &line[..line.len() - 1]
    } else {
        line
    }
}
