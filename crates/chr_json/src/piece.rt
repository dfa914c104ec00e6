//! The pieces of compact JSON, read from the front of bytes. Each reader hands back the bytes after its piece.

ghost use Rattle.std.specs.Prelude.{◌≡◌, ◌++◌, ◌∷◌, ◌≤◌, ◌<◌, IfOk, decimal, length};
ghost use Rattle.std.specs.Fmt.{signed_decimal};
ghost use Rattle.std.specs.List.{prefix_len};
ghost use Rattle.std.specs.Str.{IsUtf8};
ghost use Rattle.json.specs.Print.{escape, quoted};
ghost use Rattle.chr_json.specs.working.Compact.{is_bare};
ghost use Rattle.chr_json.specs.declared.piece.Stop.TheVariants.{Memory};

use std::alloc::{AllocError, AllocFailed};

/// Why a piece was not read.
#[derive(Debug, Drop)]
pub enum Stop {
    /// No memory was left.
    Memory,
    /// The bytes have another form, or a value that is left to the reader of all JSON.
    Other,
}

impl<T: Drop> From<AllocFailed<T>> for Stop {
    ghost from_gives = { λ _ e. e ≡ Memory };

    fn from(_e: AllocFailed<T>) -> Stop {
        Stop::Memory
    }
}

impl From<AllocError> for Stop {
    ghost from_gives = { λ _ e. e ≡ Memory };

    fn from(_e: AllocError) -> Stop {
        Stop::Memory
    }
}

/// What follows these bytes at the front.
pub fn after<'a>(front: &[u8], text: &'a [u8]) -> Result<&'a [u8], Stop>
    ensures { IfOk result (λ rest. text.now ≡ front.now ++ rest.now) }
{
    match text.strip_prefix(front) {
        Some(rest) => Ok(rest),
        None => Err(Stop::Other),
    }
}

/// The number whose decimal digits are those of this one, and then those at the front.
fn with_more_digits(first: u64, text: &[u8]) -> Result<(u64, &[u8]), Stop>
    requires { 0 < first }
    ensures { IfOk result (λ r. decimal first ++ text.now ≡ decimal r.0 ++ r.1.now) }
{
    let mut value = first;
    for (place, byte) in text.iter().enumerate() {
        if !byte.is_ascii_digit() {
            return Ok((value, &text[place..]));
        }
        let Some(tens) = value.checked_mul(10) else {
            return Err(Stop::Other);
        };
        let Some(more) = tens.checked_add(u64::from(*byte - b'0')) else {
            return Err(Stop::Other);
        };
        value = more;
    }
    Ok((value, &[]))
}

/// A number of one digit and this many more is below 10^18, so it fits 64 bits without a test.
const FREE_DIGITS: usize = 17;

/// The number whose decimal digits are this one, and then those at the front.
fn with_digits(first: u64, text: &[u8]) -> Result<(u64, &[u8]), Stop>
    requires { (0 < first) × (first < 10) }
    ensures { IfOk result (λ r. decimal first ++ text.now ≡ decimal r.0 ++ r.1.now) }
{
    let end = text.len().min(FREE_DIGITS);
    let mut value = first;
    for place in 0..end {
        let byte = text[place];
        if !byte.is_ascii_digit() {
            return Ok((value, &text[place..]));
        }
        value = value * 10 + u64::from(byte - b'0');
    }
    with_more_digits(value, &text[end..])
}

/// A whole number without a sign, in 64 bits.
pub fn natural(text: &[u8]) -> Result<(u64, &[u8]), Stop>
    ensures { IfOk result (λ r. text.now ≡ decimal r.0 ++ r.1.now) }
{
    match text {
        [b'0', rest @ ..] => Ok((0, rest)),
        [digit @ b'1'..=b'9', rest @ ..] => with_digits(u64::from(*digit - b'0'), rest),
        _ => Err(Stop::Other),
    }
}

/// A whole number that has a minus before it or none, in 64 bits. The least of them is left to the reader of all JSON.
pub fn integer(text: &[u8]) -> Result<(i64, &[u8]), Stop>
    ensures { IfOk result (λ r. text.now ≡ signed_decimal r.0 ++ r.1.now) }
{
    let (is_negative, digits) = match text {
        [b'-', digits @ ..] => (true, digits),
        _ => (false, text),
    };
    let (size, rest) = natural(digits)?;
    let Ok(value) = i64::try_from(size) else {
        return Err(Stop::Other);
    };
    if !is_negative {
        return Ok((value, rest));
    }
    if value == 0 {
        // JSON's `-0` is no whole number
        return Err(Stop::Other);
    }
    Ok((-value, rest))
}

/// Whether the byte stands for itself in a text of JSON.
fn is_bare(byte: u8) -> bool
    ensures { result ≡ is_bare byte }
{
    byte >= 0x20 && byte != b'"' && byte != b'\\'
}

/// How many bytes at the front stand for themselves.
fn bare_len(text: &[u8]) -> usize
    ensures value { result ≡ prefix_len is_bare text.now }
    ensures within { result ≤ length text.now }
{
    text.iter().take_while(|byte| is_bare(**byte)).count()
}

/// The text before a quotation mark, without escapes.
fn name_before(text: &[u8]) -> Result<(&str, &[u8]), Stop>
    ensures text { IfOk result (λ r. 34 ∷ text.now ≡ quoted r.0.now ++ r.1.now) }
    ensures plain { IfOk result (λ r. escape r.0.now ≡ r.0.now) }
    ensures utf8 { IfOk result (λ r. IsUtf8 r.0.now) }
{
    let (bytes, rest) = text.split_at(bare_len(text));
    let rest = after(b"\"", rest)?;
    match str::from_utf8(bytes) {
        Ok(name) => Ok((name, rest)),
        Err(_) => Err(Stop::Other),
    }
}

/// A text between quotation marks, without escapes. Where it is `near`, its bytes are compared with `near` and not
/// looked at again.
pub fn name<'a>(near: &'a str, text: &'a [u8]) -> Result<(&'a str, &'a [u8]), Stop>
    requires { escape near.now ≡ near.now }
    ensures text { IfOk result (λ r. text.now ≡ quoted r.0.now ++ r.1.now) }
    ensures plain { IfOk result (λ r. escape r.0.now ≡ r.0.now) }
    ensures utf8 { IfOk result (λ r. IsUtf8 r.0.now) }
{
    let inner = after(b"\"", text)?;
    if let Ok(next) = after(near.as_bytes(), inner)
        && let Ok(rest) = after(b"\"", next)
    {
        return Ok((near, rest));
    }
    name_before(inner)
}
