//! Numbers of a text, from their digits.

ghost use Rattle.std.specs.Prelude.{◌≡◌, ◌==◌, ◌≤◌, length, true, option_map};
ghost use Rattle.std.specs.List.{list_all, prefix_len};
ghost use Rattle.chr_read.specs.Numbers.{unsigned, without_zeros, small, arity_of, is_numeral, number_of};
ghost use Rattle.chr_read.specs.Numbers.{second_number_of, weight_outside, checked_weight, as_weight, weight_named_by};
ghost use Rattle.chr_base.specs.Names.{is_digit};
ghost use Rattle.chr_base.specs.Weights.{is_weight};

use chr_base::limits::{MAX_ARITY, MAX_WEIGHT};
use chr_base::weight::Weight;

fn zeros(digits: &[u8]) -> usize
    ensures value { result ≡ prefix_len (λ b. b == 48) digits.now }
    ensures within { result ≤ length digits.now }
{
    digits.iter().take_while(|digit| **digit == b'0').count()
}

/// The digits without leading zeros.
pub fn without_zeros(digits: &[u8]) -> &[u8]
    ensures { result.now ≡ without_zeros digits.now }
{
    &digits[zeros(digits)..]
}

/// The number of arguments that these digits name, where it is at most `MAX_ARITY`.
pub fn arity_of(digits: &[u8]) -> Option<usize>
    ensures { result ≡ arity_of digits.now }
{
    match without_zeros(digits) {
        [] => Some(0),
        [digit] => {
            if b'1' <= *digit && *digit <= b'0' + MAX_ARITY as u8 {
                Some((*digit - b'0') as usize)
            } else {
                None
            }
        }
        _ => None,
    }
}

fn is_digit(digit: u8) -> bool
    ensures { result ≡ is_digit digit }
{
    b'0' <= digit && digit <= b'9'
}

fn are_digits(bytes: &[u8]) -> bool
    ensures { result ≡ list_all is_digit bytes.now }
{
    bytes.iter().all(|byte| is_digit(*byte))
}

/// Whether these are one digit or more.
fn is_numeral(bytes: &[u8]) -> bool
    ensures { result ≡ is_numeral bytes.now }
{
    bytes.len() > 0 && are_digits(bytes)
}

/// What stands after a minus, or all where there is none.
fn unsigned(digits: &[u8]) -> &[u8]
    ensures { result.now ≡ unsigned digits.now }
{
    match digits {
        [b'-', rest @ ..] => rest,
        _ => digits,
    }
}

/// The value of this text of digits, which may have a minus before them, where 64 bits hold it.
#[tactic(auto, using(crate::proofs::Numbers::parsed))]
fn parsed(text: &str) -> Option<i64>
    requires { is_numeral (unsigned text.now) ≡ true }
    ensures { result ≡ number_of text.now }
{
    text.parse::<i64>().ok()
}

/// The value of these digits, which may have a minus before them, where 64 bits hold it.
#[tactic(auto, using(crate::proofs::Numbers::numerals_are_text))]
pub fn number_of(digits: &[u8]) -> Option<i64>
    ensures { result ≡ number_of digits.now }
{
    if !is_numeral(unsigned(digits)) {
        return None;
    }
    let text = str::from_utf8(digits).ok()?;
    parsed(text)
}

/// The value of the second number of a weight, where 64 bits hold it: 0 where it is not written.
fn second_number_of(digits: Option<&[u8]>) -> Option<i64>
    ensures { result ≡ second_number_of (option_map (λ w. w.now) digits.entry) }
{
    match digits {
        Some(digits) => number_of(digits),
        None => Some(0),
    }
}

/// Whether one of the numbers of a weight is one that 64 bits do not hold.
pub fn weight_outside(first: &[u8], second: Option<&[u8]>) -> bool
    ensures { result ≡ weight_outside first.now (option_map (λ w. w.now) second.entry) }
{
    number_of(first).is_none() || second_number_of(second).is_none()
}

/// Whether each number is at most `MAX_WEIGHT`, and not both are 0.
fn is_weight(weight: Weight) -> bool
    ensures { result ≡ is_weight weight }
{
    weight.first <= MAX_WEIGHT
        && weight.second <= MAX_WEIGHT
        && !(weight.first == 0 && weight.second == 0)
}

/// The weight itself, where it is one that a symbol may have.
fn checked_weight(weight: Weight) -> Option<Weight>
    ensures { result ≡ checked_weight weight }
{
    if is_weight(weight) {
        Some(weight)
    } else {
        None
    }
}

/// Two values as a weight, where each is from 0 to `MAX_WEIGHT` and not both are 0.
fn as_weight(first: i64, second: i64) -> Option<Weight>
    ensures { result ≡ as_weight first second }
{
    let first = u64::try_from(first).ok()?;
    let second = u64::try_from(second).ok()?;
    checked_weight(Weight { first, second })
}

/// The weight that one number names or two, where each is from 0 to `MAX_WEIGHT` and not both are 0. A second number
/// that is not written counts as 0.
pub fn weight_named_by(first: &[u8], second: Option<&[u8]>) -> Option<Weight>
    ensures { result ≡ weight_named_by first.now (option_map (λ w. w.now) second.entry) }
{
    as_weight(number_of(first)?, second_number_of(second)?)
}
