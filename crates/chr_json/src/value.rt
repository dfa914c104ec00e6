//! The parts of a JSON value.

ghost use Rattle.std.specs.Prelude.{◌≡◌, map, option_map};
ghost use Rattle.serde_json.specs.View.{view as data_of};
ghost use Rattle.chr_json.specs.Values.{elements, origin_of, is_string};

use crate::limits::MAX_ORIGIN;
use serde_json::Value;

/// The elements of an array.
pub fn elements(value: &Value) -> Option<&[Value]>
    ensures { option_map (λ s. map data_of s.now) result ≡ elements (data_of value.now) }
{
    let items = value.as_array()?;
    Some(items.as_slice())
}

/// A whole number from 0 to [`MAX_ORIGIN`].
pub fn origin(value: &Value) -> Option<u32>
    ensures { result ≡ origin_of (data_of value.now) }
{
    let number = value.as_u64()?;
    if number <= MAX_ORIGIN {
        Some(number as u32)
    } else {
        None
    }
}

/// Whether the value is this text.
pub fn is_string(value: &Value, text: &str) -> bool
    ensures { result ≡ is_string text.now (data_of value.now) }
{
    match value.as_str() {
        Some(found) => found == text,
        None => false,
    }
}
