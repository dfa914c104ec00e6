//! What stands between the elements of an array.

ghost use Rattle.std.specs.Prelude.{◌≡◌, ◌++◌, ◌<◌, IfOk, length};
ghost use Rattle.chr_json.specs.working.Compact.{comma_text};

use crate::piece::Stop;

/// How the commas of a line are written, all of them alike.
#[derive(Clone, Copy)]
pub enum Comma {
    /// A comma alone, as in compact JSON.
    Bare,
    /// A comma and a space, as Python's `json.dumps` writes it.
    Spaced,
}

impl Comma {
    /// The comma with which the text begins, or any where it begins with none.
    pub fn at(text: &[u8]) -> Comma {
        match text {
            [b',', b' ', ..] => Comma::Spaced,
            _ => Comma::Bare,
        }
    }

    /// What follows this comma at the front.
    pub fn after(self, text: &[u8]) -> Result<&[u8], Stop>
        ensures text { IfOk result (λ rest. text.now ≡ comma_text self ++ rest.now) }
        ensures shorter { IfOk result (λ rest. length rest.now < length text.now) }
    {
        match (self, text) {
            (Comma::Bare, [b',', rest @ ..]) => Ok(rest),
            (Comma::Spaced, [b',', b' ', rest @ ..]) => Ok(rest),
            _ => Err(Stop::Other),
        }
    }
}
