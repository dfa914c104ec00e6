//! Which atoms are wanted.
ghost use Rattle.std.specs.Prelude.{◌≡◌};
ghost use Rattle.chr_queries.specs.Wanted.{is_wanted, value_fits, values_fit};

use arrayvec::ArrayVec;
use chr_base::atom::{Atom, SymbolId};
use chr_base::limits::MAX_ARITY;

/// Atoms of a symbol, with as many arguments as there are places, and with the given value at each place that has one.
#[derive(Debug, PartialEq, Eq, Drop)]
pub struct Wanted {
    pub symbol: SymbolId,
    pub places: ArrayVec<Option<i64>, MAX_ARITY>,
}

impl Wanted {
    /// Whether the atom is wanted.
    pub fn has(&self, atom: &Atom) -> bool
        ensures { result ≡ is_wanted self.now atom.now }
    {
        self.symbol.0 == atom.symbol.0 && values_fit(self.places.as_slice(), atom.args.as_slice())
    }
}

/// Whether the value is the given one, if one is given.
fn value_fits(place: Option<i64>, value: i64) -> bool
    ensures { result ≡ value_fits place value }
{
    match place {
        Some(given) => given == value,
        None => true,
    }
}

/// Whether there are as many values as places, and each fits.
fn values_fit(places: &[Option<i64>], values: &[i64]) -> bool
    ensures { result ≡ values_fit places.now values.now }
{
    let [place, places @ ..] = places else {
        return values.is_empty();
    };
    let [value, values @ ..] = values else {
        return false;
    };
    value_fits(*place, *value) && values_fit(places, values)
}
