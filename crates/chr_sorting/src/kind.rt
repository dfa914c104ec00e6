//! How a program compares the values of a sort.
ghost use Rattle.std.specs.Prelude.{◌≡◌};
ghost use Rattle.chr_sorting.specs.FinestSorts.{kind_of};
ghost use Rattle.chr_sorting.specs.working.Notes.{raised};

use chr_base::term::Cmp;

/// How a program compares the values of a sort.
#[derive(Clone, Copy, Debug, PartialEq, Eq)]
pub enum Kind {
    /// By their order.
    Ordered,
    /// By `=\=` and `=:=`.
    Equal,
    /// By `=:=` alone.
    Free,
}

impl Kind {
    /// The least kind that tells the signs that this kind does, and this sign.
    pub(crate) fn raised(self, cmp: Cmp) -> Kind
        ensures { kind_of result ≡ raised (kind_of self) cmp }
    {
        match (self, cmp) {
            (Kind::Ordered, _) => Kind::Ordered,
            (kind, Cmp::Equal) => kind,
            (_, Cmp::NotEqual) => Kind::Equal,
            _ => Kind::Ordered,
        }
    }
}
