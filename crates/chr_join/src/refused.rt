//! Why a program is refused.
ghost use Rattle.std.specs.Prelude.{◌≡◌};

use chr_base::bag::Bag;
use chr_base::derivation::Derivation;
use chr_overlaps::Overlap;
use chr_weights::Weighed;
use std::alloc::AllocError;

/// The first case that fails, and its two derivations. Each begins at the case's store with its own rule's step, and
/// goes on with the plain derivation of that side.
#[derive(Drop)]
pub struct Failure {
    /// The overlap of the case.
    pub overlap: Overlap,
    /// The derivation that begins with the first rule's step. It starts at the case's store.
    pub left: Derivation,
    /// The end of the first derivation.
    pub left_end: Bag,
    /// The derivation that begins with the second rule's step. It starts at the case's store.
    pub right: Derivation,
    /// The end of the second derivation, another store.
    pub right_end: Bag,
}

/// An overlap with more than 50,000 order types.
#[derive(Debug, Drop)]
pub struct TooManyTypes {
    pub overlap: Overlap,
    /// The number of its free classes.
    pub classes: usize,
}

/// Why a program that lowers is refused.
#[derive(Drop)]
pub enum Cause {
    /// A case whose sides end in different stores: the program is not confluent.
    Fails(Failure),
    /// An overlap with too many order types.
    TooManyTypes(TooManyTypes),
    /// There is not enough memory.
    Memory,
}

/// A program that was refused, handed back with the cause.
#[derive(Drop)]
pub struct Refused {
    pub weighed: Weighed,
    pub cause: Cause,
}

impl From<AllocError> for Cause {
    ghost use Rattle.chr_join.specs.declared.refused.Cause.TheVariants.{Memory};

    ghost from_gives = { λ _ e. e ≡ Memory };

    fn from(_error: AllocError) -> Cause {
        Cause::Memory
    }
}
