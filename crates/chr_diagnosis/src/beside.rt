//! Which facts of one symbol stay beside each other.
ghost use Rattle.std.specs.Prelude.{◌≡◌, ◌∷◌, ◌++◌, List, [], Bool, IfOk, OnOk, IfSome, IfNone};
ghost use Rattle.std.specs.Bool.{Decides};
ghost use Rattle.std.specs.List.{All};
ghost use Rattle.chr_base.specs.Stores.{store_of};
ghost use Rattle.chr_weights.specs.WeighedPrograms.{rules_in};
ghost use Rattle.chr_diagnosis.specs.Beside.{AreApart, IsPairOf, StaysApart, store_of_pair};

use crate::limits::BESIDE_VALUES;
use crate::small::push_atoms_of;
use crate::staying::stays;
use chr_base::atom::{Atom, SymbolId};
use chr_base::bag::Bag;
use chr_weights::Weighed;
use std::alloc::{AllocError, Global};

/// Two facts of one symbol, which may be equal.
#[derive(Drop)]
pub struct Pair {
    pub first: Atom,
    pub second: Atom,
    /// For each column whether the two differ there.
    pub apart: Vec<bool>,
    /// Whether no rule fires on the store of the two.
    pub stays: bool,
}

/// The store of two facts.
fn two_of(alloc: Global, first: &Atom, second: &Atom) -> Result<Bag, AllocError>
    ensures { IfOk result (λ b. b ≡ store_of (first.now ∷ second.now ∷ [])) }
{
    let mut atoms = Vec::new(alloc);
    atoms.push(first.copy())?;
    atoms.push(second.copy())?;
    Bag::of(atoms)
}

impl Pair {
    /// The store of both.
    pub fn store(&self, alloc: Global) -> Result<Bag, AllocError>
        ensures { IfOk result (λ b. b ≡ store_of_pair self.now) }
    {
        two_of(alloc, &self.first, &self.second)
    }
}

/// Adds for each column of two facts whether they differ there.
fn push_apart(apart: &mut Vec<bool>, left: &[i64], right: &[i64]) -> Result<(), AllocError>
    ensures { OnOk result ((more : List Bool) × (apart.new.items ≡ apart.old.items ++ more)
        × AreApart left.now right.now more) }
{
    let [first, left @ ..] = left else {
        return Ok(());
    };
    let [second, right @ ..] = right else {
        return Ok(());
    };
    let differ = first != second;
    apart.push(differ)?;
    push_apart(apart, left, right)
}

/// The fact with these arguments.
fn fact_of(symbol: SymbolId, atom: &Atom) -> Atom
    ensures { result.symbol ≡ symbol }
{
    let mut fact = atom.copy();
    fact.symbol = symbol;
    fact
}

/// Two facts, and whether they stay.
fn pair_of(
    alloc: Global,
    weighed: &Weighed,
    symbol: SymbolId,
    first: &Atom,
    second: &Atom,
) -> Result<Pair, AllocError>
    ensures { IfOk result (IsPairOf (rules_in weighed.now) symbol) }
{
    let first = fact_of(symbol, first);
    let second = fact_of(symbol, second);
    let mut apart = Vec::new(alloc);
    push_apart(&mut apart, first.args.as_slice(), second.args.as_slice())?;
    let store = two_of(alloc, &first, &second)?;
    let rests = stays(alloc, weighed, &store)?;
    Ok(Pair {
        first,
        second,
        apart,
        stays: rests,
    })
}

/// Adds the pairs of a fact and each of these.
fn push_pairs(
    alloc: Global,
    weighed: &Weighed,
    symbol: SymbolId,
    pairs: &mut Vec<Pair>,
    first: &Atom,
    others: &[Atom],
) -> Result<(), AllocError>
    requires { All (IsPairOf (rules_in weighed.now) symbol) pairs.old.items }
    ensures { OnOk result (All (IsPairOf (rules_in weighed.now) symbol) pairs.new.items) }
{
    for second in others {
        let pair = pair_of(alloc, weighed, symbol, first, second)?;
        pairs.push(pair)?;
    }
    Ok(())
}

/// The pairs of facts of a symbol whose arguments are 0 and 1, those of equal facts too, each with whether it stays.
pub fn pairs_beside(
    alloc: Global,
    weighed: &Weighed,
    symbol: SymbolId,
) -> Result<Vec<Pair>, AllocError>
    ensures { IfOk result (λ v. All (IsPairOf (rules_in weighed.now) symbol) v.items) }
{
    let mut atoms = Vec::new(alloc);
    push_atoms_of(&mut atoms, weighed.program(), symbol, BESIDE_VALUES)?;
    let mut pairs = Vec::new(alloc);
    for (place, first) in atoms.iter().enumerate() {
        let others = atoms.get(place..).unwrap_or(&[]);
        push_pairs(alloc, weighed, symbol, &mut pairs, first, others)?;
    }
    Ok(pairs)
}

/// Whether two facts that differ in the columns of one list differ in just those of the other.
fn are_same(left: &[bool], right: &[bool]) -> bool
    ensures { Decides result (left.now ≡ right.now) }
{
    let [first, left @ ..] = left else {
        return right.is_empty();
    };
    let [second, right @ ..] = right else {
        return false;
    };
    if first != second {
        return false;
    }
    are_same(left, right)
}

/// The first of these pairs that stays and differs in just these columns.
pub fn staying_pair<'a>(pairs: &'a [Pair], apart: &[bool]) -> Option<&'a Pair>
    ensures some { IfSome result (λ p. StaysApart apart.now p.now) }
    ensures none { IfNone result (All (λ p. ¬ StaysApart apart.now p) pairs.now) }
{
    for pair in pairs {
        if pair.stays && are_same(&pair.apart, apart) {
            return Some(pair);
        }
    }
    None
}
