//! Programs: declared symbols with their weights, and rules.
ghost use Rattle.std.specs.Prelude.{◌≡◌, ◌≤◌, ◌++◌, [], ◌∷◌, IsTrue, None, OnOk, OnErr, position, length, map};
ghost use Rattle.std.specs.List.{list_any};
ghost use Rattle.chr_base.specs.Weights.{is_paired};
ghost use Rattle.chr_base.specs.ProgramTests.{declared, declares, is_program, new_declaration, with_weight};

use crate::atom::{Atom, SymbolId};
use crate::limits::{MAX_ARITY, MAX_NAME, MAX_RULES, MAX_SYMBOLS};
use crate::rule::Rule;
use crate::weight::{DEFAULT_WEIGHT, Weight};
use arrayvec::{ArrayString, ArrayVec};
use indexmap::IndexMap;
use std::alloc::{AllocError, AllocFailed, Global};

/// A name with a number of arguments.
#[derive(Clone, Debug, PartialEq, Eq, Hash, Drop)]
struct Symbol {
    name: ArrayString<MAX_NAME>,
    arity: u8,
}

/// A program: its declared symbols in order, each with its weight, and its rules in order.
///
/// It has at most `MAX_SYMBOLS` symbols, no two of one name and arity, each of at most `MAX_ARITY` arguments and with a
/// weight of numbers up to `MAX_WEIGHT`, not both 0. Their names are a lower-case letter, then letters, digits and
/// underscores, and no reserved word. It has at most `MAX_RULES` rules, each atom of which is declared with as many
/// arguments.
pub struct Program {
    symbols: IndexMap<Symbol, Weight>,
    rules: Vec<Rule>,
    ghost well_formed: { IsTrue (is_program (map declared symbols.entries) rules.items) },
}

/// What is derived would be proved again in each crate that lets a program go.
impl Drop for Program {
    fn drop(self) {
        let Program {
            symbols: _symbols,
            rules: _rules,
        } = self;
    }
}

impl Symbol {
    ghost use Rattle.std.specs.Prelude.{◌≡◌, ◌<◌, ◌≤◌, ◌⊎◌, IfSome, IfNone, length};

    /// The symbol of a name and a number of arguments that can be declared.
    fn of(name: &str, arity: usize) -> Symbol
        requires name { length name.now ≤ MAX_NAME }
        requires arity { arity ≤ MAX_ARITY }
        ensures name { result.name.bytes ≡ name.now }
        ensures arity { result.arity ≡ arity }
    {
        let mut bytes = ArrayString::new();
        bytes.push_str(name);
        Symbol {
            name: bytes,
            arity: arity as u8,
        }
    }

    /// The symbol of a name and a number of arguments. None where either is greater than any that can be declared.
    fn new(name: &str, arity: usize) -> Option<Symbol>
        ensures name { IfSome result (λ s. s.name.bytes ≡ name.now) }
        ensures arity { IfSome result (λ s. s.arity ≡ arity) }
        ensures none { IfNone result ((MAX_NAME < length name.now) ⊎ (MAX_ARITY < arity)) }
    {
        let arity = u8::try_from(arity).ok()?;
        let name = ArrayString::from(name).ok()?;
        Some(Symbol { name, arity })
    }
}

/// Puts a new symbol last, with the default weight.
fn add_symbol(symbols: &mut IndexMap<Symbol, Weight>, symbol: Symbol) -> Result<(), AllocError>
    requires new { position (declares symbol.name.bytes symbol.arity) (map declared symbols.old.entries) ≡ None }
    ensures ok { OnOk result (map declared symbols.new.entries
        ≡ map declared symbols.old.entries ++ new_declaration symbol.name.bytes symbol.arity ∷ []) }
    ensures err { OnErr result (map declared symbols.new.entries ≡ map declared symbols.old.entries) }
{
    symbols.insert(symbol, DEFAULT_WEIGHT)?;
    Ok(())
}

/// Changes the weight at a place.
#[tactic(auto, using(crate::proofs::Weighing::weighed, crate::proofs::Weighing::nothing_there))]
fn put_weight(symbols: &mut IndexMap<Symbol, Weight>, place: usize, weight: Weight)
    ensures { map declared symbols.new.entries ≡ with_weight (map declared symbols.old.entries) place weight }
{
    match symbols.get_index_mut(place) {
        Some(value) => *value = weight,
        None => {}
    }
}

/// Whether the second number of some weight is not 0.
fn some_paired(weights: &[Weight]) -> bool
    ensures { result ≡ list_any is_paired weights.now }
{
    weights.iter().any(|weight| weight.is_paired())
}

impl Program {
    ghost use Rattle.std.specs.Prelude.{◌≡◌, ◌<◌, ◌≤◌, ◌++◌, ◌↔◌, [], ◌∷◌, IsTrue, Some, None, OnOk, OnErr, IfOk};
    ghost use Rattle.std.specs.Prelude.{IfSome, option_map, position, length, slice_get};
    ghost use Rattle.std.specs.Bool.{OnTrue, OnFalse};
    ghost use Rattle.chr_base.specs.ProgramTests.{Declaration, declared, declares, fits, new_declaration, some_paired};
    ghost use Rattle.chr_base.specs.ProgramTests.{with_weight};
    ghost use Rattle.chr_base.specs.Programs.{declarations, rules_of, declares_atom, declared_atom};
    ghost use Rattle.chr_base.specs.Names.{is_name};
    ghost use Rattle.chr_base.specs.Sameness.{AreSame};
    ghost use Rattle.chr_base.specs.Texts.{name_of};
    ghost use Rattle.chr_base.specs.Weights.{is_weight};

    /// The program without symbols and rules.
    pub fn empty(alloc: Global) -> Program
        ensures symbols { declarations result ≡ [] }
        ensures rules { rules_of result ≡ [] }
    {
        Program {
            symbols: IndexMap::new(alloc),
            rules: Vec::new(alloc),
        }
    }

    /// The symbol that is declared with this name and number of arguments.
    pub fn symbol(&self, name: &str, arity: usize) -> Option<SymbolId>
        ensures { option_map (λ s. s.0) result ≡ position (declares name.now arity) (declarations self.now) }
    {
        let symbol = Symbol::new(name, arity)?;
        let place = self.symbols.get_index_of(&symbol)?;
        Some(SymbolId(place as u16))
    }

    /// The atom with this name and these arguments, where the program declares it.
    pub fn atom(&self, name: &str, args: &[i64]) -> Option<Atom>
        ensures { result ≡ declared_atom (declarations self.now) name.now args.now }
    {
        let mut atom = Atom::default();
        if self.set_atom(SymbolId(0), name, args, &mut atom) {
            Some(atom)
        } else {
            None
        }
    }

    /// Whether the symbol is declared with this name and number of arguments.
    fn is_declared_as(&self, symbol: SymbolId, name: &str, arity: usize) -> bool
        ensures { OnTrue result
            (position (declares name.now arity) (declarations self.now) ≡ Some symbol.0) }
    {
        match self.find(symbol) {
            Some((known, _)) => usize::from(known.arity) == arity && known.name.as_str() == name,
            None => false,
        }
    }

    /// Like [`Program::symbol`], but no table is asked where the symbol is `near`.
    fn symbol_near(&self, near: SymbolId, name: &str, arity: usize) -> Option<SymbolId>
        ensures { option_map (λ s. s.0) result ≡ position (declares name.now arity) (declarations self.now) }
    {
        if self.is_declared_as(near, name, arity) {
            return Some(near);
        }
        self.symbol(name, arity)
    }

    /// Whether the program declares an atom of this name and these arguments, which `atom` then becomes. No table is
    /// asked where its symbol is `near`.
    pub fn set_atom(&self, near: SymbolId, name: &str, args: &[i64], atom: &mut Atom) -> bool
        ensures found { OnTrue result (declared_atom (declarations self.now) name.now args.now ≡ Some atom.new) }
        ensures none { OnFalse result (declared_atom (declarations self.now) name.now args.now ≡ None) }
    {
        let Some(symbol) = self.symbol_near(near, name, args.len()) else {
            return false;
        };
        atom.set(symbol, args);
        true
    }

    /// Declares a new symbol, of the default weight. Where memory is refused nothing changes.
    pub fn declare(&mut self, name: &str, arity: usize) -> Result<(), AllocError>
        requires room { length (declarations self.old) < MAX_SYMBOLS }
        requires name { length name.now ≤ MAX_NAME }
        requires word { IsTrue (is_name name.now) }
        requires arity { arity ≤ MAX_ARITY }
        requires new { position (declares name.now arity) (declarations self.old) ≡ None }
        ensures ok { OnOk result (declarations self.new
            ≡ declarations self.old ++ new_declaration name.now arity ∷ []) }
        ensures err { OnErr result (declarations self.new ≡ declarations self.old) }
        ensures rules { rules_of self.new ≡ rules_of self.old }
    {
        let symbol = Symbol::of(name, arity);
        add_symbol(&mut self.symbols, symbol)
    }

    /// Gives a symbol another weight: each number is at most `MAX_WEIGHT`, and not both are 0.
    pub fn set_weight(&mut self, symbol: SymbolId, weight: Weight)
        requires symbol { symbol.0 < length (declarations self.old) }
        requires range { IsTrue (is_weight weight) }
        ensures symbols { declarations self.new ≡ with_weight (declarations self.old) symbol.0 weight }
        ensures rules { rules_of self.new ≡ rules_of self.old }
    {
        put_weight(&mut self.symbols, usize::from(symbol.0), weight);
    }

    /// Adds a rule at the end. Where memory is refused nothing changes.
    pub fn push_rule(&mut self, rule: Rule) -> Result<(), AllocError>
        requires room { length (rules_of self.old) < MAX_RULES }
        requires declared { IsTrue (fits (declarations self.old) rule) }
        ensures ok { OnOk result (rules_of self.new ≡ rules_of self.old ++ rule ∷ []) }
        ensures err { OnErr result (rules_of self.new ≡ rules_of self.old) }
        ensures symbols { declarations self.new ≡ declarations self.old }
    {
        self.rules.push(rule)?;
        Ok(())
    }

    /// The rules, in order.
    pub fn rules(&self) -> &[Rule]
        ensures { result.now ≡ rules_of self.now }
    {
        &self.rules
    }

    /// The number of declared symbols. They are `SymbolId(0)`, `SymbolId(1)`, .. in the order of their declaration.
    pub fn symbols(&self) -> usize
        ensures { result ≡ length (declarations self.now) }
    {
        self.symbols.as_slice().len()
    }

    /// The name of a symbol.
    pub fn name_of(&self, symbol: SymbolId) -> &str
        requires { symbol.0 < length (declarations self.now) }
        ensures { Some result.now ≡ option_map (λ d. d.name) (slice_get (declarations self.now) symbol.0) }
    {
        self.entry(symbol).0.name.as_str()
    }

    /// The name of an atom's symbol, or no text where it isn't declared.
    pub(crate) fn name_or_none(&self, atom: &Atom) -> &str
        ensures { result.now ≡ name_of (declarations self.now) atom.now }
    {
        match self.find(atom.symbol) {
            Some((symbol, _)) => symbol.name.as_str(),
            None => "",
        }
    }

    /// The number of arguments of a symbol.
    pub fn arity_of(&self, symbol: SymbolId) -> usize
        requires { symbol.0 < length (declarations self.now) }
        ensures { Some result ≡ option_map (λ d. d.arity) (slice_get (declarations self.now) symbol.0) }
    {
        usize::from(self.entry(symbol).0.arity)
    }

    /// The weight of a symbol.
    pub fn weight_of(&self, symbol: SymbolId) -> Weight
        requires { symbol.0 < length (declarations self.now) }
        ensures { Some result ≡ option_map (λ d. d.weight) (slice_get (declarations self.now) symbol.0) }
    {
        *self.entry(symbol).1
    }

    /// Whether the second number of some symbol's weight is not 0.
    #[tactic(auto, using(crate::proofs::Weighing::paired_values))]
    pub fn has_pairs(&self) -> bool
        ensures { result ≡ some_paired (declarations self.now) }
    {
        some_paired(self.symbols.values().as_slice())
    }

    /// A symbol in the table, with its weight.
    fn find(&self, symbol: SymbolId) -> Option<(&Symbol, &Weight)>
        ensures { option_map (λ p. declared (p.0.now, p.1.now)) result ≡ slice_get (declarations self.now) symbol.0 }
    {
        self.symbols.get_index(usize::from(symbol.0))
    }

    /// The entry of a symbol that is there.
    fn entry(&self, symbol: SymbolId) -> (&Symbol, &Weight)
        requires { symbol.0 < length (declarations self.now) }
        ensures { Some (declared (result.0.now, result.1.now)) ≡ slice_get (declarations self.now) symbol.0 }
    {
        self.find(symbol).unwrap()
    }

    /// Whether the program declares the atom's symbol with as many arguments as the atom has.
    pub fn declares(&self, atom: &Atom) -> bool
        ensures { result ≡ declares_atom (declarations self.now) atom.now }
    {
        match self.find(atom.symbol) {
            Some((symbol, _)) => usize::from(symbol.arity) == atom.args.len(),
            None => false,
        }
    }

    /// An equal program.
    pub fn copy(&self, alloc: Global) -> Result<Program, AllocError>
        ensures symbols { IfOk result (λ p. declarations p ≡ declarations self.now) }
        ensures rules { IfOk result (λ p. rules_of p ≡ rules_of self.now) }
    {
        let symbols = self.symbols.clone()?;
        let mut rules = Vec::with_capacity(alloc, self.rules.len())?;
        for rule in self.rules.as_slice() {
            rules.push(rule.copy())?;
        }
        Ok(Program { symbols, rules })
    }

    /// Whether the two programs have the same symbols with the same weights, and the same rules, each in the same
    /// order.
    pub fn is_same(&self, other: &Program) -> bool
        ensures { IsTrue result ↔ AreSame self.now other.now }
    {
        self.symbols.as_slice() == other.symbols.as_slice()
            && self.rules.as_slice() == other.rules.as_slice()
    }
}
