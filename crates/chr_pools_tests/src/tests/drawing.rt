//! Atoms that are drawn at random.
use arrayvec::ArrayVec;
use chr_base::atom::Atom;
use chr_base::bag::Bag;
use chr_base::rule::Rule;
use chr_base::term::{Pattern, Term};
use chr_testing::random::Random;
use std::alloc::Global;
use std::process::Abort;

/// The values of atoms: those of the programs' constants, and some near them.
const VALUES: [i64; 6] = [0, 1, 3, 4, i64::MAX, i64::MIN];

/// The numbers of arguments of the programs' symbols.
const ARITIES: [usize; 6] = [0, 0, 1, 1, 2, 6];

/// One of the values, mostly one of the first.
fn value(random: &mut Random) -> i64 {
    let few = 2 + random.below(5);
    VALUES[random.below(few)]
}

fn random_atom(random: &mut Random) -> Atom {
    let symbol = random.below(6);
    let mut values = ArrayVec::<i64, 6>::new();
    for _ in 0..ARITIES[symbol] {
        let _ = values.try_push(value(random));
    }
    chr_testing::atoms::atom(symbol as u16, &values)
}

/// Adds up to three atoms.
pub fn add_atoms(rt: &impl Abort, store: &mut Bag, random: &mut Random) {
    for _ in 0..random.below(4) {
        store.add(random_atom(random)).expect(rt, "memory");
    }
}

/// The value of a term where the variables have these values, the first one that of the first.
fn value_of(term: &Term, values: &[i64]) -> i64 {
    match term {
        Term::Constant(value) => *value,
        Term::Variable(variable) => {
            let place = usize::from(*variable).wrapping_sub(1);
            values.get(place).copied().unwrap_or(0)
        }
    }
}

fn add_patterns(rt: &impl Abort, store: &mut Bag, patterns: &[Pattern], values: &[i64]) {
    for pattern in patterns {
        let mut args = ArrayVec::new();
        for term in pattern.args.as_slice() {
            let _ = args.try_push(value_of(term, values));
        }
        let atom = Atom {
            symbol: pattern.symbol,
            args,
        };
        store.add(atom).expect(rt, "memory");
    }
}

/// Adds the heads of a rule by some values, whether or not its guard holds.
pub fn add_heads(rt: &impl Abort, store: &mut Bag, random: &mut Random, rule: &Rule) {
    let mut values = [0i64; 8];
    for place in 0..8 {
        values[place] = value(random);
    }
    add_patterns(rt, store, &rule.kept, &values);
    add_patterns(rt, store, &rule.removed, &values);
}

/// The heads of some of the rules, up to `times` times, and some more atoms.
pub fn store(
    rt: &impl Abort,
    alloc: Global,
    random: &mut Random,
    rules: &[Rule],
    times: usize,
) -> Bag {
    let mut store = Bag::new(alloc);
    for _ in 0..times {
        if let Some(rule) = rules.get(random.below(rules.len().max(1))) {
            add_heads(rt, &mut store, random, rule);
        }
    }
    add_atoms(rt, &mut store, random);
    store
}

/// Up to three atoms of the bag, and seldom one that may not be there.
pub fn some_of(rt: &impl Abort, alloc: Global, random: &mut Random, bag: &Bag) -> Bag {
    let mut some = Bag::new(alloc);
    for _ in 0..random.below(4) {
        if let Some(atom) = bag.atoms().get(random.below(bag.len().max(1))) {
            some.add(atom.copy()).expect(rt, "memory");
        }
    }
    if random.below(4) == 0 {
        add_atoms(rt, &mut some, random);
    }
    some
}
