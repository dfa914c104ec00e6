//! Rows in a plain list, and what is looked for in it.
ghost use Rattle.std.specs.Prelude.{◌<◌};

use chr_indexes::ranges::Range;

/// Numbers that look random and are the same in each run.
#[derive(Drop)]
pub(crate) struct Random(pub(crate) u64);

impl Random {
    /// A number from 0 up to the bound, which is not among them.
    pub(crate) fn below(&mut self, bound: usize) -> usize
        requires { 0 < bound }
        ensures { result < bound }
    {
        self.0 ^= self.0 << 13;
        self.0 ^= self.0 >> 7;
        self.0 ^= self.0 << 17;
        (self.0 >> 11) as usize % bound
    }
}

/// What a row is found by, and whether it lives.
#[derive(Clone, Copy)]
pub(crate) struct Row {
    pub(crate) hash: u32,
    pub(crate) first: i64,
    pub(crate) second: i64,
    pub(crate) is_alive: bool,
}

/// A hash, and ranges of both values.
#[derive(Drop)]
pub(crate) struct Query {
    pub(crate) hash: u32,
    pub(crate) first: Range,
    pub(crate) second: Range,
}

/// A value, at times one of the greatest or least.
fn value(random: &mut Random, most: u32) -> i64
    requires { 0 < most }
{
    match random.below(40) {
        0 => i64::MIN,
        1 => i64::MAX,
        _ => random.below(most as usize) as i64,
    }
}

/// A range of one of eight kinds: with a least value or not, a most or not, and an exception or not.
fn range(random: &mut Random, most: u32) -> Range
    requires { 0 < most }
{
    let kind = random.below(8);
    Range {
        least: (kind % 2 == 1).then_some(value(random, most)),
        most: (kind / 2 % 2 == 1).then_some(value(random, most)),
        except: (kind / 4 == 1).then_some(value(random, most)),
    }
}

impl Row {
    /// A live row of one of two hashes.
    pub(crate) fn any(random: &mut Random, most: u32) -> Row
        requires { 0 < most }
    {
        Row {
            hash: random.below(2) as u32,
            first: value(random, most),
            second: value(random, most),
            is_alive: true,
        }
    }

    /// Whether the row is looked for.
    pub(crate) fn is_wanted(&self, query: &Query) -> bool {
        self.is_alive
            && self.hash == query.hash
            && query.first.has(self.first)
            && query.second.has(self.second)
    }
}

impl Query {
    /// A hash, and ranges of all kinds.
    pub(crate) fn any(random: &mut Random, most: u32) -> Query
        requires { 0 < most }
    {
        Query {
            hash: random.below(2) as u32,
            first: range(random, most),
            second: range(random, most),
        }
    }
}

/// How many rows of the list are looked for.
pub(crate) fn count_wanted(rows: &[Row], query: &Query) -> usize {
    let mut count = 0_usize;
    for row in rows {
        if row.is_wanted(query) {
            count = count.saturating_add(1);
        }
    }
    count
}
