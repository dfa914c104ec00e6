//! Equations of whole numbers.

use std::alloc::Global;

/// What an equation or a column stands for.
#[derive(Clone, Copy, Debug, PartialEq, Eq)]
pub(crate) enum Variable {
    /// By how much the weight of the symbol at this place is greater than 1.
    Symbol(usize),
    /// By how much the rule at this place lowers more than it has to.
    Rule(usize),
}

/// An equation: `times` times the variable is the constant and the multiples of the columns' variables, summed.
#[derive(Debug, Drop)]
pub(crate) struct Row {
    /// The variable for which the equation is solved.
    pub variable: Variable,
    /// How many times the variable is taken, at least once.
    pub times: i128,
    /// What the columns' variables don't change.
    pub constant: i128,
    /// How many times the variable of each column is taken, by the order of the columns.
    pub multiples: Vec<i128>,
}

/// The greatest number that divides both.
pub(crate) fn common_divisor(first: u128, second: u128) -> u128 {
    let mut divisor = first;
    let mut rest = second;
    while rest != 0 {
        let next = divisor % rest;
        divisor = rest;
        rest = next;
    }
    divisor
}

/// Both products summed, where that fits.
fn products(first: i128, of: i128, second: i128, and: i128) -> Option<i128> {
    first.checked_mul(of)?.checked_add(second.checked_mul(and)?)
}

/// The numbers divided by one that divides them.
fn quotients(alloc: Global, numbers: &[i128], divisor: i128) -> Option<Vec<i128>> {
    let mut all = Vec::with_capacity(alloc, numbers.len()).ok()?;
    for number in numbers {
        all.push(number.checked_div(divisor)?).ok()?;
    }
    Some(all)
}

impl Row {
    /// An equal row.
    fn copy(&self, alloc: Global) -> Option<Row> {
        Some(Row {
            variable: self.variable,
            times: self.times,
            constant: self.constant,
            multiples: Vec::from_slice(alloc, &self.multiples).ok()?,
        })
    }

    /// The greatest number that divides all of the row.
    fn divisor(&self) -> u128 {
        let mut divisor = common_divisor(self.times.unsigned_abs(), self.constant.unsigned_abs());
        for number in &self.multiples {
            if divisor == 1 {
                return 1;
            }
            divisor = common_divisor(divisor, number.unsigned_abs());
        }
        divisor
    }

    /// An equal equation in the least numbers.
    fn in_least_numbers(self, alloc: Global) -> Option<Row> {
        let divisor = i128::try_from(self.divisor()).ok()?;
        if divisor <= 1 {
            return Some(self);
        }
        Some(Row {
            variable: self.variable,
            times: self.times.checked_div(divisor)?,
            constant: self.constant.checked_div(divisor)?,
            multiples: quotients(alloc, &self.multiples, divisor)?,
        })
    }

    /// The equation solved for the variable of a column, in which its own then stands.
    pub(crate) fn solved_for(
        &self,
        alloc: Global,
        place: usize,
        variable: Variable,
    ) -> Option<Row> {
        let times = *self.multiples.get(place)?;
        let mut multiples = Vec::with_capacity(alloc, self.multiples.len()).ok()?;
        for (i, number) in self.multiples.iter().enumerate() {
            let other = if i == place {
                self.times
            } else {
                number.checked_neg()?
            };
            multiples.push(other).ok()?;
        }
        let row = Row {
            variable,
            times,
            constant: self.constant.checked_neg()?,
            multiples,
        };
        row.in_least_numbers(alloc)
    }

    /// The equation in which the variable of the column at `place` is put as what its own equation `column` says.
    pub(crate) fn with(&self, alloc: Global, place: usize, column: &Row) -> Option<Row> {
        let factor = *self.multiples.get(place)?;
        if factor == 0 {
            return self.copy(alloc);
        }
        let mut multiples = Vec::with_capacity(alloc, self.multiples.len()).ok()?;
        for (i, (own, other)) in self
            .multiples
            .iter()
            .zip(column.multiples.iter())
            .enumerate()
        {
            let own = if i == place { 0 } else { *own };
            multiples
                .push(products(column.times, own, factor, *other)?)
                .ok()?;
        }
        let row = Row {
            variable: self.variable,
            times: self.times.checked_mul(column.times)?,
            constant: products(column.times, self.constant, factor, column.constant)?,
            multiples,
        };
        row.in_least_numbers(alloc)
    }
}
