//! The equations of a program's rules, solved for some of their variables by the others.

use crate::cycle::count_of;
use crate::row::{Row, Variable, common_divisor};
use chr_base::program::Program;
use chr_base::rule::Rule;
use std::alloc::Global;

/// A fraction that is not below 0.
#[derive(Clone, Copy)]
pub(crate) struct Share {
    pub amount: i128,
    /// At least 1.
    pub of: i128,
}

impl Share {
    /// `times` times the fraction, rounded up.
    pub(crate) fn rounded_up(self, times: i128) -> Option<i128> {
        let up = self.of.checked_sub(1)?;
        self.amount
            .checked_mul(times)?
            .checked_add(up)?
            .checked_div(self.of)
    }
}

/// Equations for the least sum of weights under which each rule lowers (the dual simplex method, Lemke 1954). Where all
/// columns are 0, the sum is least among the solutions of those rows whose constant is not below 0.
#[derive(Drop)]
pub(crate) struct Tableau {
    columns: Vec<Variable>,
    rows: Vec<Row>,
    /// The sum of the weights.
    sum: Row,
}

/// A column in which the number of a row is above 0.
#[derive(Clone, Copy)]
struct Step {
    place: usize,
    multiple: i128,
    /// By how much the sum grows with the column.
    cost: i128,
}

impl Step {
    /// Whether the sum grows less by this step than by the other, where that fits.
    fn is_before(self, other: Option<Step>) -> bool {
        let Some(other) = other else {
            return true;
        };
        let here = self.cost.checked_mul(other.multiple);
        let there = other.cost.checked_mul(self.multiple);
        match (here, there) {
            (Some(here), Some(there)) => here < there,
            _ => false,
        }
    }
}

/// By how much more often the rule removes the symbol than its body has it.
fn loss_of(rule: &Rule, symbol: usize) -> i128 {
    let removed = count_of(&rule.removed, symbol) as i128;
    let back = count_of(&rule.body, symbol) as i128;
    removed - back
}

/// The equation of a rule: what it lowers where each weight is 1, beyond the least that it can lower.
fn row_of(alloc: Global, rule: &Rule, place: usize, symbols: usize) -> Option<Row> {
    let mut multiples = Vec::with_capacity(alloc, symbols).ok()?;
    let mut constant: i128 = 0;
    let mut divisor: u128 = 0;
    for symbol in 0..symbols {
        let loss = loss_of(rule, symbol);
        constant = constant.checked_add(loss)?;
        divisor = common_divisor(divisor, loss.unsigned_abs());
        multiples.push(loss).ok()?;
    }
    Some(Row {
        variable: Variable::Rule(place),
        times: 1,
        constant: constant.checked_sub(i128::try_from(divisor.max(1)).ok()?)?,
        multiples,
    })
}

fn rows_of(alloc: Global, program: &Program) -> Option<Vec<Row>> {
    let mut rows = Vec::with_capacity(alloc, program.rules().len()).ok()?;
    for (place, rule) in program.rules().iter().enumerate() {
        rows.push(row_of(alloc, rule, place, program.symbols())?)
            .ok()?;
    }
    Some(rows)
}

fn columns_of(alloc: Global, symbols: usize) -> Option<Vec<Variable>> {
    let mut columns = Vec::with_capacity(alloc, symbols).ok()?;
    for symbol in 0..symbols {
        columns.push(Variable::Symbol(symbol)).ok()?;
    }
    Some(columns)
}

fn sum_of(alloc: Global, symbols: usize) -> Option<Row> {
    let mut multiples = Vec::with_capacity(alloc, symbols).ok()?;
    for _ in 0..symbols {
        multiples.push(1).ok()?;
    }
    Some(Row {
        variable: Variable::Symbol(symbols),
        times: 1,
        constant: 0,
        multiples,
    })
}

/// The row of this variable, where it has one.
fn row_for(rows: &[Row], variable: Variable) -> Option<&Row> {
    rows.iter().find(|row| row.variable == variable)
}

impl Tableau {
    pub(crate) fn new(alloc: Global, program: &Program) -> Option<Tableau> {
        Some(Tableau {
            columns: columns_of(alloc, program.symbols())?,
            rows: rows_of(alloc, program)?,
            sum: sum_of(alloc, program.symbols())?,
        })
    }

    /// The first row whose constant is below 0.
    pub(crate) fn first_below(&self) -> Option<&Row> {
        self.rows.iter().find(|row| row.constant < 0)
    }

    /// The column by which the sum grows least where this row grows; none where the row grows by no column.
    pub(crate) fn column_for(&self, row: &Row) -> Option<usize> {
        let mut best: Option<Step> = None;
        for (place, (multiple, cost)) in row
            .multiples
            .iter()
            .zip(self.sum.multiples.iter())
            .enumerate()
        {
            let step = Step {
                place,
                multiple: *multiple,
                cost: *cost,
            };
            if step.multiple > 0 && step.is_before(best) {
                best = Some(step);
            }
        }
        Some(best?.place)
    }

    /// The equations with the variable of the row and that of the column in each other's place.
    pub(crate) fn traded(&self, alloc: Global, row: &Row, place: usize) -> Option<Tableau> {
        let solved = row.solved_for(alloc, place, *self.columns.get(place)?)?;
        Some(Tableau {
            columns: self.columns_with(alloc, place, row.variable)?,
            sum: self.sum.with(alloc, place, &solved)?,
            rows: self.rows_with(alloc, place, row.variable, solved)?,
        })
    }

    /// The columns' variables with this one in place of one of them.
    fn columns_with(
        &self,
        alloc: Global,
        place: usize,
        variable: Variable,
    ) -> Option<Vec<Variable>> {
        let mut columns = Vec::with_capacity(alloc, self.columns.len()).ok()?;
        for (i, old) in self.columns.iter().enumerate() {
            columns.push(if i == place { variable } else { *old }).ok()?;
        }
        Some(columns)
    }

    /// The rows with this one for the column in place of that of a variable.
    fn rows_with(
        &self,
        alloc: Global,
        place: usize,
        gone: Variable,
        solved: Row,
    ) -> Option<Vec<Row>> {
        let mut rows = Vec::with_capacity(alloc, self.rows.len()).ok()?;
        for row in &self.rows {
            if row.variable != gone {
                rows.push(row.with(alloc, place, &solved)?).ok()?;
            }
        }
        rows.push(solved).ok()?;
        Some(rows)
    }

    /// By how much the weight of each symbol is greater than 1 where all columns are 0.
    pub(crate) fn shares(&self, alloc: Global, symbols: usize) -> Option<Vec<Share>> {
        let mut shares = Vec::with_capacity(alloc, symbols).ok()?;
        for symbol in 0..symbols {
            let share = match row_for(&self.rows, Variable::Symbol(symbol)) {
                Some(row) => Share {
                    amount: row.constant,
                    of: row.times,
                },
                None => Share { amount: 0, of: 1 },
            };
            shares.push(share).ok()?;
        }
        Some(shares)
    }

    /// The multiple of this variable in a row that grows by no column, or of its own variable, as a number not below 0.
    fn multiple_of(&self, row: &Row, variable: Variable) -> Option<u64> {
        if row.variable == variable {
            return u64::try_from(row.times).ok();
        }
        let place = self.columns.iter().position(|column| *column == variable);
        let multiple = match place {
            Some(place) => *row.multiples.get(place)?,
            None => 0,
        };
        u64::try_from(multiple.checked_neg()?).ok()
    }

    /// How often each of the first `rules` rules has to be applied so that no weights are lowered by all, where this
    /// row grows by no column.
    pub(crate) fn times(&self, alloc: Global, row: &Row, rules: usize) -> Option<Vec<u64>> {
        let mut times = Vec::with_capacity(alloc, rules).ok()?;
        for rule in 0..rules {
            times
                .push(self.multiple_of(row, Variable::Rule(rule))?)
                .ok()?;
        }
        Some(times)
    }
}
