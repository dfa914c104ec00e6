//! The index beside the list.
ghost use Rattle.std.specs.Prelude.{◌<◌};

use crate::tests::list::{Query, Random, Row, count_wanted};
use chr_portions::Index;
use std::alloc::{AllocError, Global};

/// Whether the index finds as many rows as the list has, each of them looked for, and no more.
fn finds_all(index: &mut Index, rows: &[Row], query: &Query) -> bool {
    let mut found = index.first(query.hash, &query.first, &query.second);
    for _ in 0..count_wanted(rows, query) {
        let Some(row) = found else {
            return false;
        };
        if !is_wanted_at(rows, row, query)
            || index.at_or_below(query.hash, &query.first, &query.second, row) != Some(row)
        {
            return false;
        }
        found = index.next(query.hash, &query.first, &query.second, row);
    }
    found.is_none()
}

/// Whether there is a row of this number, and it is looked for.
fn is_wanted_at(rows: &[Row], row: u32, query: &Query) -> bool {
    match rows.get(row as usize) {
        Some(row) => row.is_wanted(query),
        None => false,
    }
}

/// Adds the row to the index.
fn put(index: &mut Index, row: &Row) -> Result<(), AllocError> {
    if index.len() < 1_000_000 {
        index.reserve(1)?;
        index.push(row.hash, row.first, row.second);
    }
    Ok(())
}

/// Has a row die in the index and in the list.
fn kill(index: &mut Index, rows: &mut [Row], row: usize) {
    if row < rows.len() && row < index.len() && row < 1_000_000 {
        rows[row].is_alive = false;
        index.kill(row as u32);
    }
}

/// Adds a row, has one die, or looks rows up. Tells whether these are found.
fn step(
    index: &mut Index,
    rows: &mut Vec<Row>,
    random: &mut Random,
    most: u32,
) -> Result<bool, AllocError>
    requires { 0 < most }
{
    match random.below(8) {
        0 => {
            let row = random.below(rows.len() + 1);
            kill(index, rows, row);
        }
        1..=4 => {
            let row = Row::any(random, most);
            put(index, &row)?;
            rows.push(row)?;
        }
        _ => return Ok(finds_all(index, rows, &Query::any(random, most))),
    }
    Ok(true)
}

/// Whether index and list agree after each of this number of steps.
fn agree(alloc: Global, seed: u64, steps: usize, most: u32) -> Result<bool, AllocError>
    requires { 0 < most }
{
    let mut index = Index::new(alloc)?;
    let mut rows = Vec::new(alloc);
    let mut random = Random(seed);
    for _ in 0..steps {
        if !step(&mut index, &mut rows, &mut random, most)? {
            return Ok(false);
        }
    }
    Ok(true)
}

/// Few values, so that many rows are equal, and chains alone serve.
#[test]
fn few_rows_are_found(rt: HostRuntime) {
    for seed in 1..40 {
        assert!(rt; agree(rt.alloc(), seed, 300, 6).expect(&rt, "memory"));
    }
}

/// So many rows that portions are put in order again and again.
#[test]
fn rows_are_found_in_portions(rt: HostRuntime) {
    for seed in 1..4 {
        assert!(rt; agree(rt.alloc(), seed, 8_000, 1_000_000).expect(&rt, "memory"));
    }
}
