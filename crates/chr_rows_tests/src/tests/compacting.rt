//! Dead rows go.
use arrayvec::ArrayVec;
use chr_plans::key::Order;
use chr_tables::table::Table;
use chr_testing::atoms::atom;
use std::alloc::Global;
use std::process::Abort;

/// An empty table with an index by the first argument, in the order of the second.
fn ordered_table(rt: &impl Abort, alloc: Global) -> Table {
    let mut key = ArrayVec::new();
    key.push(0);
    let mut table = Table::new(alloc);
    table
        .add_index(alloc, u64::MAX, key, Order::By(1))
        .expect(rt, "memory");
    table
}

fn insert(rt: &impl Abort, table: &mut Table, value: i64) {
    table.insert(&atom(0, &[1, value])).expect(rt, "memory");
}

fn kill_last(table: &mut Table) {
    if let Some(row) = table.len().checked_sub(1) {
        table.kill(row);
    }
}

/// Whether the table had to be compacted.
fn compacts(table: &mut Table) -> bool {
    let is_half_dead = table.is_half_dead();
    if is_half_dead {
        table.compact();
    }
    is_half_dead
}

/// How often a table was compacted in which row after row dies as the next comes.
fn compactions(rt: &impl Abort, alloc: Global) -> usize {
    let mut table = ordered_table(rt, alloc);
    let mut times: usize = 0;
    for value in 0..1_000 {
        kill_last(&mut table);
        times = times.saturating_add(usize::from(compacts(&mut table)));
        insert(rt, &mut table, value);
        assert!(rt; table.len() <= 64);
    }
    times
}

/// A table is compacted so often that it never has many rows.
#[test]
fn a_table_stays_small_where_rows_die(rt: HostRuntime) {
    let times = compactions(&rt, rt.alloc());
    assert!(rt; times >= 10, "{times}");
}
