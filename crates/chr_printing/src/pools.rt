//! The text of a store that is kept in pools.
ghost use Rattle.std.specs.Prelude.{◌≡◌, ◌++◌, IfOk, IfSome, map, string_bytes};
ghost use Rattle.std.specs.Bool.{OnTrue, OnFalse};
ghost use Rattle.chr_base.specs.FinBag.{◌⊕◌};
ghost use Rattle.chr_base.specs.Programs.{declarations};
ghost use Rattle.chr_base.specs.Stores.{stores_sum};
ghost use Rattle.chr_base.specs.Texts.{store_text};
ghost use Rattle.chr_plans.specs.Grids.{contents};
ghost use Rattle.chr_printing.specs.working.Printing.{rows_at};

use crate::turns::{add_all, push_tables};
use chr_base::program::Program;
use chr_columns::columns::Columns;
use chr_tables::table::Table;
use std::alloc::{AllocError, Global};
use std::thread::Threads;

/// Adds the pool's tables to others. False, and nothing is added, where some atom is fresh, and so in no table.
fn add_tables<'a>(tables: &mut Vec<&'a Table>, pool: &'a Columns) -> Result<bool, AllocError>
    ensures { IfOk result (λ added. OnTrue added
        (contents (map rows_at tables.new.items) ≡ contents (map rows_at tables.old.items) ⊕ pool.now)) }
{
    let Some(found) = pool.tables() else {
        return Ok(false);
    };
    add_all(tables, found)?;
    Ok(true)
}

/// The tables of all pools. None where some atom is fresh, and so in no table.
fn tables_of<'a>(alloc: Global, pools: &'a [Columns]) -> Result<Option<Vec<&'a Table>>, AllocError>
    ensures { IfOk result (λ found. IfSome found (λ tables.
        contents (map rows_at tables.items) ≡ stores_sum pools.now)) }
{
    let mut tables = Vec::new(alloc);
    for pool in pools {
        if !add_tables(&mut tables, pool)? {
            return Ok(None);
        }
    }
    Ok(Some(tables))
}

/// Adds the text of the store that is kept in these pools at the end of a text: the text of its bag, but no bag is
/// made. At most `threads` threads put atoms in order and write them, where there are many. False, and nothing is
/// added, where that can't be done: some atoms are fresh; or the rows are in no order, and some atoms have more than
/// three arguments, or aren't declared.
pub fn push_text<R: Threads + Sync>(
    rt: &R,
    alloc: Global,
    threads: usize,
    program: &Program,
    pools: &[Columns],
    out: &mut String,
) -> Result<bool, AllocError>
    ensures text { IfOk result (λ written. OnTrue written (string_bytes out.new
        ≡ string_bytes out.old ++ store_text (declarations program.now) (stores_sum pools.now))) }
    ensures same { IfOk result (λ written. OnFalse written (out.new ≡ out.old)) }
{
    let Some(tables) = tables_of(alloc, pools)? else {
        return Ok(false);
    };
    push_tables(rt, alloc, threads, program, &tables, out)
}
