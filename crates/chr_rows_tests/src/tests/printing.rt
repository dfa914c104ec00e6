//! When the text of a store is written from the rows of a pool, which no contract says, and the text.
use chr_base::program::Program;
use chr_base::rule::Rule;
use chr_columns::columns::Columns;
use chr_printing::push_text;
use chr_testing::atoms::atoms;
use chr_testing::texts::{program_of, rule_of};
use std::alloc::Global;
use std::process::Abort;
use std::thread::Threads;

/// Symbols are printed in another order than they are declared. Rules have atoms of the first two alone.
const PROGRAM: &str =
    ":- chr_constraint b/2, a/1, a/2, none/0, wide/4. a(X), b(X,X), b(X,0) <=> true.";

/// The symbols and values of atoms, the last of which came first, and what is written of them: where atoms of more than
/// three arguments, or of symbols that are not declared, lie in no order, nothing.
type Row = (&'static [(u16, &'static [i64])], Option<&'static str>);

const WRITTEN: [Row; 8] = [
    (&[], Some("true")),
    (
        &[
            (1, &[-7]),
            (0, &[0, 5]),
            (0, &[0, 5]),
            (1, &[2]),
            (0, &[1, 2]),
        ],
        Some("a(-7), a(2), b(0,5), b(0,5), b(1,2)"),
    ),
    (
        &[
            (1, &[2]),
            (0, &[1, 2]),
            (0, &[0, 5]),
            (1, &[-7]),
            (0, &[0, -3]),
        ],
        Some("a(-7), a(2), b(0,-3), b(0,5), b(1,2)"),
    ),
    (
        &[(3, &[]), (2, &[1, 1]), (3, &[]), (2, &[0, 1])],
        Some("a(0,1), a(1,1), none, none"),
    ),
    (
        &[(4, &[1, 2, 3, 4]), (4, &[1, 2, 3, 5])],
        Some("wide(1,2,3,4), wide(1,2,3,5)"),
    ),
    (&[(0, &[2, 2]), (5, &[1])], Some("(1), b(2,2)")),
    (&[(4, &[1, 2, 3, 5]), (4, &[1, 2, 3, 4])], None),
    (&[(5, &[3]), (6, &[2]), (5, &[1])], None),
];

/// A pool with these atoms, the last of which came first. All are at rest, where that is wanted.
fn pool_with(
    rt: &impl Abort,
    alloc: Global,
    rules: &[Rule],
    rows: &[(u16, &[i64])],
    is_rested: bool,
) -> Columns {
    let mut pool = Columns::new(alloc, rules).expect(rt, "memory");
    for row in rows.iter().rev() {
        let one = atoms(alloc, &[*row]).expect(rt, "memory");
        pool.insert(&one).expect(rt, "memory");
    }
    assert!(rt; !is_rested || pool.step(rules) == Ok(false));
    pool
}

/// What is written of a pool by one thread, if anything.
fn written(
    rt: &(impl Abort + Threads + Sync),
    alloc: Global,
    program: &Program,
    pool: Columns,
) -> Option<String> {
    let mut out = String::new(alloc);
    let written = push_text(rt, alloc, 1, program, &[pool], &mut out).expect(rt, "memory");
    if written { Some(out) } else { None }
}

fn expect_written(
    rt: &(impl Abort + Threads + Sync),
    alloc: Global,
    rows: &[Row],
    is_rested: bool,
) {
    let program = program_of(alloc, PROGRAM).expect(rt, "a program");
    let rules = [rule_of(alloc, PROGRAM).expect(rt, "a rule")];
    for (place, (atoms, text)) in rows.iter().enumerate() {
        let pool = pool_with(rt, alloc, &rules, atoms, is_rested);
        let found = written(rt, alloc, &program, pool);
        assert!(rt; found.as_deref() == *text, "row {place}");
    }
}

/// An atom that is not at rest has no row.
const FRESH: [Row; 1] = [(&[(1, &[3])], None)];

#[test]
fn rows_are_written(rt: HostRuntime) {
    expect_written(&rt, rt.alloc(), &WRITTEN, true);
    expect_written(&rt, rt.alloc(), &FRESH, false);
}
