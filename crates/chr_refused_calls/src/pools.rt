//! Calls of pools of columns.
use crate::printing::{answer_memory, call, print_bag};
use chr_base::program::Program;
use chr_base::rule::Rule;
use chr_columns::columns::Columns;
use chr_testing::texts::{atoms_of, program_of};
use std::alloc::Global;

#[derive(Clone, Copy)]
pub enum PoolCall {
    Insert,
    Fire,
    FireRows,
    Step,
}

/// A program in which one atom becomes eight.
pub const EIGHT: &str =
    ":- chr_constraint a/0, b/0. :- chr_weight a/0 = 9. a <=> b, b, b, b, b, b, b, b.";

/// Prints what the pool holds.
fn print_pool(rt: &impl Print, alloc: Global, program: &Program, pool: &Columns) {
    if let Ok(bag) = pool.bag(alloc) {
        print_bag(rt, alloc, program, "pool", &bag);
    }
}

fn insert(rt: &impl Print, alloc: Global, pool: &mut Columns) {
    if let Some(atoms) = atoms_of(alloc, EIGHT, "b, a, b, b, b, b, b, b") {
        call(rt);
        answer_memory(rt, pool.insert(&atoms).is_err());
    }
}

fn fire(rt: &impl Print, pool: &mut Columns, rule: &Rule) {
    if let Some(found) = pool.find(rule) {
        call(rt);
        answer_memory(rt, pool.fire(rule, &found.heads).is_err());
    }
}

fn fire_rows(rt: &impl Print, pool: &mut Columns, rule: &Rule) {
    if let Some(found) = pool.find(rule) {
        call(rt);
        answer_memory(rt, pool.fire_rows(rule, &found).is_err());
    }
}

fn step(rt: &impl Print, pool: &mut Columns, rules: &[Rule]) {
    call(rt);
    answer_memory(rt, pool.step(rules).is_err());
}

/// A pool of these rules that holds atoms.
fn opened(alloc: Global, rules: &[Rule]) -> Option<Columns> {
    let told = atoms_of(alloc, EIGHT, "a, b, a")?;
    let mut pool = Columns::new(alloc, rules).ok()?;
    let _ = pool.insert(&told);
    Some(pool)
}

fn ask(rt: &impl Print, alloc: Global, pool: &mut Columns, rules: &[Rule], made: PoolCall) {
    let Some(rule) = rules.last() else {
        return;
    };
    match made {
        PoolCall::Insert => insert(rt, alloc, pool),
        PoolCall::Fire => fire(rt, pool, rule),
        PoolCall::FireRows => fire_rows(rt, pool, rule),
        PoolCall::Step => step(rt, pool, rules),
    }
}

pub fn make(rt: &impl Print, alloc: Global, made: PoolCall) -> Option<()> {
    let program = program_of(alloc, EIGHT)?;
    let mut pool = opened(alloc, program.rules())?;
    print_pool(rt, alloc, &program, &pool);
    ask(rt, alloc, &mut pool, program.rules(), made);
    print_pool(rt, alloc, &program, &pool);
    Some(())
}
