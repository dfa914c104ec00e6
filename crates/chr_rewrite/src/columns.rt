//! The pool of columns, whose own calls have the contract of a pool.
use crate::pool::Pool;
use arrayvec::ArrayVec;
use chr_base::atom::Atom;
use chr_base::bag::Bag;
use chr_base::limits::MAX_HEADS;
use chr_base::rule::Rule;
use chr_columns::columns::{Columns, Stopped};
use std::alloc::{AllocError, Global};

impl Pool for Columns {
    ghost contents = { λ s. s };

    fn find(&self, rule: &Rule) -> Option<ArrayVec<Atom, MAX_HEADS>> {
        let found = Columns::find(self, rule)?;
        Some(found.heads)
    }

    fn fire(&mut self, rule: &Rule, heads: &[Atom]) -> Result<(), AllocError> {
        Columns::fire(self, rule, heads)
    }

    fn insert(&mut self, atoms: &[Atom]) -> Result<(), AllocError> {
        Columns::insert(self, atoms)
    }

    fn has(&self, atoms: &[Atom]) -> bool {
        Columns::has(self, atoms)
    }

    fn remove(&mut self, atoms: &[Atom]) -> bool {
        Columns::remove(self, atoms)
    }

    fn bag(&self, alloc: Global) -> Result<Bag, AllocError> {
        Columns::bag(self, alloc)
    }

    fn advance(&mut self, rules: &[Rule], most: u64) -> Result<u64, Stopped> {
        Columns::advance(self, rules, most)
    }

    fn step(&mut self, rules: &[Rule]) -> Result<bool, AllocError> {
        Columns::step(self, rules)
    }
}
