//! A pool that is a plain list.
ghost use Rattle.std.specs.Prelude.{◌≡◌};
ghost use Rattle.chr_base.specs.FinBag as bag;

use crate::choose::find_instance;
use crate::edits::{copies_of, take_all};
use crate::pool::Pool;
use arrayvec::ArrayVec;
use chr_base::atom::Atom;
use chr_base::bag::Bag;
use chr_base::limits::MAX_HEADS;
use chr_base::lists::{fits_in, push_all};
use chr_base::rule::Rule;
use chr_columns::columns::Stopped;
use std::alloc::{AllocError, Global};
use std::marker::Model;

/// Atoms in a list, in any order. An insertion costs as much as the atoms inserted; the other calls search the list.
#[derive(Drop)]
pub struct ListPool {
    items: Vec<Atom>,
}

impl Model for ListPool {
    ghost use Rattle.chr_base.specs.FinBag.{of_list};
    ghost use Rattle.chr_base.specs.working.Codes.{code};
    ghost use Rattle.chr_base.specs.Stores.{Store};
    ghost use Rattle.chr_base.specs.working.Codes.{coded_atom};

    ghost Value = { Store };

    ghost coded = { code coded_atom };

    ghost view = { λ p. of_list p.items.items };
}

impl ListPool {
    /// The pool of no atoms.
    pub fn new(alloc: Global) -> Self
        ensures { result ≡ bag.empty }
    {
        ListPool {
            items: Vec::new(alloc),
        }
    }
}

impl Pool for ListPool {
    ghost contents = { λ s. s };

    fn find(&self, rule: &Rule) -> Option<ArrayVec<Atom, MAX_HEADS>> {
        find_instance(rule, &self.items)
    }

    fn fire(&mut self, rule: &Rule, heads: &[Atom]) -> Result<(), AllocError> {
        let body = rule.body_of(heads);
        self.items.reserve(body.len())?;
        let (_, removed) = heads.split_at(rule.kept.len());
        take_all(&mut self.items, removed);
        push_all(&mut self.items, &body);
        Ok(())
    }

    fn insert(&mut self, atoms: &[Atom]) -> Result<(), AllocError> {
        self.items.reserve(atoms.len())?;
        push_all(&mut self.items, atoms);
        Ok(())
    }

    fn has(&self, atoms: &[Atom]) -> bool {
        fits_in(atoms, &self.items)
    }

    fn remove(&mut self, atoms: &[Atom]) -> bool {
        take_all(&mut self.items, atoms)
    }

    fn bag(&self, alloc: Global) -> Result<Bag, AllocError> {
        Bag::of(copies_of(alloc, &self.items)?)
    }

    fn advance(&mut self, rules: &[Rule], most: u64) -> Result<u64, Stopped> {
        for steps in 0..most {
            match self.step(rules) {
                Ok(true) => {}
                Ok(false) => return Ok(steps),
                Err(_) => return Err(Stopped { steps }),
            }
        }
        Ok(most)
    }

    fn step(&mut self, rules: &[Rule]) -> Result<bool, AllocError> {
        for rule in rules {
            if let Some(heads) = self.find(rule) {
                self.fire(rule, &heads)?;
                return Ok(true);
            }
        }
        Ok(false)
    }
}
