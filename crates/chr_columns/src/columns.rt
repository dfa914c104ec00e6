//! The pool.
ghost use Rattle.std.specs.Prelude.{◌≡◌, ◌<◌, ◌≤◌, ◌↔◌, IfOk, IfErr, IfSome, IfNone, IsTrue, OnOk, OnErr, length, drop};
ghost use Rattle.std.specs.Bool.{OnTrue, OnFalse};
ghost use Rattle.chr_base.specs.FinBag as bag;
ghost use Rattle.chr_base.specs.FinBag.{◌⊕◌, ◌⊖◌, IsWithin};
ghost use Rattle.chr_base.specs.Rewriting.{IsAtRest, Runs};
ghost use Rattle.chr_base.specs.Rules.{HasInstance, HasNoStep, Step, StepOn};
ghost use Rattle.chr_base.specs.Stores.{count, store_of};
ghost use Rattle.chr_columns.specs.Rows.{AreApart};
ghost use Rattle.chr_columns.specs.Stepping.{StepsOrStays};
ghost use Rattle.chr_columns.specs.Tables.{stored_in};

use crate::listing::{bag_of, push_stored};
use crate::making::rested_for;
use crate::own::find_in;
use crate::rested::{Found, Rested};
use crate::rows::Rows;
pub use crate::stepping::Stopped;
use crate::stepping::advance_in;
use chr_base::atom::Atom;
use chr_base::bag::Bag;
use chr_base::lists::push_copies;
use chr_base::rule::Rule;
use chr_plans::react::Standing;
pub use chr_tables::hash::FIXED_SEED;
use chr_tables::table::Table;
use std::alloc::{AllocError, Global};
use std::marker::Model;

mod parts;

/// A pool: a store that rests in near linear time. Some atoms are at rest under the pool's rules, and sit in rows; the
/// others are fresh. Contracts see the multiset of both.
///
/// Where a step keeps the newest fresh atom, the next step goes on where the search for its partners stands. So all
/// steps with one atom cost one walk over its partners. Each other change forgets where it stands.
pub struct Columns {
    // The pool's rules, and the atoms at rest under them.
    rested: Rested,
    // The fresh atoms, the newest last.
    fresh: Vec<Atom>,
    // Where the search for partners of the last fresh atom may go on.
    standing: Option<Standing>,
    // Room for what a search finds, kept from one search to the next.
    found: Found,
}

/// What is derived would be proved again in each crate that lets a pool go.
impl Drop for Columns {
    fn drop(self) {
        let Columns {
            rested: _rested,
            fresh: _fresh,
            standing: _standing,
            found: _found,
        } = self;
    }
}

impl Model for Columns {
    ghost use Rattle.chr_base.specs.FinBag.{◌⊕◌};
    ghost use Rattle.chr_base.specs.Stores.{Store, store_of};
    ghost use Rattle.chr_base.specs.working.Codes.{code, coded_atom};
    ghost use Rattle.chr_columns.specs.working.Resting.{stored, IsPool};

    ghost Value = { Store };

    ghost coded = { code coded_atom };

    ghost view = { λ c. stored c.rested ⊕ store_of c.fresh.items };

    ghost invariant = { λ c. IsPool c.rested c.fresh.items c.standing };
}

impl Columns {
    /// The empty pool of these rules, of which it has copies: steps by them are what it is made for. Its keys are
    /// hashed under `FIXED_SEED`.
    pub fn new(alloc: Global, rules: &[Rule]) -> Result<Columns, AllocError>
        ensures { IfOk result (λ c. c ≡ bag.empty) }
    {
        Columns::seeded(alloc, FIXED_SEED, rules)
    }

    /// Like [`Columns::new`], but keys are hashed under this seed, on which no answer depends. Who doesn't know the
    /// seed can't choose atoms whose keys have one hash.
    pub fn seeded(alloc: Global, seed: u64, rules: &[Rule]) -> Result<Columns, AllocError>
        ensures { IfOk result (λ c. c ≡ bag.empty) }
    {
        let rested = rested_for(alloc, seed, rules)?;
        Ok(Columns {
            rested,
            fresh: Vec::new(alloc),
            standing: None,
            found: Found::default(),
        })
    }

    /// The seed under which its keys are hashed.
    pub fn seed(&self) -> u64 {
        self.rested.seed
    }

    /// Puts all of these atoms in. Where memory is refused nothing changes.
    pub fn insert(&mut self, atoms: &[Atom]) -> Result<(), AllocError>
        ensures ok { OnOk result (self.new ≡ self.old ⊕ store_of atoms.now) }
        ensures err { OnErr result (self.new ≡ self.old) }
    {
        self.standing = None;
        push_copies(&mut self.fresh, atoms)
    }

    /// Whether all of these atoms are in the pool, as a multiset. It takes no memory.
    pub fn has(&self, atoms: &[Atom]) -> bool
        ensures { IsTrue result ↔ IsWithin (store_of atoms.now) self.now }
    {
        self.rested.has_all(&self.fresh, atoms)
    }

    /// Whether at least `wanted` such atoms are in the pool. It takes no memory.
    pub fn has_as_often(&self, atom: &Atom, wanted: usize) -> bool
        ensures { IsTrue result ↔ wanted ≤ count self.now atom.now }
    {
        self.rested.has_as_often(&self.fresh, atom, wanted)
    }

    /// Takes all of these atoms out, or none where as a multiset they are not all there. It takes no memory.
    pub fn remove(&mut self, atoms: &[Atom]) -> bool
        ensures there { IsTrue result ↔ IsWithin (store_of atoms.now) self.old }
        ensures taken { OnTrue result (self.new ≡ self.old ⊖ store_of atoms.now) }
        ensures kept { OnFalse result (self.new ≡ self.old) }
    {
        self.standing = None;
        self.rested.remove_all(&mut self.fresh, atoms)
    }

    /// The atoms as a bag.
    pub fn bag(&self, alloc: Global) -> Result<Bag, AllocError>
        ensures { IfOk result (λ b. b ≡ self.now) }
    {
        bag_of(alloc, &self.rested.tables.tables, &self.fresh)
    }

    /// Adds copies of the atoms at the end, in whatever order: all of them, or none where memory is refused.
    pub fn push_atoms(&self, atoms: &mut Vec<Atom>) -> Result<(), AllocError>
        ensures ok { OnOk result (store_of atoms.new.items ≡ store_of atoms.old.items ⊕ self.now) }
        ensures err { OnErr result (atoms.new.items ≡ atoms.old.items) }
    {
        push_stored(atoms, &self.rested.tables.tables, &self.fresh)
    }

    /// The tables in whose rows the atoms sit. None where some atom is fresh, and so in no table.
    pub fn tables(&self) -> Option<&[Table]>
        ensures { IfSome result (λ tables. stored_in tables.now ≡ self.now) }
    {
        if !self.fresh.as_slice().is_empty() {
            return None;
        }
        Some(self.rested.tables.tables.as_slice())
    }

    /// An instance of the rule among the pool's atoms: its heads in place order, and the different rows in which they
    /// sit. None only where there is no instance. It takes no memory.
    pub fn find(&self, rule: &Rule) -> Option<Rows>
        ensures instance { IfSome result (λ found. HasInstance rule.now found.heads.items) }
        ensures there { IfSome result (λ found. IsWithin (store_of found.heads.items) self.now) }
        ensures as_many { IfSome result (λ found. length found.rows.items ≡ length found.heads.items) }
        ensures apart { IfSome result (λ found. AreApart found.rows.items) }
        ensures none { IfNone result (HasNoStep rule.now self.now) }
    {
        find_in(&self.rested, &self.fresh, rule)
    }

    /// One step by the instance with these heads. Where memory is refused nothing changes.
    pub fn fire(&mut self, rule: &Rule, heads: &[Atom]) -> Result<(), AllocError>
        requires instance { HasInstance rule.now heads.now }
        requires there { IsWithin (store_of heads.now) self.old }
        ensures ok { OnOk result (StepOn rule.now heads.now self.old self.new) }
        ensures err { OnErr result (self.new ≡ self.old) }
    {
        self.standing = None;
        push_copies(&mut self.fresh, &rule.body_of(heads))?;
        let (_, removed) = heads.split_at(rule.kept.len());
        self.rested.remove_all(&mut self.fresh, removed);
        Ok(())
    }

    /// Takes out the atoms of the removed heads of an instance that is there, by their rows. These are different rows
    /// under which the rule fires, as `find` gives them. Where a change of the pool has emptied one of them or put
    /// another atom there, the head's atom is looked up. It takes no memory.
    pub fn take_rows(&mut self, rule: &Rule, rows: &Rows)
        requires instance { HasInstance rule.now rows.now.heads.items }
        requires there { IsWithin (store_of rows.now.heads.items) self.old }
        ensures { self.new ≡ self.old ⊖ store_of (drop (length rule.now.kept.items) rows.now.heads.items) }
    {
        self.standing = None;
        let kept = rule.kept.len();
        let (_, removed) = rows.heads.split_at(kept);
        self.rested
            .take_all(&mut self.fresh, removed, &rows.rows, kept);
    }

    /// One step by the instance in these rows, which are as [`Columns::take_rows`] wants them. Where memory is refused
    /// nothing changes.
    pub fn fire_rows(&mut self, rule: &Rule, rows: &Rows) -> Result<(), AllocError>
        requires instance { HasInstance rule.now rows.now.heads.items }
        requires there { IsWithin (store_of rows.now.heads.items) self.old }
        ensures ok { OnOk result (StepOn rule.now rows.now.heads.items self.old self.new) }
        ensures err { OnErr result (self.new ≡ self.old) }
    {
        self.standing = None;
        push_copies(&mut self.fresh, &rule.body_of(&rows.heads))?;
        self.take_rows(rule, rows);
        Ok(())
    }

    /// Takes `most` steps of these rules, or fewer where the store is at rest then, and tells how many. Where memory is
    /// refused the steps taken so far stand. Steps by the pool's own rules take near constant time each. Under other
    /// rules the pool first makes copies of these, and all atoms become fresh. The rules are compared once. Where they
    /// are the pool's own and no atom is fresh, no step is looked for and no memory is asked for.
    pub fn advance(&mut self, rules: &[Rule], most: u64) -> Result<u64, Stopped>
        ensures ok { IfOk result (λ n. Runs (Step rules.now) n self.old self.new) }
        ensures most { IfOk result (λ n. n ≤ most) }
        ensures rests { IfOk result (λ n. n < most → IsAtRest (Step rules.now) self.new) }
        ensures stopped { IfErr result (λ e. Runs (Step rules.now) e.steps self.old self.new) }
        ensures fewer { IfErr result (λ e. 0 < most → e.steps < most) }
    {
        advance_in(
            &mut self.rested,
            &mut self.fresh,
            &mut self.standing,
            &mut self.found,
            rules,
            most,
        )
    }

    /// Takes one step of some rule. False, and nothing changes, where the store is at rest; where memory is refused
    /// nothing changes either. Each call compares all rules; [`Columns::advance`] compares them once for many steps.
    pub fn step(&mut self, rules: &[Rule]) -> Result<bool, AllocError>
        ensures step { IfOk result (StepsOrStays rules.now self.old self.new) }
        ensures err { OnErr result (self.new ≡ self.old) }
    {
        match self.advance(rules, 1) {
            Ok(steps) => Ok(steps == 1),
            Err(_) => Err(AllocError),
        }
    }
}
