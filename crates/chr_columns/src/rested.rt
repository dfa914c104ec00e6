//! Atoms at rest, in tables.
ghost use Rattle.std.specs.Prelude.{◌≡◌, ℕ, ◌<◌, ◌≤◌, length, IsTrue, is_some, IfSome, IfNone, OnOk, OnErr};
ghost use Rattle.chr_base.specs.FinBag.{◌⊕◌};
ghost use Rattle.chr_plans.specs.Seats.{seat, atom_in};
ghost use Rattle.chr_tables.specs.Contents.{rows_of, index_columns, ranks_of};
ghost use Rattle.chr_plans.specs.Actives.{one, NoInstanceWith};
ghost use Rattle.chr_plans.specs.Grids.{without_rows};
ghost use Rattle.chr_columns.specs.working.Groups.{table_of_atom};
ghost use Rattle.chr_columns.specs.working.Resting.{grid, stored, IsRested, IsReacting, MayGoOn};

use crate::groups::Directory;
use arrayvec::ArrayVec;
use chr_base::atom::Atom;
use chr_base::limits::MAX_HEADS;
use chr_base::rule::{Rule, Values};
use chr_plans::react::{Standing, react, standing_at};
use chr_plans::rows::Seat;
use chr_tables::tables::Tables;
use std::alloc::AllocError;

/// Rules, and atoms that are at rest under them.
#[derive(Drop)]
pub(crate) struct Rested {
    /// The seed under which the tables hash keys.
    pub(crate) seed: u64,
    /// The rules.
    pub(crate) rules: Vec<Rule>,
    /// The plans of the rules' head places, by groups of atoms.
    pub(crate) directory: Directory,
    /// The atoms at rest: a table for each group, and one for atoms of no group.
    pub(crate) tables: Tables,
}

/// Room for the heads and the rows of the instance that a search finds, as many as the rule has head places, and for
/// the values of the rule's variables. It is kept from one search to the next, since to clear it costs as much as a
/// look-up.
#[derive(Debug, Default, Drop)]
pub(crate) struct Found {
    pub(crate) heads: ArrayVec<Atom, MAX_HEADS>,
    pub(crate) seats: ArrayVec<Seat, MAX_HEADS>,
    pub(crate) values: Values,
}

/// A head place of a rule, both by their numbers from 0, and where the search stands that has found an instance there.
#[derive(Clone, Copy, Debug, PartialEq, Eq)]
pub(crate) struct Occurrence {
    pub(crate) rule: usize,
    pub(crate) place: usize,
    pub(crate) standing: Standing,
}

/// The rows of these seats die.
pub(crate) fn kill_all(tables: &mut Tables, seats: &[Seat])
    requires { (q : ℕ) → q < length seats.now →
        IsTrue (is_some (atom_in (rows_of tables.old.tables.items) (seat seats.now q))) }
    ensures rows { grid tables.new.tables.items ≡ without_rows (grid tables.old.tables.items) seats.now }
    ensures columns { index_columns tables.new.tables.items ≡ index_columns tables.old.tables.items }
    ensures ranks { ranks_of tables.new.tables.items ≡ ranks_of tables.old.tables.items }
{
    for seat in seats {
        tables.tables[seat.table].kill(seat.row);
    }
}

impl Rested {
    /// The first instance of a rule that has the active atom, whose table has the number `table`, among its heads and
    /// the others in the rows. The search goes on at `from`, where it has stood before.
    pub(crate) fn react(
        &mut self,
        table: usize,
        active: &Atom,
        from: Option<Standing>,
        found: &mut Found,
    ) -> Option<Occurrence>
        requires rested { IsRested self.old }
        requires table { table ≡ table_of_atom self.old.directory.groups.items active.now }
        requires standing { IfSome from (MayGoOn self.old active.now) }
        ensures rested { IsRested self.new }
        ensures rules { self.new.rules ≡ self.old.rules }
        ensures directory { self.new.directory ≡ self.old.directory }
        ensures stored { stored self.new ≡ stored self.old }
        ensures found { IfSome result (λ o.
            IsReacting self.new active.now o found.new.heads.items found.new.seats.items found.new.values.items) }
        ensures standing { IfSome result (λ o. MayGoOn self.new active.now o.standing) }
        ensures none { IfNone result (NoInstanceWith self.old.rules.items (stored self.old) active.now) }
    {
        let directory = &self.directory;
        let Some(group) = directory.groups.get(table) else {
            return None;
        };
        let Some(number) = react(
            &mut self.tables,
            &self.rules,
            &group.plans,
            from,
            active,
            &mut found.heads,
            &mut found.seats,
            &mut found.values,
        ) else {
            return None;
        };
        let standing = standing_at(&group.plans, number, found.seats.as_slice());
        let plan = &group.plans[number];
        Some(Occurrence {
            rule: plan.rule,
            place: plan.place,
            standing,
        })
    }

    /// The live rows of a table move together where there is no room for one more and half of the rows are dead.
    fn tidy(&mut self, table: usize)
        requires rested { IsRested self.old }
        requires within { table < length self.old.tables.tables.items }
        ensures rested { IsRested self.new }
        ensures rules { self.new.rules ≡ self.old.rules }
        ensures directory { self.new.directory ≡ self.old.directory }
        ensures stored { stored self.new ≡ stored self.old }
    {
        if self.tables.tables[table].is_half_dead() {
            self.tables.tables[table].compact();
        }
    }

    /// An atom that has no instance with those at rest joins them in its table, which has this number; or nothing
    /// changes, where memory is refused, or the table has `MAX_ROWS` rows.
    pub(crate) fn put(&mut self, table: usize, atom: &Atom) -> Result<(), AllocError>
        requires rested { IsRested self.old }
        requires table { table ≡ table_of_atom self.old.directory.groups.items atom.now }
        requires none { NoInstanceWith self.old.rules.items (stored self.old) atom.now }
        ensures rested { IsRested self.new }
        ensures rules { self.new.rules ≡ self.old.rules }
        ensures ok { OnOk result (stored self.new ≡ stored self.old ⊕ one atom.now) }
        ensures err { OnErr result (stored self.new ≡ stored self.old) }
    {
        self.tidy(table);
        self.tables.tables[table].insert(atom)?;
        Ok(())
    }
}
