//! Atoms are put in the order in which partners are found best.
ghost use Rattle.std.specs.Prelude.{◌≡◌, IfOk};
ghost use Rattle.chr_base.specs.FinBag.{◌⊕◌};
ghost use Rattle.chr_base.specs.Stores.{store_of};
ghost use Rattle.chr_columns.specs.working.Listing.{all_of};

use crate::groups::Group;
use crate::joint::{Joint, joint_of};
use crate::listing::push_stored;
use crate::rested::Rested;
use chr_base::atom::Atom;
use chr_plans::key::Order;
use chr_plans::plan::Plan;
use std::alloc::{AllocError, Global};

/// By what atoms are put in order, so that partners are soon found: first by the value by which rules join them, and
/// then by that of a column by which look-ups leave out rows. Where rows come in such an order, a look-up leaves out
/// many at once.
#[derive(Drop)]
struct Arrangement {
    joint: Option<Joint>,
    crossed: Option<usize>,
}

/// The first of the two columns by which a plan leaves out rows, where it does so by two columns.
fn crossed_in(plan: &Plan) -> Option<usize> {
    for lookup in plan.lookups.as_slice() {
        if let Order::ByBoth(first, _) = lookup.partner.order {
            return Some(first);
        }
    }
    None
}

/// The first column, of the first of these plans that has one, by which rows are left out in two columns.
fn crossed_of(plans: &[Plan]) -> Option<usize> {
    plans.iter().find_map(crossed_in)
}

/// The first column by which any plan leaves out rows in two columns.
pub(crate) fn crossed(groups: &[Group]) -> Option<usize> {
    groups.iter().find_map(|group| crossed_of(&group.plans))
}

fn argument(atom: &Atom, column: usize) -> i64 {
    atom.args.get(column).copied().unwrap_or(0)
}

impl Arrangement {
    /// The arrangement for the rules and plans of these rows.
    fn of(rested: &Rested) -> Arrangement {
        Arrangement {
            joint: joint_of(&rested.rules),
            crossed: crossed(&rested.directory.groups),
        }
    }

    /// Whether any order does, since nothing is to be put in order.
    fn is_any(&self) -> bool {
        self.joint.is_none() && self.crossed.is_none()
    }

    /// By what an atom is put in order: the value by which rules join it, and its argument in the column `crossed`. A
    /// value that there isn't counts as 0.
    fn key(&self, atom: &Atom) -> (i64, i64) {
        let joint = match &self.joint {
            Some(joint) => joint.value(atom),
            None => 0,
        };
        let crossed = match self.crossed {
            Some(column) => argument(atom, column),
            None => 0,
        };
        (joint, crossed)
    }

    /// Whether the atoms are in the order of their keys.
    fn is_kept_by(&self, atoms: &[Atom]) -> bool {
        for i in 1..atoms.len() {
            if self.key(&atoms[i - 1]) > self.key(&atoms[i]) {
                return false;
            }
        }
        true
    }
}

/// Puts atoms in the order in which the plans of these rows find partners best. Where any order does nothing changes.
/// It takes no memory.
pub(crate) fn arrange(rested: &Rested, atoms: &mut Vec<Atom>)
    ensures { store_of atoms.new.items ≡ store_of atoms.old.items }
{
    let arrangement = Arrangement::of(rested);
    if arrangement.is_any() || arrangement.is_kept_by(atoms) {
        return;
    }
    let _ = atoms.sort_by_cached_key(|atom| arrangement.key(atom));
}

/// All atoms, at rest and fresh, in the order of [`arrange`]; table by table where any order does.
pub(crate) fn arranged(
    alloc: Global,
    rested: &Rested,
    fresh: &[Atom],
) -> Result<Vec<Atom>, AllocError>
    ensures { IfOk result (λ atoms. store_of atoms.items ≡ all_of rested.now.tables.tables.items fresh.now) }
{
    let mut atoms = Vec::with_capacity(alloc, fresh.len())?;
    push_stored(&mut atoms, &rested.tables.tables, fresh)?;
    arrange(rested, &mut atoms);
    Ok(atoms)
}
