//! Weights summed over atoms and over the patterns of rules.
ghost use Rattle.std.specs.Prelude.{◌≡◌, ◌^◌, ◌<◌, ◌≤◌, IfSome, IfNone, IsTrue, length};
ghost use Rattle.std.specs.List.{list_all};
ghost use Rattle.chr_base.specs.Rules.{Valuation, atoms_at};
ghost use Rattle.chr_base.specs.ProgramTests.{is_declared};
ghost use Rattle.chr_base.specs.Programs.{declarations, rules_of};
ghost use Rattle.chr_base.specs.Weights.{total_weight};
ghost use Rattle.chr_weights.specs.Weights.{weight_in, ProgramLowers, IsFirstNotLowered};

use crate::NotLowered;
use chr_base::atom::Atom;
use chr_base::limits::MAX_BODY;
use chr_base::program::Program;
use chr_base::term::Pattern;
use chr_base::weight::{NO_WEIGHT, Weight};

/// The weight of the atoms that these patterns become.
fn patterns_weight(program: &Program, patterns: &[Pattern]) -> Weight
    requires declared { IsTrue (list_all (is_declared (declarations program.now)) patterns.now) }
    requires few { length patterns.now ≤ MAX_BODY }
    ensures { (v : Valuation) → result ≡ total_weight (weight_in program.now) (atoms_at v patterns.now) }
{
    let mut sum = NO_WEIGHT;
    for pattern in patterns {
        sum = sum.plus(program.weight_of(pattern.symbol));
    }
    sum
}

/// The first rule that does not lower the weight.
pub(crate) fn first_not_lowered(program: &Program) -> Option<NotLowered>
    ensures none { IfNone result (ProgramLowers program.now) }
    ensures first { IfSome result (λ e.
        IsFirstNotLowered (declarations program.now) (rules_of program.now) e.rule e.before e.after) }
{
    for (i, rule) in program.rules().iter().enumerate() {
        let before = patterns_weight(program, &rule.removed);
        let after = patterns_weight(program, &rule.body);
        if !after.is_lighter(before) {
            return Some(NotLowered {
                rule: i + 1,
                before,
                after,
            });
        }
    }
    None
}

/// The weight of an atom, [`NO_WEIGHT`] where the program does not declare it.
fn atom_weight(program: &Program, atom: &Atom) -> Weight
    ensures { result ≡ weight_in program.now atom.now }
{
    if program.declares(atom) {
        program.weight_of(atom.symbol)
    } else {
        NO_WEIGHT
    }
}

/// The weights of these atoms summed.
pub(crate) fn atoms_weight(program: &Program, atoms: &[Atom]) -> Weight
    requires first { (total_weight (weight_in program.now) atoms.now).first < 2 ^ 64 }
    requires second { (total_weight (weight_in program.now) atoms.now).second < 2 ^ 64 }
    ensures { result ≡ total_weight (weight_in program.now) atoms.now }
{
    let mut sum = NO_WEIGHT;
    for atom in atoms {
        sum = sum.plus(atom_weight(program, atom));
    }
    sum
}
