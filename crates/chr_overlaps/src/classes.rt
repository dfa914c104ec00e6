//! The classes into which equations join variables.
ghost use Rattle.std.specs.Prelude.{◌≡◌, if◌then◌else◌, ◌+◌, ◌-◌, ◌^◌, ◌<◌, ◌≤◌, ℕ, Some, None, length, map, true};
ghost use Rattle.std.specs.List.{filter, range_with_len, zip};
ghost use Rattle.chr_base.specs.RuleTests.{is_variable};
ghost use Rattle.chr_confluence.specs.Overlaps.{renamed_apart};
ghost use Rattle.chr_confluence.specs.working.Solving.{identity_substitution, class_of, put_term, put_everywhere};
ghost use Rattle.chr_confluence.specs.working.Solving.{unify_terms, solve};
ghost use Rattle.chr_overlaps.specs.declared.classes.TheConstants.{MAX_JOINT_VARIABLES, TABLE_LEN};
ghost use Rattle.chr_overlaps.specs.working.Tables.{class_in, is_below, are_below, class_pattern, class_comparison};

use arrayvec::ArrayVec;
use chr_base::limits::MAX_VARIABLES;
use chr_base::term::{Comparison, Pattern, Term};

/// The greatest number of variables of two rules.
pub(crate) const MAX_JOINT_VARIABLES: usize = 2 * MAX_VARIABLES;

/// An entry for each joint variable, and one at 0.
const TABLE_LEN: usize = MAX_JOINT_VARIABLES + 1;

/// The class of each variable, by its number: the constant that the class is bound to, or its first variable.
///
/// Variables are numbered from 1, so the entry at 0 stands for nothing.
#[derive(Drop)]
pub struct Classes {
    pub(crate) terms: ArrayVec<Term, TABLE_LEN>,
    ghost few: { length terms.items ≤ TABLE_LEN },
    ghost below: { are_below (length terms.items) terms.items ≡ true },
}

/// The term, or where it is this variable the other term.
fn replaced(term: Term, variable: u8, other: Term) -> Term
    ensures { result ≡ put_term variable other term }
{
    match term {
        Term::Variable(x) if x == variable => other,
        _ => term,
    }
}

/// The term with its variable's number raised.
pub(crate) fn renamed_apart(shift: u8, term: Term) -> Term
    requires { is_below (2 ^ 8) (renamed_apart shift term) ≡ true }
    ensures { result ≡ renamed_apart shift term }
{
    match term {
        Term::Variable(x) => Term::Variable(shift + x),
        Term::Constant(_) => term,
    }
}

impl Classes {
    /// The variables up to the last, each alone.
    pub(crate) fn identity(last: u8) -> Classes
        requires { last ≤ MAX_JOINT_VARIABLES }
        ensures classes { class_in result.terms.items ≡ identity_substitution }
        ensures len { length result.terms.items ≡ last + 1 }
    {
        let mut terms = ArrayVec::new();
        for variable in 0..last + 1 {
            terms.push(Term::Variable(variable));
        }
        Classes { terms }
    }

    /// What stands for the term's class.
    pub(crate) fn class_of(&self, term: Term) -> Term
        requires { is_below (length self.now.terms.items) term ≡ true }
        ensures class { result ≡ class_of (class_in self.now.terms.items) term }
        ensures below { is_below (length self.now.terms.items) result ≡ true }
    {
        match term {
            Term::Variable(x) => self.terms[usize::from(x)],
            Term::Constant(_) => term,
        }
    }

    /// Puts a term in place of a variable.
    fn put(&mut self, variable: u8, term: Term)
        requires variable { variable < length self.old.terms.items }
        requires term { is_below (length self.old.terms.items) term ≡ true }
        ensures classes { class_in self.new.terms.items ≡ put_everywhere variable term (class_in self.old.terms.items) }
        ensures len { length self.new.terms.items ≡ length self.old.terms.items }
    {
        let mut terms = ArrayVec::new();
        for class in self.terms.as_slice() {
            terms.push(replaced(*class, variable, term));
        }
        self.terms = terms;
    }

    /// Makes one class of those of the two terms. False where two constants would be one.
    pub(crate) fn join(&mut self, left: Term, right: Term) -> bool
        requires left { is_below (length self.old.terms.items) left ≡ true }
        requires right { is_below (length self.old.terms.items) right ≡ true }
        ensures classes { (if result then Some (class_in self.new.terms.items) else None) ≡
            unify_terms (class_in self.old.terms.items)
            (class_of (class_in self.old.terms.items) left) (class_of (class_in self.old.terms.items) right) }
        ensures len { length self.new.terms.items ≡ length self.old.terms.items }
    {
        match (self.class_of(left), self.class_of(right)) {
            (Term::Variable(x), Term::Variable(y)) => self.put(x.max(y), Term::Variable(x.min(y))),
            (Term::Variable(x), constant) => self.put(x, constant),
            (constant, Term::Variable(y)) => self.put(y, constant),
            (Term::Constant(one), Term::Constant(other)) => return one == other,
        }
        true
    }

    /// Makes one class of those of the two terms at each place, where the variables of the second list are renamed
    /// apart. False where two constants would be one.
    pub(crate) fn join_terms(&mut self, left: &[Term], shift: u8, right: &[Term]) -> bool
        requires left { are_below (length self.old.terms.items) left.now ≡ true }
        requires right { are_below (length self.old.terms.items) (map (renamed_apart shift) right.now) ≡ true }
        ensures classes { (if result then Some (class_in self.new.terms.items) else None) ≡
            solve (class_in self.old.terms.items) (zip left.now (map (renamed_apart shift) right.now)) }
        ensures len { length self.new.terms.items ≡ length self.old.terms.items }
    {
        let [one, left @ ..] = left else {
            return true;
        };
        let [other, right @ ..] = right else {
            return true;
        };
        self.join(*one, renamed_apart(shift, *other)) && self.join_terms(left, shift, right)
    }

    /// The classes that are bound to no constant, each by its first variable, rising.
    pub(crate) fn free(&self) -> ArrayVec<u8, MAX_JOINT_VARIABLES>
        ensures { result.items ≡
            filter (λ x. is_variable x (class_in self.now.terms.items x))
            (range_with_len 1 (length self.now.terms.items - 1)) }
    {
        let mut free = ArrayVec::new();
        for variable in 1..self.terms.len() as u8 {
            if self.is_own(variable) {
                free.push(variable);
            }
        }
        free
    }

    /// Whether the variable stands for its class.
    fn is_own(&self, variable: u8) -> bool
        requires { variable < length self.now.terms.items }
        ensures { result ≡ is_variable variable (class_in self.now.terms.items variable) }
    {
        match self.terms[usize::from(variable)] {
            Term::Variable(first) => first == variable,
            Term::Constant(_) => false,
        }
    }

    /// The pattern with each term's class, where its variables are renamed apart.
    pub(crate) fn class_pattern(&self, shift: u8, pattern: &Pattern) -> Pattern
        requires { are_below (length self.now.terms.items) (map (renamed_apart shift) pattern.now.args.items) ≡ true }
        ensures { result ≡ class_pattern (class_in self.now.terms.items) shift pattern.now }
    {
        let mut args = ArrayVec::new();
        for term in pattern.args.as_slice() {
            args.push(self.class_of(renamed_apart(shift, *term)));
        }
        Pattern {
            symbol: pattern.symbol,
            args,
        }
    }

    /// The comparison with each term's class, where its variables are renamed apart.
    pub(crate) fn class_comparison(&self, shift: u8, comparison: &Comparison) -> Comparison
        requires left { is_below (length self.now.terms.items) (renamed_apart shift comparison.now.left) ≡ true }
        requires right { is_below (length self.now.terms.items) (renamed_apart shift comparison.now.right) ≡ true }
        ensures { result ≡ class_comparison (class_in self.now.terms.items) shift comparison.now }
    {
        Comparison {
            left: self.class_of(renamed_apart(shift, comparison.left)),
            cmp: comparison.cmp,
            right: self.class_of(renamed_apart(shift, comparison.right)),
        }
    }
}
