//! Stores of the program of the least value, as numbers of atoms.
use chr_base::atom::Atom;
use chr_base::bag::Bag;

/// How many values there are: 0, 1 and so on.
pub const VALUES: usize = 12;

/// How many atoms there are of each value.
#[derive(Clone, Copy, PartialEq)]
pub struct Values([u32; VALUES]);

impl Values {
    pub fn none() -> Values {
        Values([0; VALUES])
    }

    /// The values of atoms.
    pub fn of_atoms(atoms: &[Atom]) -> Values {
        let mut values = Values::none();
        for atom in atoms {
            if let [value] = atom.args.as_slice() {
                values.add_value(*value);
            }
        }
        values
    }

    /// The values of the atoms of a store.
    pub fn of(store: &Bag) -> Values {
        Values::of_atoms(store.atoms())
    }

    fn add_value(&mut self, value: i64) {
        for place in 0..VALUES {
            if place as i64 == value {
                self.0[place] = self.0[place].wrapping_add(1);
            }
        }
    }

    pub fn len(&self) -> u32 {
        let mut len = 0u32;
        for count in &self.0 {
            len = len.wrapping_add(*count);
        }
        len
    }

    pub fn has(&self, part: &Values) -> bool {
        for value in 0..VALUES {
            if self.0[value] < part.0[value] {
                return false;
            }
        }
        true
    }

    pub fn add(&mut self, part: &Values) {
        for value in 0..VALUES {
            self.0[value] = self.0[value].wrapping_add(part.0[value]);
        }
    }

    pub fn take(&mut self, part: &Values) {
        for value in 0..VALUES {
            self.0[value] = self.0[value].wrapping_sub(part.0[value]);
        }
    }

    /// What is left at rest: one atom of the least value, where there is any.
    pub fn rested(&self) -> Values {
        let mut rested = Values::none();
        for value in 0..VALUES {
            if self.0[value] > 0 {
                rested.0[value] = 1;
                return rested;
            }
        }
        rested
    }
}
