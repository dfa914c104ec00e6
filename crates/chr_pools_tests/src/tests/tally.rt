//! How often what is worth a test has come.

/// Questions for atoms that were all there.
pub const THERE: usize = 0;
/// Removals of atoms that were all there.
pub const REMOVED: usize = 1;
/// Instances that were fired.
pub const FIRED: usize = 2;
/// Instances whose removed heads were taken out by their rows.
pub const TAKEN: usize = 3;
/// Removals of other atoms after an instance was found and before it was used, so that atoms moved.
pub const MOVED: usize = 4;
/// Single steps.
pub const STEPS: usize = 5;
/// Calls for a step that found the pool at rest.
pub const RESTS: usize = 6;

#[derive(Clone, Copy)]
pub struct Tally(pub [u32; 7]);

impl Tally {
    pub fn new() -> Tally {
        Tally([0; 7])
    }

    /// Counts what came, where it did.
    pub fn count(&mut self, kind: usize, came: bool) {
        for place in 0..7 {
            if place == kind {
                self.0[place] = self.0[place].wrapping_add(u32::from(came));
            }
        }
    }

    /// Whether each kind came at least `least` times.
    pub fn is_at_least(&self, least: u32) -> bool {
        for count in &self.0 {
            if *count < least {
                return false;
            }
        }
        true
    }
}
