//! Questions about stores: which of their atoms are wanted or have a name, how many these are, and what came and
//! went between two.
#![tactic(auto)]

mod changes;
mod finding;
mod naming;
mod wanted;

pub use changes::{Changes, changes_between, difference};
pub use finding::{count, find};
pub use naming::{name_of, named};
pub use wanted::Wanted;
