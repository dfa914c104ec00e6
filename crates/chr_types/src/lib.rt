//! The order types of 64-bit values among constants.
//!
//! A list of values, one for each class, has an order type: how each value compares with each other value and with each
//! constant. [`types`] lists all order types that some 64-bit values show, each by one list of values; [`visit_types`]
//! visits them one after the other.
#![tactic(auto)]

mod candidates;
mod counting;
mod fault;
mod listing;
mod order_type;
mod search;
mod visiting;
mod visitors;
mod walk;

pub use counting::has_more_types;
pub use fault::TypesFault;
pub use listing::{MAX_CLASSES, types};
pub use order_type::OrderType;
pub use visiting::visit_types;
pub use visitors::{AllLists, LimitedCount};
pub use walk::{Beginnings, Visit};
