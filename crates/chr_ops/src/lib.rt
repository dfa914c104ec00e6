//! The facts that replicas exchange: operations with ids, kept once however often they come.
#![tactic(auto)]

mod covered;
mod ends;
mod entries;
mod exchange;
mod fault;
mod fresh;
mod id;
mod joining;
mod lacking;
mod limits;
mod merging;
mod news;
mod op;
mod op_set;
mod outside;
mod range;
mod rising;
mod runs;
mod shared_bag;
mod summary;

pub use chr_base::limits::MAX_OPERATION;
pub use exchange::exchange_laws;
pub use fault::{AddFault, Added};
pub use id::OpId;
pub use limits::MAX_TOLD;
pub use news::News;
pub use op::Op;
pub use op_set::OpSet;
pub use range::IdRange;
pub use summary::{Summary, summaries_are_one};
