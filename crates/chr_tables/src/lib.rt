//! Tables of atoms whose rows are found by keys, as the search for partners asks for them.
//!
//! A table has one row for each atom that was ever inserted, alive or dead, and any number of indexes. An index is by
//! some columns, and may also be by the order of the values in one or two columns. Contracts see the atoms of the live
//! rows and the columns of the indexes: how rows are chained is private.
#![tactic(auto)]

mod cells;
mod finder;
pub mod hash;
mod indexes;
pub mod lanes;
mod shape;
pub mod table;
pub mod tables;
