//! What journals tell: which operations are held at each place, and that a store that is shown there is the one normal
//! form of them. Hardly anything here computes: the contract of each function is a law of journals, or what such a law
//! says of given books and their receipts.

mod books;
mod laws;
mod receipts;

pub use books::{shown_stores_agree, shown_stores_are_answers};
pub use laws::journals_tell;
pub use receipts::{store_of_receipt, stores_of_receipts};
