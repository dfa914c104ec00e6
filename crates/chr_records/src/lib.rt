//! A log of records as bytes: texts one behind the other, each behind a gate, of which a crash or a copy may leave a
//! front.
#![tactic(auto)]

mod checksum;
mod damage;
mod laws;
mod messages;
mod reading;
mod writing;

pub use checksum::crc_32;
pub use damage::{Damage, count_lines, find_damage};
pub use laws::{
    changes_are_told, lines_are_records, reading_goes_on, records_are_fronts, records_are_read_back,
};
pub use messages::{message_in, push_message, split_message};
pub use reading::{Records, read_on, read_records, split_record};
pub use writing::{is_text, push_record};
