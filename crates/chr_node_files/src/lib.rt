//! The files of a node: the feed that it writes, and the folder that it shares with others.
#![tactic(auto)]

mod feed_file;
mod host;
mod making;
mod paths;
mod reading;
mod record;
mod run;

pub use feed_file::{FeedFile, create_feed_file};
pub use host::Host;
pub use making::{make_file, make_folder};
pub use paths::path_in;
pub use reading::{names_in, records_behind};
pub use run::{Run, feed_name, is_feed, is_feed_of};
