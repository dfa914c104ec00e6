//! Lines of commands, and what the replicas of a program answer to them.
#![tactic(auto)]

mod ahead;
mod answering;
mod laws;
mod lines;
mod one_text;
mod reply;
mod request;
mod resting;
mod schedule;
mod service;
mod sharing;
mod shortening;
mod tells;

pub use ahead::{Ahead, Heard, read_one};
pub use answering::{Answering, answer_all, answer_line, answer_lines};
pub use laws::lines_are_the_input;
pub use lines::{ended_line, whole_len, without_return};
pub use one_text::{answers_are_one, answers_exist};
pub use reply::Refusal;
pub use request::Request;
pub use schedule::{MOST_WAITING, Schedule};
pub use service::Service;
pub use sharing::Sharing;
pub use shortening::shorten;
pub use tells::{Carried, Tells};
