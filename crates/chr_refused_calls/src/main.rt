//! Makes the calls that memory may be refused to, one by one, and prints the state before each, its answer, and the
//! state after it. A line `call` stands before a call and one that begins with `answer` behind it, so that whoever
//! refuses memory can do so to the call alone. A word names a call that is made alone.
//!
//! What is prepared for a call is printed and not checked: if it were wrong, another state would be printed.
#![tactic(auto)]

mod boards;
mod books;
mod parts;
mod pools;
mod printing;
mod seats;
mod sets;
mod texts;
mod workers;

use boards::BoardCall;
use books::BookCall;
use parts::PartCall;
use pools::PoolCall;
use printing::say;
use sets::SetCall;
use std::alloc::Global;
use std::env;
use std::rt::Env;
use std::sync::Wait;
use std::thread::Threads;
use workers::Told;

#[derive(Clone, Copy)]
enum Call {
    Set(SetCall),
    Pool(PoolCall),
    Board(BoardCall),
    Book(BookCall),
    Part(PartCall),
    Workers(Told),
    Seats,
}

/// The calls, in the order in which they are made.
const CALLS: [(&str, Call); 23] = [
    ("add", Call::Set(SetCall::Add)),
    ("join", Call::Set(SetCall::Join)),
    ("insert", Call::Pool(PoolCall::Insert)),
    ("fire", Call::Pool(PoolCall::Fire)),
    ("fire_rows", Call::Pool(PoolCall::FireRows)),
    ("pool_step", Call::Pool(PoolCall::Step)),
    ("tell", Call::Board(BoardCall::Tell)),
    ("merge", Call::Board(BoardCall::Merge)),
    ("step", Call::Board(BoardCall::Step)),
    ("take", Call::Board(BoardCall::Take)),
    ("take_parts", Call::Board(BoardCall::TakeParts)),
    ("recall", Call::Board(BoardCall::Recall)),
    ("put", Call::Board(BoardCall::Put)),
    ("show", Call::Board(BoardCall::Show)),
    ("settle", Call::Board(BoardCall::Settle)),
    ("settle_once_more", Call::Board(BoardCall::SettleOnceMore)),
    ("book_tell", Call::Book(BookCall::Tell)),
    ("book_settle", Call::Book(BookCall::Settle)),
    ("rest_part", Call::Part(PartCall::Rest)),
    ("step_part", Call::Part(PartCall::Step)),
    ("rest_board", Call::Workers(Told::Few)),
    ("rest_board_in_parts", Call::Workers(Told::Many)),
    ("settle_with", Call::Seats),
];

fn make(rt: &(impl Print + Threads + Wait + Sync), alloc: Global, call: Call) -> Option<()> {
    match call {
        Call::Set(call) => sets::make(rt, alloc, call),
        Call::Pool(call) => pools::make(rt, alloc, call),
        Call::Board(call) => boards::make(rt, alloc, call),
        Call::Book(call) => books::make(rt, alloc, call),
        Call::Part(call) => parts::make(rt, alloc, call),
        Call::Workers(told) => workers::make(rt, alloc, told),
        Call::Seats => seats::make(rt, alloc),
    }
}

/// Makes the call that the program's word names, or all where it has none.
fn make_all(rt: &(impl Env + Print + AllocGlobal + Threads + Wait + Sync)) {
    let word = match env::args(rt) {
        Ok(words) => words.skip(1).next(),
        Err(_) => None,
    };
    for (name, call) in CALLS {
        if word.is_none() || word.as_deref() == Some(name) {
            say(rt, name);
            make(rt, rt.alloc(), call);
        }
    }
}

fn main(rt: HostRuntime) {
    make_all(&rt);
}
