//! `chrrep check` reads a program of Constraint Handling Rules from standard input, and writes a verdict. `chrrep run`
//! reads command lines as well, and writes one answer line a command after it, where the program is accepted.
//! `chrrep node` keeps facts in a folder, and answers lines about them.
#![tactic(auto)]

use chr_node_start::{is_asked, start_node};
use chr_start::{Streams, Watched, start};
use std::process::ExitCode;

fn main(rt: HostRuntime) -> ExitCode {
    if is_asked(&rt) {
        return start_node(&rt, &mut rt.stdin(), &mut rt.stdout());
    }
    let mut streams = Streams {
        reader: Watched::of(rt.stdin()),
        writer: Watched::of(rt.stdout()),
    };
    start(&rt, &mut streams)
}
