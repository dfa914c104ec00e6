//! A run of a node.
ghost use Rattle.std.specs.Prelude.{◌≡◌, IfOk, OnOk};
ghost use Rattle.chr_node_talk.specs.Talks.{IsReady};

use crate::failure::Failure;
use crate::folder::{Opened, open_folder};
use crate::following::Others;
use crate::words::{Words, read_words};
use chr_device::WordsFault;
use chr_feeds::FeedFault;
use chr_join::Accepted;
use chr_json::MAX_LINE;
use chr_node::{Holder, Node, Shower};
use chr_node_boards::NodeBoard;
use chr_node_files::{FeedFile, Run, create_feed_file, feed_name, names_in, path_in};
use chr_node_talk::{Folder, NodeMachine, Talk};
use sqlite_disk::Disk;
use std::alloc::Global;
use std::env;
use std::fs::{self, File, Files};
use std::io::{Read, Write};
use std::process::ExitCode;
use std::random::RandomSource;
use std::rt::Env;
use std::sync::Arc;
use std::thread::Threads;

/// The bytes that are read at a time.
const CHUNK: usize = 1 << 16;

/// Whether the words ask for a node.
pub fn is_asked(rt: &(impl Env + AllocGlobal)) -> bool {
    match env::args(rt) {
        Ok(words) => words
            .skip(1)
            .next()
            .is_some_and(|word| word.as_str() == "node"),
        Err(_) => false,
    }
}

/// Does what the words ask for, and gives the exit status. What goes wrong is told on the standard error.
pub fn start_node<R, I, O>(rt: &R, input: &mut I, output: &mut O) -> ExitCode
where
    R: Env
        + Eprint
        + Files<File = File>
        + AllocGlobal
        + RandomSource
        + Threads
        + Sync
        + Clone
        + Drop,
    I: Read,
    O: Write,
{
    let words = match words(rt) {
        Ok(words) => words,
        Err(code) => return code,
    };
    match run(rt, rt.alloc(), &words, input, output) {
        Ok(()) => ExitCode::from(0),
        Err(failure) => {
            failure.tell(rt);
            failure.exit_code()
        }
    }
}

// What the words ask for, or the exit status of those that are refused.
fn words(rt: &(impl Env + Eprint + AllocGlobal)) -> Result<Words, ExitCode> {
    let alloc = rt.alloc();
    let Ok(args) = env::args(rt) else {
        return Err(ExitCode::from(2));
    };
    let mut words = Vec::new(alloc);
    for word in args {
        if words.push(word).is_err() {
            return Err(ExitCode::from(4));
        }
    }
    match read_words(alloc, &words) {
        Ok(words) => Ok(words),
        Err(WordsFault::Words(error)) => {
            let _ = eprint!(rt; "{error}");
            Err(ExitCode::from(2))
        }
        Err(WordsFault::Memory) => Err(ExitCode::from(4)),
    }
}

// Answers lines over the folder that the words name, until they end.
fn run<R, I, O>(
    rt: &R,
    alloc: Global,
    words: &Words,
    input: &mut I,
    output: &mut O,
) -> Result<(), Failure>
where
    R: Files<File = File> + AllocGlobal + RandomSource + Threads + Sync + Clone + Drop,
    I: Read,
    O: Write,
{
    let Opened { feeds, judged } = open_folder(rt, alloc, words)?;
    unless_taken(rt, alloc, feeds.as_str(), words.origin)?;
    let run = Run::draw(rt, words.origin).map_err(|error| Failure::of_file(
        alloc,
        "random numbers",
        &error,
    ))?;
    let name = feed_name(alloc, judged.digest, run)?;
    let path = path_in(alloc, feeds.as_str(), name.as_str())?;
    let node = begin(
        rt,
        alloc,
        feeds.as_str(),
        path.as_str(),
        run,
        judged.accepted,
    )?;
    let others = Others::new(rt, feeds, name, judged.digest);
    let mut machine = NodeMachine {
        talk: Talk::of(alloc, node, others),
        begun: Vec::new(alloc),
    };
    let ended = answer_all(alloc, path.as_str(), &mut machine, input, output);
    if machine.talk.node.last == machine.talk.before {
        let _ = fs::remove_file(rt, path.as_str());
    }
    ended
}

// A node that was told nothing, over a new feed.
#[tactic(auto, using(crate::proofs::Hearings::begun_ready))]
fn begin<R>(
    rt: &R,
    alloc: Global,
    feeds: &str,
    path: &str,
    run: Run,
    accepted: Accepted,
) -> Result<Node<FeedFile, NodeBoard>, Failure>
where
    R: Files<File = File> + RandomSource,
    ensures { IfOk result (IsReady ⟦<FeedFile as Disk>⟧.seen ⟦<FeedFile as Disk>⟧.may_leave
        ⟦<FeedFile as Disk>⟧.is_usable ⟦<NodeBoard as Holder>⟧.operations ⟦<NodeBoard as Holder>⟧.program) }
{
    let file = match create_feed_file(rt, feeds, path) {
        Ok(file) => file,
        Err(error) => return Err(Failure::of_file(alloc, path, &error)),
    };
    let board = NodeBoard::open(alloc, Arc::new(alloc, accepted)?)?;
    match Node::open(alloc, board, file, run.origin, run.last) {
        Ok(node) => Ok(node),
        Err(_) => Err(Failure::Device(format!(in alloc;
            "{path}: the disk has not kept the feed"
        )?)),
    }
}

// Fails where an origin is named that an earlier run of the folder had: a node would take that one's facts for its own.
fn unless_taken<R>(rt: &R, alloc: Global, feeds: &str, origin: Option<u32>) -> Result<(), Failure>
where
    R: Files<File = File> + AllocGlobal + Clone + Drop,
{
    let Some(origin) = origin else {
        return Ok(());
    };
    let part = format!(in alloc; "-{origin:08x}-")?;
    let names = names_in(rt, feeds).map_err(|error| Failure::of_file(alloc, feeds, &error))?;
    for name in names {
        if name.contains(part.as_str()) {
            return Err(Failure::Words(format!(in alloc;
                "origin {origin} is that of {feeds}/{name}: leave --origin out"
            )?));
        }
    }
    Ok(())
}

// Answers lines as they come. What a batch tells is on the disk before it is answered.
fn answer_all<D, H, F, I, O>(
    alloc: Global,
    path: &str,
    machine: &mut NodeMachine<D, H, F>,
    input: &mut I,
    output: &mut O,
) -> Result<(), Failure>
where
    D: Disk,
    H: Shower,
    F: Folder,
    I: Read,
    O: Write,
    requires { IsReady D.seen D.may_leave D.is_usable H.operations H.program machine.old.talk.node }
{
    let mut chunk = Vec::new(alloc);
    chunk.resize(CHUNK, 0u8)?;
    let mut held = String::new(alloc);
    for _ in 0..u64::MAX {
        let read = input
            .read(&mut chunk)
            .map_err(|error| Failure::of_file(alloc, "standard input", &error))?;
        if read == 0 {
            break;
        }
        answer(alloc, path, machine, &chunk[..read], &mut held)?;
        send(alloc, output, held.as_bytes())?;
        held.clear();
    }
    machine
        .answer_last(alloc, &mut held)
        .map_err(|fault| not_kept(alloc, path, fault))?;
    send(alloc, output, held.as_bytes())
}

// Answers the lines that end in the bytes. Of a line that is longer than any only so much is kept as shows that it is.
fn answer<D, H, F>(
    alloc: Global,
    path: &str,
    machine: &mut NodeMachine<D, H, F>,
    bytes: &[u8],
    held: &mut String,
) -> Result<(), Failure>
where
    D: Disk,
    H: Shower,
    F: Folder,
    requires { IsReady D.seen D.may_leave D.is_usable H.operations H.program machine.old.talk.node }
    ensures { OnOk result
        (IsReady D.seen D.may_leave D.is_usable H.operations H.program machine.new.talk.node) }
{
    machine
        .answer_batch(alloc, bytes, held)
        .map_err(|fault| not_kept(alloc, path, fault))?;
    machine.begun.truncate(MAX_LINE + 1);
    Ok(())
}

fn not_kept(alloc: Global, path: &str, fault: FeedFault) -> Failure {
    if fault == FeedFault::Memory {
        return Failure::Memory;
    }
    match format!(in alloc;
        "{path}: the disk has not kept what was told last, which has no answer"
    ) {
        Ok(sentence) => Failure::Device(sentence),
        Err(_) => Failure::Memory,
    }
}

fn send<O: Write>(alloc: Global, output: &mut O, bytes: &[u8]) -> Result<(), Failure> {
    output
        .write_all(bytes)
        .map_err(|error| Failure::of_file(alloc, "standard output", &error))?;
    output
        .flush()
        .map_err(|error| Failure::of_file(alloc, "standard output", &error))
}
