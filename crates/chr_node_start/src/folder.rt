//! The folder of a node: its program, its owner and its feeds.

use crate::failure::Failure;
use crate::program::{Judged, digest_in, judge};
use crate::words::Words;
use chr_node_files::{make_file, make_folder, path_in};
use chr_report::program_text;
use std::alloc::Global;
use std::fs::{self, File, Files};
use std::io;
use std::random::RandomSource;
use std::thread::Threads;

const PROGRAM: &str = "program.chr";

const OWNER: &str = "owner";

const FEEDS: &str = "feeds";

/// A folder whose program is accepted.
#[derive(Drop)]
pub(crate) struct Opened {
    /// The path of the folder of feeds.
    pub(crate) feeds: String,
    pub(crate) judged: Judged,
}

/// The program text of an input, behind which command lines may stand.
fn program_alone(mut input: Vec<u8>) -> Vec<u8> {
    let length = program_text(&input).len();
    input.truncate(length);
    input
}

/// The program text in a file, or none where there is no such file.
fn read_if_there<R: Files<File = File> + AllocGlobal>(
    rt: &R,
    path: &str,
) -> Result<Option<Vec<u8>>, Failure> {
    match fs::read(rt, path) {
        Ok(input) => Ok(Some(program_alone(input))),
        Err(error) if error.kind() == io::ErrorKind::NotFound => Ok(None),
        Err(error) => Err(Failure::of_file(rt.alloc(), path, &error)),
    }
}

/// The text of the program that is named.
fn read_named<R: Files<File = File> + AllocGlobal>(
    rt: &R,
    words: &Words,
) -> Result<Vec<u8>, Failure> {
    let alloc = rt.alloc();
    let data = words.data.as_str();
    let Some(path) = &words.program else {
        return Err(Failure::Words(format!(in alloc;
            "{data} has no program yet: name one by --program FILE"
        )?));
    };
    match read_if_there(rt, path.as_str())? {
        Some(text) => Ok(text),
        None => Err(Failure::Words(format!(in alloc; "{path}: there is no such file")?)),
    }
}

/// Makes the folder with this program, unless another process does at the same time.
fn make<R: Files<File = File> + AllocGlobal + RandomSource>(
    rt: &R,
    data: &str,
    feeds: &str,
    program: &[u8],
) -> io::Result<()> {
    let alloc = rt.alloc();
    make_folder(rt, data)?;
    make_folder(rt, feeds)?;
    let mut drawn = [0; 16];
    rt.fill_bytes(&mut drawn)?;
    let owner = u128::from_le_bytes(drawn);
    let owner = format!(in alloc; "{owner:032x}\n")?;
    unless_there(make_file(rt, data, OWNER, owner.as_bytes()))?;
    unless_there(make_file(rt, data, PROGRAM, program))
}

fn unless_there(made: io::Result<()>) -> io::Result<()> {
    match made {
        Err(error) if error.kind() == io::ErrorKind::AlreadyExists => Ok(()),
        other => other,
    }
}

/// Fails where a program is named that is not the folder's.
fn unless_other<R: Files<File = File> + AllocGlobal>(
    rt: &R,
    words: &Words,
    path: &str,
    judged: &Judged,
) -> Result<(), Failure> {
    let alloc = rt.alloc();
    let Some(named) = &words.program else {
        return Ok(());
    };
    let text = read_named(rt, words)?;
    if digest_in(alloc, named.as_str(), &text)? == judged.digest {
        return Ok(());
    }
    Err(other_program(alloc, named.as_str(), path))
}

fn other_program(alloc: Global, named: &str, path: &str) -> Failure {
    match format!(in alloc; "{named} is another program than {path}, which stays the folder's") {
        Ok(sentence) => Failure::Words(sentence),
        Err(_) => Failure::Memory,
    }
}

/// Makes the folder with the program that is named, once that is accepted. Where another process has made it meanwhile,
/// it has to have that program.
fn begin_folder<R>(
    rt: &R,
    alloc: Global,
    words: &Words,
    path: &str,
    feeds: &str,
) -> Result<Judged, Failure>
where
    R: Files<File = File> + AllocGlobal + RandomSource + Threads + Sync,
{
    let data = words.data.as_str();
    let text = read_named(rt, words)?;
    let named = words.program.as_ref().map_or(data, |path| path.as_str());
    let judged = judge(rt, alloc, named, &text, words.wide)?;
    make(rt, data, feeds, &text).map_err(|error| Failure::of_file(alloc, data, &error))?;
    let kept = fs::read(rt, path).map_err(|error| Failure::of_file(alloc, path, &error))?;
    if digest_in(alloc, path, &kept)? == judged.digest {
        Ok(judged)
    } else {
        Err(other_program(alloc, named, path))
    }
}

/// The folder that the words name. It is made where it has no program yet and one is named.
pub(crate) fn open_folder<R>(rt: &R, alloc: Global, words: &Words) -> Result<Opened, Failure>
where
    R: Files<File = File> + AllocGlobal + RandomSource + Threads + Sync,
{
    let path = path_in(alloc, words.data.as_str(), PROGRAM)?;
    let feeds = path_in(alloc, words.data.as_str(), FEEDS)?;
    let judged = match read_if_there(rt, path.as_str())? {
        Some(text) => {
            let judged = judge(rt, alloc, path.as_str(), &text, words.wide)?;
            unless_other(rt, words, path.as_str(), &judged)?;
            judged
        }
        None => begin_folder(rt, alloc, words, path.as_str(), feeds.as_str())?,
    };
    Ok(Opened { feeds, judged })
}
