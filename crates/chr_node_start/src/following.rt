//! The other files of a folder, from where they were left.
ghost use Rattle.std.specs.Prelude.{◌≡◌};
ghost use Rattle.chr_node_start.specs.working.Hearing.{Hears};

use chr_node::{Holder, Node, NodeFault, Refusal, TakenIn};
use chr_node_files::{is_feed, is_feed_of, names_in, path_in, records_behind};
use chr_node_lines::{FileSize, LeftFile};
use chr_node_talk::Folder;
use sqlite_disk::{Disk, Memory};
use std::alloc::{AllocError, Global};
use std::fs::{File, Files};
use std::io;

/// A file of a folder, and what became of it.
#[derive(Drop)]
struct Followed {
    name: String,
    /// The bytes of the records that were taken in.
    size: u64,
    /// Why it is left alone, if it is.
    left: Option<String>,
}

/// The files of a folder but the one that the node writes, in the order in which they were found.
#[derive(Drop)]
pub(crate) struct Others<'a, R> {
    rt: &'a R,
    folder: String,
    /// The name of the file that the node writes.
    own: String,
    /// What stands for the program in the names of its feeds.
    digest: u64,
    files: Vec<Followed>,
}

/// What comes of the next records of a file.
enum Step {
    /// There are none.
    Ended,
    /// They were taken in, and have so many bytes.
    Went(u64),
    /// The file is left alone, for this cause.
    Left(&'static str),
}

impl<'a, R: Files<File = File> + AllocGlobal + Clone + Drop> Others<'a, R> {
    pub(crate) fn new(rt: &'a R, folder: String, own: String, digest: u64) -> Others<'a, R> {
        Others {
            rt,
            folder,
            own,
            digest,
            files: Vec::new(rt.alloc()),
        }
    }

    // Adds the files that are new in the folder. While it can't be read there are none.
    fn list(&mut self, alloc: Global) -> Result<(), AllocError> {
        let names = match names_in(self.rt, self.folder.as_str()) {
            Ok(names) => names,
            Err(error) if error.kind() == io::ErrorKind::OutOfMemory => return Err(AllocError),
            Err(_) => return Ok(()),
        };
        for name in names {
            if name.as_str() != self.own.as_str() && !self.has(name.as_str()) {
                let file = found(alloc, self.digest, name)?;
                self.files.push(file)?;
            }
        }
        Ok(())
    }

    fn has(&self, name: &str) -> bool {
        self.files.iter().any(|file| file.name.as_str() == name)
    }
}

impl<'a, R: Files<File = File> + AllocGlobal + Clone + Drop> Folder for Others<'a, R> {
    ghost is_clean = { λ _. Unit {0} };

    #[tactic(auto, using(crate::proofs::Hearings::kept_none, crate::proofs::Hearings::kept_heard))]
    fn hear<D: Disk, H: Holder>(
        &mut self,
        alloc: Global,
        node: &mut Node<D, H>,
    ) -> Result<(), AllocError> {
        self.list(alloc)?;
        follow_all(self.rt, alloc, self.folder.as_str(), &mut self.files, node)
    }

    fn feeds(&self, alloc: Global) -> Result<Vec<FileSize>, AllocError> {
        let mut feeds = Vec::new(alloc);
        for file in &self.files {
            if file.left.is_none() {
                feeds.push(FileSize {
                    name: String::from_str(alloc, file.name.as_str())?,
                    size: file.size,
                })?;
            }
        }
        Ok(feeds)
    }

    fn left(&self, alloc: Global) -> Result<Vec<LeftFile>, AllocError> {
        let mut left = Vec::new(alloc);
        for file in &self.files {
            if let Some(cause) = &file.left {
                left.push(LeftFile {
                    name: String::from_str(alloc, file.name.as_str())?,
                    cause: String::from_str(alloc, cause.as_str())?,
                })?;
            }
        }
        Ok(left)
    }
}

// A file that was found in the folder.
fn found(alloc: Global, digest: u64, name: String) -> Result<Followed, AllocError> {
    let left = if is_feed_of(alloc, digest, name.as_str())? {
        None
    } else if is_feed(name.as_str()) {
        Some(String::from_str(alloc, "it is a feed of another program")?)
    } else {
        Some(String::from_str(alloc, "it is no feed")?)
    };
    Ok(Followed {
        name,
        size: 0,
        left,
    })
}

// Has a node take in what is new in the files.
#[tactic(auto, using(crate::proofs::Hearings::hears_none))]
fn follow_all<R, D, H>(
    rt: &R,
    alloc: Global,
    folder: &str,
    files: &mut Vec<Followed>,
    node: &mut Node<D, H>,
) -> Result<(), AllocError>
where
    R: Files<File = File> + AllocGlobal,
    D: Disk,
    H: Holder,
    ensures { Hears D.seen H.operations H.program node.old node.new }
{
    for file in files.iter_mut() {
        follow_file(rt, alloc, folder, file, node)?;
    }
    Ok(())
}

// Has a node take in what is new in a file.
#[tactic(auto, using(crate::proofs::Hearings::hears_none))]
fn follow_file<R, D, H>(
    rt: &R,
    alloc: Global,
    folder: &str,
    file: &mut Followed,
    node: &mut Node<D, H>,
) -> Result<(), AllocError>
where
    R: Files<File = File> + AllocGlobal,
    D: Disk,
    H: Holder,
    ensures { Hears D.seen H.operations H.program node.old node.new }
{
    let path = path_in(alloc, folder, file.name.as_str())?;
    for _ in 0..u64::MAX {
        if file.left.is_some() {
            break;
        }
        match take_next(rt, alloc, path.as_str(), file.size, node)? {
            Step::Ended => break,
            Step::Went(size) => file.size = file.size.saturating_add(size),
            Step::Left(cause) => file.left = Some(String::from_str(alloc, cause)?),
        }
    }
    Ok(())
}

// Has a node take in the next records of a file.
#[tactic(auto, using(crate::proofs::Hearings::hears_none))]
fn take_next<R, D, H>(
    rt: &R,
    alloc: Global,
    path: &str,
    size: u64,
    node: &mut Node<D, H>,
) -> Result<Step, AllocError>
where
    R: Files<File = File> + AllocGlobal,
    D: Disk,
    H: Holder,
    ensures { Hears D.seen H.operations H.program node.old node.new }
{
    let bytes = match records_behind(rt, path, size) {
        Ok(bytes) => bytes,
        Err(error) => return unreadable(&error),
    };
    if bytes.is_empty() {
        return Ok(Step::Ended);
    }
    match take_in(alloc, &bytes, node) {
        Ok(taken) => Ok(after(taken, bytes.len() as u64)),
        Err(fault) => left(fault),
    }
}

// What comes of a file that can't be read.
fn unreadable(error: &io::Error) -> Result<Step, AllocError> {
    match error.kind() {
        io::ErrorKind::OutOfMemory => Err(AllocError),
        io::ErrorKind::NotFound => Ok(Step::Left("it is gone")),
        io::ErrorKind::PermissionDenied => Ok(Step::Left("it may not be read")),
        io::ErrorKind::IsADirectory => Ok(Step::Left("it is a folder")),
        _ => Ok(Step::Left("the disk did not give its bytes")),
    }
}

// What comes after records that were taken in.
fn after(taken: TakenIn, size: u64) -> Step {
    if taken.strange > 0 {
        Step::Left("a record has no operation of the program: it is damaged, or another program's")
    } else {
        Step::Went(size)
    }
}

// What comes after records that were refused.
fn left(fault: NodeFault) -> Result<Step, AllocError> {
    match fault {
        NodeFault::Forked => Ok(Step::Left("it has operations of this run's own origin")),
        NodeFault::Feed(_) | NodeFault::Refused(Refusal::Memory) => Err(AllocError),
        NodeFault::Refused(Refusal::Clash(_)) => Ok(Step::Left(
            "an id stands for other facts there than elsewhere",
        )),
        NodeFault::Refused(Refusal::Full) => Ok(Step::Left(
            "with it more than 1000000 facts would be told",
        )),
        NodeFault::Refused(_) => Ok(Step::Left("its operations are refused")),
    }
}

// Has a node take in these records, as a file of their own.
#[tactic(auto, using(crate::proofs::Hearings::hears_none, crate::proofs::Hearings::hears_taken))]
fn take_in<D: Disk, H: Holder>(
    alloc: Global,
    bytes: &[u8],
    node: &mut Node<D, H>,
) -> Result<TakenIn, NodeFault>
    ensures { Hears D.seen H.operations H.program node.old node.new }
{
    let mut file = Memory::new(alloc);
    if file.write_at(0, bytes).is_err() {
        return Err(NodeFault::Refused(Refusal::Memory));
    }
    let taken = node.take_in(alloc, &mut file)?;
    Ok(taken)
}
