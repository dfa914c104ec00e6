//! Why a node can't begin, or go on.

use std::alloc::{AllocError, AllocFailed, Global};
use std::io;
use std::process::ExitCode;

/// Why a node can't begin, or go on, in a sentence for whoever started it.
#[derive(Drop)]
pub(crate) enum Failure {
    /// The program is refused.
    Refused(String),
    /// The words ask for what can't be had.
    Words(String),
    /// The disk, the input or the output has failed.
    Device(String),
    /// There is not enough memory.
    Memory,
}

impl From<AllocError> for Failure {
    fn from(_error: AllocError) -> Failure {
        Failure::Memory
    }
}

impl<T: Drop> From<AllocFailed<T>> for Failure {
    fn from(_error: AllocFailed<T>) -> Failure {
        Failure::Memory
    }
}

impl Failure {
    /// What the system says of a file.
    pub(crate) fn of_file(alloc: Global, path: &str, error: &io::Error) -> Failure {
        if error.kind() == io::ErrorKind::OutOfMemory {
            return Failure::Memory;
        }
        match format!(in alloc; "{path}: {error}") {
            Ok(sentence) => Failure::Device(sentence),
            Err(_) => Failure::Memory,
        }
    }

    /// The exit status.
    pub(crate) fn exit_code(&self) -> ExitCode {
        match self {
            Failure::Refused(_) => ExitCode::from(1),
            Failure::Words(_) => ExitCode::from(2),
            Failure::Device(_) => ExitCode::from(3),
            Failure::Memory => ExitCode::from(4),
        }
    }

    /// Tells the sentence.
    pub(crate) fn tell(&self, rt: &impl Eprint) {
        let _ = match self {
            Failure::Refused(sentence) | Failure::Words(sentence) | Failure::Device(sentence) =>
                eprintln!(rt; "chrrep node: {sentence}"),
            Failure::Memory => Ok(()),
        };
    }
}
