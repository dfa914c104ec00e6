//! The files of a node's folder that it doesn't write.
ghost use Rattle.std.specs.Prelude.{◌≡◌};
ghost use Rattle.chr_node.specs.Nodes.{Keeps};

use chr_node::{Holder, Node};
use chr_node_lines::{FileSize, LeftFile};
use sqlite_disk::Disk;
use std::alloc::{AllocError, Global};

/// The files of others in a node's folder, which it follows.
pub trait Folder {
    // No disk that was read has told a lie.
    ghost is_clean: { Self → Type 0 };

    /// Has a node take in what has come in the files. One that can't be taken in is left.
    ///
    /// # Errors
    ///
    /// Where memory is refused. Some files may have been taken in.
    fn hear<D: Disk, H: Holder>(
        &mut self,
        alloc: Global,
        node: &mut Node<D, H>,
    ) -> Result<(), AllocError>
        ensures keeps { Keeps D.seen H.operations H.program (is_clean self.new) node.old node.new }
        ensures feed { node.new.feed ≡ node.old.feed }
        ensures last { node.new.last ≡ node.old.last }
        ensures clean { is_clean self.new → is_clean self.old };

    /// The files that were read.
    ///
    /// # Errors
    ///
    /// Where memory is refused.
    fn feeds(&self, alloc: Global) -> Result<Vec<FileSize>, AllocError>;

    /// The files that were left.
    ///
    /// # Errors
    ///
    /// Where memory is refused.
    fn left(&self, alloc: Global) -> Result<Vec<LeftFile>, AllocError>;
}

/// There are no other files.
#[derive(Clone, Copy, Debug)]
pub struct Alone;

impl Folder for Alone {
    ghost is_clean = { λ _. Unit {0} };

    fn hear<D: Disk, H: Holder>(
        &mut self,
        _alloc: Global,
        _node: &mut Node<D, H>,
    ) -> Result<(), AllocError> {
        Ok(())
    }

    fn feeds(&self, alloc: Global) -> Result<Vec<FileSize>, AllocError> {
        Ok(Vec::new(alloc))
    }

    fn left(&self, alloc: Global) -> Result<Vec<LeftFile>, AllocError> {
        Ok(Vec::new(alloc))
    }
}
