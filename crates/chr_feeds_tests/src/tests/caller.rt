//! A caller that notes what it is told.
use chr_feeds::{FeedFault, Wire};
use sqlite_disk::Disk;
use std::alloc::Global;

/// The texts that it was told to be kept, the newest first.
#[derive(Drop)]
pub(crate) struct Caller {
    pub(crate) told: Vec<Vec<u8>>,
}

impl Caller {
    pub(crate) fn new(alloc: Global) -> Caller {
        Caller {
            told: Vec::new(alloc),
        }
    }
}

impl Wire for Caller {
    ghost use Rattle.chr_records.specs.Records.{texts_in};

    ghost told = { λ c. texts_in c.told.items };

    fn send_told<D: Disk>(&mut self, _disk: &D, text: &[u8]) -> Result<(), FeedFault> {
        let text = Vec::from_slice(*self.told.allocator(), text)?;
        match self.told.insert(0, text) {
            Ok(()) => Ok(()),
            Err(_) => Err(FeedFault::Memory),
        }
    }
}
