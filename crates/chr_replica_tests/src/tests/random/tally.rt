//! How often each kind of reply has come.
use chr_acts::Reply;
use chr_ops::Added;

/// The kinds of replies.
const KINDS: usize = 19;

/// The kind of a reply that only want of memory gives.
const STOPPED: usize = 18;

/// How often each kind has come.
#[derive(Clone, Copy)]
pub struct Tally([u32; KINDS]);

fn kind_of_refusal(number: u8) -> usize {
    match number {
        33 => 13,
        36 => 14,
        38 => 15,
        39 => 16,
        _ => 17,
    }
}

fn kind_of(reply: &Reply) -> usize {
    match reply {
        Reply::Told(Added::New) => 0,
        Reply::Told(Added::Again) => 1,
        Reply::Merged(_) => 2,
        Reply::Stepped => 3,
        Reply::Leased(_) => 4,
        Reply::LeasedParts(_) => 5,
        Reply::WasPut => 6,
        Reply::Recalled => 7,
        Reply::Settled(_) => 8,
        Reply::Shown(_) => 9,
        Reply::Summed(_) => 10,
        Reply::Lacked(_) => 11,
        Reply::LeastLease(_) => 12,
        Reply::Refused(refusal) => kind_of_refusal(refusal.number()),
        Reply::Stopped(_) => STOPPED,
    }
}

impl Tally {
    pub fn new() -> Tally {
        Tally([0; KINDS])
    }

    /// Counts a reply.
    pub fn add(&mut self, reply: &Reply) {
        let kind = kind_of(reply);
        for place in 0..KINDS {
            if place == kind {
                self.0[place] = self.0[place].wrapping_add(1);
            }
        }
    }

    /// How many kinds have come at least `least` times.
    pub fn kinds(&self, least: u32) -> u32 {
        let mut kinds = 0u32;
        for count in &self.0 {
            kinds = kinds.wrapping_add(u32::from(*count >= least));
        }
        kinds
    }
}
