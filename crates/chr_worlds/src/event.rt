//! What happens in a world.
ghost use Rattle.std.specs.Prelude.{◌↔◌, IsTrue};

use chr_acts::Act;
use chr_base::derivation::Step;

/// An event of a world. Replicas have the numbers 1, 2 and so on.
#[derive(Drop)]
pub enum Event {
    /// A replica is asked to do something.
    At(u64, Act),
    /// What the first replica holds and the second lacks is merged into the second.
    Sync(u64, u64),
    /// Just these steps are taken on the part that a replica has leased out under a number, and what comes of it is put
    /// back.
    Work {
        replica: u64,
        lease: u64,
        steps: Vec<Step>,
    },
}

impl Event {
    ghost use Rattle.chr_worlds.specs.Events.{FitsEvent};

    /// Whether what it asks of a replica, if anything, fits, as [`Act::fits`] says. It takes no memory.
    pub fn fits(&self) -> bool
        ensures { IsTrue result ↔ FitsEvent self.now }
    {
        match self {
            Event::At(_, act) => act.fits(),
            Event::Sync(_, _) | Event::Work { .. } => true,
        }
    }
}
