//! What a run is asked for beside its verb.
ghost use Rattle.std.specs.Prelude.{◌≡◌};
ghost use Rattle.chr_report.specs.Asked.{wanted_by};

use chr_device::Settings;
use chr_join::Coverage;

/// Which verdict is wanted, and of how many replicas the answers.
#[derive(Clone, Copy, Debug, PartialEq, Eq)]
pub struct Wanted {
    /// Which cases the verdict looks at.
    pub coverage: Coverage,
    /// The number of replicas, 1 to [`MAX_REPLICAS`](chr_base::limits::MAX_REPLICAS).
    pub replicas: u32,
}

impl Wanted {
    /// What the settings ask for of the verdict and of the replicas.
    pub(crate) fn from_settings(settings: Settings) -> Wanted
        ensures { result ≡ wanted_by settings }
    {
        let coverage = if settings.wide {
            Coverage::Sorted
        } else {
            Coverage::Joint
        };
        Wanted {
            coverage,
            replicas: settings.replicas,
        }
    }
}
