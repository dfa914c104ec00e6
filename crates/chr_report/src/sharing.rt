//! How a run's resting is shared out.
ghost use Rattle.chr_device.specs.Settings.{IsWithinLimits};

use chr_answers::Sharing;
use chr_device::Settings;

/// How the settings share out the resting of stores.
pub(crate) fn sharing_by(settings: Settings) -> Sharing
    requires { IsWithinLimits settings }
{
    Sharing::among(settings.workers, settings.parts)
}
