// An updater that installs every package, since this device has nothing to install one on.
ghost use Rattle.std.specs.Prelude.{None};

use dm_base::Fault;
use dm_outside::Updater;

/// Answers that each package was installed, and never fails.
#[derive(Drop)]
pub struct ReadyUpdater;

impl Updater for ReadyUpdater {
    ghost told = { λ u. None };

    ghost faults = { λ u. 0 };

    fn update(&mut self, _package: &[u8]) -> Result<bool, Fault> {
        Ok(true)
    }
}
