//! The profile of a run.

ghost use Rattle.std.specs.Prelude.{◌≡◌, ◌<◌, Err, IfOk, length};
ghost use Rattle.function_table.specs.Groups.{groups_of};
ghost use Rattle.guest_input.specs.Accepted.{IsImage, IsSetupFor};
ghost use Rattle.view_file.specs.Fits.{IsViewsFor};
ghost use Rattle.profiler.specs.Profile.{Profiles};

use crate::run::run;
use crate::seen::views_of;
use fc_numbers::machine::End;
use fc_numbers::memory::NoMemory;
use function_table::table::Table;
use guest_input::image::Image;
use guest_input::setup::Setup;
use std::alloc::{AllocError, AllocFailed, Global};
use view_file::views::Views;

/// The views that a run shows, and how it ended.
#[derive(Drop)]
pub struct Profiled {
    pub views: Views,
    pub end: End,
}

/// Why there is no profile.
#[derive(Debug, Clone, Copy, PartialEq, Eq)]
pub enum ProfileFault {
    /// The run meets more names than views may have apps.
    TooManyApps,
    /// An allocation was refused.
    NoMemory,
}

impl From<NoMemory> for ProfileFault {
    ghost use Rattle.std.specs.Prelude.{◌≡◌};
    ghost use Rattle.profiler.specs.declared.profile.ProfileFault.TheVariants.{NoMemory as memory};

    ghost from_gives = { λ _ fault. fault ≡ memory };

    fn from(_refused: NoMemory) -> ProfileFault {
        ProfileFault::NoMemory
    }
}

impl From<AllocError> for ProfileFault {
    ghost use Rattle.std.specs.Prelude.{◌≡◌};
    ghost use Rattle.profiler.specs.declared.profile.ProfileFault.TheVariants.{NoMemory as memory};

    ghost from_gives = { λ _ fault. fault ≡ memory };

    fn from(_refused: AllocError) -> ProfileFault {
        ProfileFault::NoMemory
    }
}

impl<T: Drop> From<AllocFailed<T>> for ProfileFault {
    ghost use Rattle.std.specs.Prelude.{◌≡◌};
    ghost use Rattle.profiler.specs.declared.profile.ProfileFault.TheVariants.{NoMemory as memory};

    ghost from_gives = { λ _ fault. fault ≡ memory };

    fn from(_refused: AllocFailed<T>) -> ProfileFault {
        ProfileFault::NoMemory
    }
}

/// The profile of the round-robin run of an image by a setup, and how the run ended. It is refused where the run meets a
/// sixteenth name, the setup's first one counted.
pub fn profile(
    alloc: Global,
    image: &Image,
    table: &Table,
    setup: &Setup,
) -> Result<Profiled, ProfileFault>
    requires image { IsImage image.now }
    requires table { table.now ≡ groups_of image.now }
    requires setup { IsSetupFor image.now setup.now }
    ensures profiles { Profiles image.now setup.now result }
    ensures accepted { IfOk result (λ p. IsViewsFor p.views image.now) }
{
    let (tally, end) = run(alloc, image, table, setup)?;
    let views = views_of(alloc, image, &tally)?;
    Ok(Profiled { views, end })
}
