//! The setup of `try`.

ghost use Rattle.std.specs.Prelude.{◌≡◌};
ghost use Rattle.facechange_cli.specs.Setups.{setup_for};

use fc_numbers::machine::GKind;
use fc_numbers::name::Name;
use fc_numbers::places::RAM_MOST;
use guest_input::setup::Setup;
use sqlite_items::Items;
use std::alloc::Global;

/// One vCPU of this name with so many steps, the largest RAM, no hook, no events and
/// second-stage tables of three levels.
pub(crate) fn setup_for(alloc: Global, app: Name, steps: u32) -> Setup
    ensures { result ≡ setup_for app steps }
{
    Setup {
        vcpus: 1,
        ram: RAM_MOST,
        steps,
        hook: None,
        name_at: 0,
        start: Some(app),
        events: Items::new(alloc),
        gstage: GKind::Sv39x4,
    }
}
