//! Why a file is no setup, and its events.

ghost use Rattle.std.specs.Prelude.{◌≡◌, ◌≤◌, IfOk};
ghost use Rattle.guest_input.specs.declared.limits.TheConstants.{VCPUS_MOST};
ghost use Rattle.guest_image.specs.Limits.{what_for, events_for};

use crate::image::Field;
use crate::setup_file::{AskedEvent, AskedWhat};
use fc_numbers::memory::NoMemory;
use fc_numbers::places::VcpuNo;
use guest_input::limits::EVENTS_MOST;
use guest_input::setup::{Event, What};
use sqlite_items::Items;
use std::alloc::Global;

/// Why a file is no setup for an image. The names are printed, and their numbers are 1 to 7 in this order.
#[derive(Debug, Clone, Copy, PartialEq, Eq)]
pub enum SetupFault {
    /// The file is not one JSON value.
    NotJson,
    /// The first key that is missing, too much or of another form.
    Shape(Field),
    /// The first value beyond what a machine may have.
    Limit(Field),
    /// The hook is not the name of exactly one function.
    NoHook,
    /// The first event, counted from 0, that is due before the one before it.
    EventOrder(u32),
    /// Text or a data part goes past the end of RAM.
    ImageOutsideRam,
    /// An allocation was refused.
    NoMemory,
}

impl From<NoMemory> for SetupFault {
    ghost use Rattle.std.specs.Prelude.{◌≡◌};
    ghost use Rattle.guest_image.specs.declared.setup.SetupFault.TheVariants as setup;

    ghost from_gives = { λ _ fault. fault ≡ setup.NoMemory };

    fn from(_refused: NoMemory) -> SetupFault {
        SetupFault::NoMemory
    }
}

/// What the event does, where its vCPU is there.
fn what_for(vcpus: u64, what: AskedWhat) -> Option<What>
    requires { vcpus ≤ VCPUS_MOST }
    ensures { result ≡ what_for vcpus what }
{
    match what {
        AskedWhat::Key(byte) => Some(What::Key(byte)),
        AskedWhat::Raise(vcpu) if vcpu < vcpus => Some(What::Raise(VcpuNo(vcpu as u8))),
        AskedWhat::Drop(vcpu) if vcpu < vcpus => Some(What::Drop(VcpuNo(vcpu as u8))),
        _ => None,
    }
}

/// The events, where there are not too many and all their vCPUs are there.
#[tactic(auto, unfolding(crate::specs::Limits::events_for))]
pub(crate) fn events_for(
    alloc: Global,
    vcpus: u64,
    asked: &[AskedEvent],
) -> Result<Option<Items<Event>>, NoMemory>
    requires { vcpus ≤ VCPUS_MOST }
    ensures { IfOk result (λ events. events ≡ events_for vcpus asked.now) }
{
    if asked.len() > EVENTS_MOST {
        return Ok(None);
    }
    let mut events = Items::new(alloc);
    for event in asked {
        let Some(what) = what_for(vcpus, event.what) else {
            return Ok(None);
        };
        events.push(Event { at: event.at, what })?;
    }
    Ok(Some(events))
}
