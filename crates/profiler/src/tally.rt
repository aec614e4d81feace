//! What is kept of a run while it is profiled.

ghost use Rattle.std.specs.Prelude.{◌≡◌, ◌<◌, ◌≤◌, ℕ, Ok, Err, IfOk, IfSome, OnOk, MatchResult, length, option_copied, [], slice_index_or};
ghost use Rattle.guest_input.specs.Starts.{start_cmp};
ghost use Rattle.view_file.specs.declared.views.TheConstants.{APPS_MOST};
ghost use Rattle.profiler.specs.declared.profile.ProfileFault.TheVariants.{TooManyApps, NoMemory as memory};
ghost use Rattle.profiler.specs.Tally.{AddsListed, AddsName, AddsStart, IsTooMuch, IsWithin, has_name, listed_by, no_starts, position_of_name};

use crate::profile::ProfileFault;
use fc_numbers::memory::NoMemory;
use fc_numbers::name::Name;
use guest_input::image::Start;
use std::alloc::Global;
use std::collections::BTreeSet;
use view_file::views::APPS_MOST;

/// What was seen of a run so far.
#[derive(Drop)]
pub(crate) struct Tally {
    /// The names that were met, each once.
    pub names: Vec<Name>,
    /// For each name the starts of the functions that were fetched from under it, outside traps.
    pub used: Vec<BTreeSet<Start>>,
    /// The starts of the functions that were fetched from inside traps.
    pub shared: BTreeSet<Start>,
}

/// Where a function is listed that a vCPU fetches from.
#[derive(Debug, Clone, Copy, PartialEq, Eq)]
pub(crate) enum Listed {
    /// For all apps.
    Shared,
    /// For the name at this place.
    Under(usize),
    /// For none.
    Nowhere,
}

/// The place of a name, if it was met.
fn position_of(names: &[Name], name: &Name) -> Option<usize>
    ensures place { result ≡ position_of_name names.now name.now }
    ensures within { IfSome result (λ at. at < length names.now) }
{
    names.iter().position(|other| other.bytes() == name.bytes())
}

/// Whether a name was met.
fn is_known(names: &[Name], name: &Name) -> bool
    ensures { result ≡ has_name names.now name.now }
{
    names.iter().any(|other| other.bytes() == name.bytes())
}

pub(crate) fn copy_of(name: &Name) -> Name
    ensures { result ≡ name.now }
{
    match Name::of(name.bytes()) {
        Some(copy) => copy,
        None => unreachable!(),
    }
}

/// Adds a start to a set.
fn add_start(set: &mut BTreeSet<Start>, at: Start) -> Result<(), NoMemory>
    ensures { OnOk result (AddsStart set.old at set.new) }
{
    // Whether the start is new says nothing here.
    let _new = set.insert(at)?;
    Ok(())
}

impl Tally {
    /// Nothing was seen.
    pub fn new(alloc: Global) -> Tally
        ensures names { result.names.items ≡ [] }
        ensures used { result.used.items ≡ [] }
        ensures shared { result.shared ≡ no_starts }
    {
        Tally {
            names: Vec::new(alloc),
            used: Vec::new(alloc),
            shared: BTreeSet::new(alloc),
        }
    }

    /// Where a function is listed that is fetched from under this name, or none, at this depth of traps.
    pub fn listed(&self, name: Option<&Name>, depth: u32) -> Listed
        ensures value { result ≡ listed_by self.now.names.items (option_copied name.entry) depth }
        ensures within { IsWithin result (length self.now.names.items) }
    {
        if depth > 0 {
            return Listed::Shared;
        }
        let Some(name) = name else {
            return Listed::Nowhere;
        };
        match position_of(self.names.as_slice(), name) {
            Some(at) => Listed::Under(at),
            None => Listed::Nowhere,
        }
    }

    /// Lists a function.
    pub fn note(&mut self, listed: Listed, at: Start) -> Result<(), NoMemory>
        requires { IsWithin listed (length self.old.used.items) }
        ensures { OnOk result (AddsListed self.old listed at self.new) }
    {
        match listed {
            Listed::Shared => add_start(&mut self.shared, at),
            Listed::Under(n) => add_start(&mut self.used[n], at),
            Listed::Nowhere => Ok(()),
        }
    }

    /// Meets a name, if there is one: it is known from here on.
    pub fn meet(&mut self, alloc: Global, name: Option<&Name>) -> Result<(), ProfileFault>
        requires { length self.old.used.items ≡ length self.old.names.items }
        ensures met { OnOk result (AddsName self.old (option_copied name.entry) self.new) }
        ensures many { result ≡ Err TooManyApps → IsTooMuch self.old (option_copied name.entry) }
    {
        let Some(name) = name else {
            return Ok(());
        };
        if is_known(self.names.as_slice(), name) {
            return Ok(());
        }
        if self.names.len() >= APPS_MOST {
            return Err(ProfileFault::TooManyApps);
        }
        self.names.push(copy_of(name))?;
        self.used.push(BTreeSet::new(alloc))?;
        Ok(())
    }
}
