//! The union of two views.

ghost use Rattle.std.specs.Prelude.{◌≡◌, ◌++◌, ◌||◌, List, ℕ, IfOk, OnOk};
ghost use Rattle.view_file.specs.Fits.{IsInOrder};
ghost use Rattle.view_file.specs.Union.{AreJoined, AreUnion, HasBoth, Merges, has_app, listed_under};

use crate::fault::ViewFault;
use crate::named::{in_order, sorted};
use crate::views::{App, Apps, Views};
use fc_numbers::memory::NoMemory;
use fc_numbers::name::Name;
use guest_input::image::Start;
use sqlite_items::Items;
use std::alloc::Global;

fn copy_of(name: &Name) -> Name
    ensures { result ≡ name.now }
{
    match Name::of(name.bytes()) {
        Some(copy) => copy,
        None => unreachable!(),
    }
}

fn has_app(apps: &[App], name: &[u8]) -> bool
    ensures { result ≡ has_app apps.now name.now }
{
    apps.iter().any(|app| app.name.bytes() == name)
}

/// The starts of both lists, each once, in order.
fn join_starts(alloc: Global, a: &[Start], b: &[Start]) -> Result<Items<Start>, NoMemory>
    ensures { IfOk result (IsInOrder (a.now ++ b.now)) }
{
    let mut starts = Vec::from_slice(alloc, a)?;
    starts.extend_from_slice(b)?;
    in_order(alloc, starts.as_slice())
}

/// The functions that these apps list under a name.
fn starts_under(alloc: Global, apps: &[App], name: &[u8]) -> Result<Vec<Start>, NoMemory>
    ensures { IfOk result (λ starts. starts.items ≡ listed_under apps.now name.now) }
{
    let mut starts = Vec::new(alloc);
    for app in apps {
        if app.name.bytes() == name {
            starts.extend_from_slice(app.functions.as_slice())?;
        }
    }
    Ok(starts)
}

/// The app of this name, with the functions that both lists have under it.
fn join_app(alloc: Global, name: &Name, a: &[App], b: &[App]) -> Result<App, NoMemory>
    ensures name { IfOk result (λ app. app.name ≡ name.now) }
    ensures functions { IfOk result (HasBoth a.now b.now) }
{
    let first = starts_under(alloc, a, name.bytes())?;
    let second = starts_under(alloc, b, name.bytes())?;
    let functions = join_starts(alloc, first.as_slice(), second.as_slice())?;
    Ok(App {
        name: copy_of(name),
        functions,
    })
}

/// Adds an app for each name of these apps that has none yet, with the functions that both lists have under it.
fn add_apps(
    alloc: Global,
    joined: &mut Vec<App>,
    apps: &[App],
    a: &[App],
    b: &[App],
) -> Result<(), NoMemory>
    requires { AreJoined a.now b.now joined.old.items }
    ensures joined { OnOk result (AreJoined a.now b.now joined.new.items) }
    ensures names { OnOk result ((name : List ℕ) → has_app joined.new.items name ≡ (has_app joined.old.items name || has_app apps.now name)) }
{
    for app in apps {
        if !has_app(joined.as_slice(), app.name.bytes()) {
            joined.push(join_app(alloc, &app.name, a, b)?)?;
        }
    }
    Ok(())
}

/// The apps of both lists, in order of their names.
fn join_apps(alloc: Global, a: &[App], b: &[App]) -> Result<Items<App>, NoMemory>
    ensures { IfOk result (AreUnion a.now b.now) }
{
    let mut joined = Vec::new(alloc);
    add_apps(alloc, &mut joined, a, a, b)?;
    add_apps(alloc, &mut joined, b, a, b)?;
    let apps = sorted(joined)?;
    Ok(Items::from_vec(apps))
}

/// The union of two views of one kernel text: the functions of both, under each name and shared. It is refused where the
/// views are those of two texts, and then where they have more than 15 names.
pub fn merge(alloc: Global, a: &Views, b: &Views) -> Result<Views, ViewFault>
    ensures { Merges a.now b.now result }
{
    if a.text != b.text {
        return Err(ViewFault::OtherText);
    }
    let apps = join_apps(alloc, a.apps.as_slice(), b.apps.as_slice())?;
    let Some(apps) = Apps::of(apps) else {
        return Err(ViewFault::TooManyApps);
    };
    let shared = join_starts(alloc, a.shared.as_slice(), b.shared.as_slice())?;
    Ok(Views {
        text: a.text,
        shared,
        apps,
    })
}
