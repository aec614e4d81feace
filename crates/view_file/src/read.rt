//! Reading views from JSON.

ghost use Rattle.std.specs.Prelude.{◌≡◌, Ok, true, false, IfOk, IfErr, MatchOption, map, length};
ghost use Rattle.std.specs.List.{list_all};
ghost use Rattle.function_table.specs.Groups.{groups_of, is_function};
ghost use Rattle.view_file.specs.Base.{all_listed};
ghost use Rattle.view_file.specs.Least.{IsLeastOf, lesser_of};
ghost use Rattle.view_file.specs.Fits.{IsViewsOf, Parses, Reads};
ghost use Rattle.view_file.specs.Written.{named_well, shaped_of, Fails};

use crate::fault::ViewFault;
use crate::named::{apps_of, in_order};
use crate::views::{Apps, Views};
use crate::written::{Written, shaped};
use function_table::table::Table;
use guest_input::image::{Image, Start};
use std::alloc::Global;

/// The views that are written, where the names are names of apps and there are few enough apps.
fn views_of(alloc: Global, written: &Written) -> Result<Views, ViewFault>
    ensures ok { IfOk result (λ v. (named_well (Ok written.now) ≡ Ok written.now) × IsViewsOf written.now v) }
    ensures err { IfErr result (λ fault. Fails fault (named_well (Ok written.now))) }
{
    let Some(apps) = apps_of(alloc, written.apps.as_slice())? else {
        return Err(ViewFault::BadName);
    };
    let Some(apps) = Apps::of(apps) else {
        return Err(ViewFault::TooManyApps);
    };
    let shared = in_order(alloc, written.shared.as_slice())?;
    Ok(Views {
        text: written.text,
        shared,
        apps,
    })
}

/// The views that the bytes write, for whatever kernel.
pub fn parse_views(alloc: Global, bytes: &[u8]) -> Result<Views, ViewFault>
    ensures { Parses bytes.now result }
{
    let written = shaped(alloc, bytes)?;
    views_of(alloc, &written)
}

fn lesser(a: Option<Start>, b: Option<Start>) -> Option<Start>
    ensures { result ≡ lesser_of a b }
{
    match (a, b) {
        (Some(a), Some(b)) => Some(a.min(b)),
        (Some(a), None) => Some(a),
        (None, b) => b,
    }
}

/// The least of these starts at which no function of the table begins.
fn least_unknown(table: &Table, starts: &[Start]) -> Option<Start>
    ensures { IsLeastOf (is_function table.now) starts.now result }
{
    let mut least = None;
    for at in starts {
        if !table.is_function(*at) {
            least = lesser(least, Some(*at));
        }
    }
    least
}

/// The least of all listed starts at which no function of the table begins.
fn least_listed(table: &Table, views: &Views) -> Option<Start>
    ensures { IsLeastOf (is_function table.now) (all_listed views.now) result }
{
    let mut least = least_unknown(table, views.shared.as_slice());
    for app in views.apps.as_slice() {
        least = lesser(least, least_unknown(table, app.functions.as_slice()));
    }
    least
}

/// The views that the bytes write for this image, whose table is handed in with it. After the faults of
/// [`parse_views`] comes that of another text, and then that of an unknown function.
pub fn read_views(
    alloc: Global,
    bytes: &[u8],
    image: &Image,
    table: &Table,
) -> Result<Views, ViewFault>
    requires { table.now ≡ groups_of image.now }
    ensures { Reads bytes.now image.now result }
{
    let views = parse_views(alloc, bytes)?;
    if views.text != image.digest {
        return Err(ViewFault::OtherText);
    }
    match least_listed(table, &views) {
        Some(at) => Err(ViewFault::UnknownFunction(at)),
        None => Ok(views),
    }
}
