//! Writing views as JSON.

ghost use Rattle.std.specs.Prelude.{◌≡◌, IfOk, Ok, string_bytes};
ghost use Rattle.serde_json.specs.Data.{string};
ghost use Rattle.serde_json.specs.View.{view};
ghost use Rattle.view_file.specs.Fits.{Parses};
ghost use Rattle.view_file.specs.Lawful.{IsViews};
ghost use Rattle.view_file.specs.Text.{app_data, apps_data, start_data, starts_data, text_of_views, views_data, views_object};

use crate::views::{App, Views};
use fc_numbers::memory::NoMemory;
use fc_numbers::name::Name;
use guest_input::image::Start;
use serde_json::{Map, Value, json, put};
use std::alloc::Global;

/// The version of the files that are written.
const VERSION: u8 = 2;

fn start_value(alloc: Global, at: Start) -> Result<Value, NoMemory>
    ensures { IfOk result (λ value. view value ≡ start_data at) }
{
    Ok(json!(in alloc; [at.range, at.offset])?)
}

fn starts_value(alloc: Global, starts: &[Start]) -> Result<Value, NoMemory>
    ensures { IfOk result (λ value. view value ≡ starts_data starts.now) }
{
    let mut values = Vec::new(alloc);
    for at in starts {
        values.push(start_value(alloc, *at)?)?;
    }
    Ok(Value::Array(values))
}

fn name_text(alloc: Global, name: &Name) -> Result<String, NoMemory>
    ensures { IfOk result (λ text. string_bytes text ≡ name.now) }
{
    Ok(String::from_utf8_lossy(alloc, name.bytes())?)
}

fn name_value(alloc: Global, name: &Name) -> Result<Value, NoMemory>
    ensures { IfOk result (λ value. view value ≡ string name.now) }
{
    Ok(Value::from(name_text(alloc, name)?))
}

fn app_value(alloc: Global, app: &App) -> Result<Value, NoMemory>
    ensures { IfOk result (λ value. view value ≡ app_data app.now) }
{
    let functions = starts_value(alloc, app.functions.as_slice())?;
    let name = name_value(alloc, &app.name)?;
    Ok(json!(in alloc; {"functions": functions, "name": name})?)
}

fn apps_value(alloc: Global, apps: &[App]) -> Result<Value, NoMemory>
    ensures { IfOk result (λ value. view value ≡ apps_data apps.now) }
{
    let mut values = Vec::new(alloc);
    for app in apps {
        values.push(app_value(alloc, app)?)?;
    }
    Ok(Value::Array(values))
}

fn object_of(alloc: Global, apps: Value, shared: Value, text: Value) -> Result<Value, NoMemory>
    ensures { IfOk result (λ value. view value ≡ views_object (view apps) (view shared) (view text)) }
{
    let mut members = Map::new(alloc);
    put(&mut members, alloc, "apps", apps)?;
    put(&mut members, alloc, "shared", shared)?;
    put(&mut members, alloc, "text", text)?;
    put(&mut members, alloc, "version", Value::from(VERSION))?;
    Ok(Value::Object(members))
}

fn views_value(alloc: Global, views: &Views) -> Result<Value, NoMemory>
    ensures { IfOk result (λ value. view value ≡ views_data views.now) }
{
    let apps = apps_value(alloc, views.apps.as_slice())?;
    let shared = starts_value(alloc, views.shared.as_slice())?;
    let text = Value::from(hex::encode(alloc, &views.text)?);
    object_of(alloc, apps, shared, text)
}

/// The text of these views, as a file of version 2. It reads back as these views.
#[tactic(auto, using(crate::proofs::Texts::no_float))]
pub fn write_views(alloc: Global, views: &Views) -> Result<Vec<u8>, NoMemory>
    ensures text { IfOk result (λ bytes. bytes.items ≡ text_of_views views.now) }
    ensures reads_back { IfOk result (λ bytes. IsViews views.now → Parses bytes.items (Ok views.now)) }
{
    let value = views_value(alloc, views)?;
    Ok(value.to_vec(alloc)?)
}
