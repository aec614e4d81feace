//! What the words of a command ask for.

ghost use Rattle.std.specs.Prelude.{◌≡◌, ◌≤◌, ℕ, true, false, decimal, string_bytes, map, IfSome, IfNone};
ghost use Rattle.fc_numbers.specs.Names.{is_app_name};
ghost use Rattle.guest_input.specs.declared.setup.Setup.{Setup};
ghost use Rattle.guest_input.specs.declared.limits.TheConstants.{STEPS_MOST};
ghost use Rattle.facechange_cli.specs.Setups.{setup_for};
ghost use Rattle.facechange_cli.specs.Words.{IsTry, IsDriveForm, IsForm, IsNoForm};

use crate::setup::setup_for;
use bench_command::bench::bench_of;
use command_frame::number::number_of;
use fc_numbers::name::Name;
use guest_input::limits::STEPS_MOST;
use guest_input::setup::Setup;
use listing_commands::words::{is_surface, list_of};
use replay_command::replay::is_replay;
use std::alloc::Global;
use view_commands::merge::is_merge;
use view_commands::profile::is_profile;
use view_commands::show::is_show;

/// A listed form of words, and what it asks for besides files.
#[derive(Drop)]
pub enum Command {
    /// `try IMAGE VIEWS APP STEPS LOG`: to run the image under the views by this setup, and to write the log.
    Try(Setup),
    /// `drive IMAGE SETUP VIEWS SCRIPT TRACE LOG`: to run the image by the setup, under the views, in the order of the script,
    /// and to write the trace and the log.
    Drive,
    /// `profile IMAGE SETUP OUT`: to run the image by the setup, and to write the views that the run shows.
    Profile,
    /// `merge A B OUT`: to write the union of two views files.
    Merge,
    /// `show IMAGE VIEWS`: to print the sizes of the views.
    Show,
    /// `replay IMAGE SETUP TRACE`: to run the image by the setup in the order of the trace, and to compare.
    Replay,
    /// `list IMAGE VIEWS APP`: to print the code that the view of this app holds.
    List(Name),
    /// `surface IMAGE VIEWS`: to print how much of the text each app's view holds.
    Surface,
    /// `bench N`: to profile the guest of this number, to drive it, and to tell what came of it.
    Bench(u64),
}

/// The number of steps that a word writes: 1 to 16,777,216 in decimal, without leading zeros.
fn steps_of(word: &str) -> Option<u32>
    ensures some { IfSome result (λ steps. (word.now ≡ decimal steps) × (1 ≤ steps) × (steps ≤ STEPS_MOST)) }
    ensures none { IfNone result ((steps : ℕ) → word.now ≡ decimal steps → 1 ≤ steps → steps ≤ STEPS_MOST → ⊥) }
{
    let steps = number_of(word)?;
    if steps < 1 || STEPS_MOST < steps {
        return None;
    }
    Some(steps as u32)
}

/// The setup that `try` asks for; None exactly where the words are not of its form.
fn try_of(alloc: Global, words: &[String]) -> Option<Setup>
    ensures some { IfSome result (λ setup. IsTry (map string_bytes words.now) setup) }
    ensures none { IfNone result ((setup : Setup) → IsTry (map string_bytes words.now) setup → ⊥) }
{
    let [verb, _, _, app, steps, _] = words else {
        return None;
    };
    if verb.as_str() != "try" {
        return None;
    }
    let app = Name::of(app.as_bytes())?;
    let steps = steps_of(steps.as_str())?;
    Some(setup_for(alloc, app, steps))
}

/// Whether the words are of the form of `drive`.
fn is_drive(words: &[String]) -> bool
    ensures yes { result ≡ true → IsDriveForm (map string_bytes words.now) }
    ensures no { result ≡ false → IsDriveForm (map string_bytes words.now) → ⊥ }
{
    match words {
        [verb, _, _, _, _, _, _] => verb.as_str() == "drive",
        _ => false,
    }
}

/// The form that the words are of, or None exactly where they are of no listed one.
#[tactic(auto, using(crate::proofs::Forms::no_form))]
pub fn command_of(alloc: Global, words: &[String]) -> Option<Command>
    ensures some { IfSome result (λ command. IsForm (map string_bytes words.now) command) }
    ensures none { IfNone result (IsNoForm (map string_bytes words.now)) }
{
    if is_drive(words) {
        return Some(Command::Drive);
    }
    if is_profile(words) {
        return Some(Command::Profile);
    }
    if is_merge(words) {
        return Some(Command::Merge);
    }
    if is_show(words) {
        return Some(Command::Show);
    }
    if is_replay(words) {
        return Some(Command::Replay);
    }
    if is_surface(words) {
        return Some(Command::Surface);
    }
    if let Some(app) = list_of(words) {
        return Some(Command::List(app));
    }
    if let Some(seed) = bench_of(words) {
        return Some(Command::Bench(seed));
    }
    let setup = try_of(alloc, words)?;
    Some(Command::Try(setup))
}
