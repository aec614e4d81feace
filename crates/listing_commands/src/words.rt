//! Whether words ask for one of the commands.

ghost use Rattle.std.specs.Prelude.{◌≡◌, ℕ, List, true, false, string_bytes, map, IfSome, IfNone};
ghost use Rattle.fc_numbers.specs.Names.{is_app_name};
ghost use Rattle.listing_commands.specs.Words.{IsListForm, IsSurfaceForm};

use fc_numbers::name::Name;

/// The app whose view `list IMAGE VIEWS APP` asks for; None exactly where the words are not of this form.
pub fn list_of(words: &[String]) -> Option<Name>
    ensures some { IfSome result (λ app. IsListForm (map string_bytes words.now) app) }
    ensures none { IfNone result ((app : List ℕ) → IsListForm (map string_bytes words.now) app → ⊥) }
{
    let [verb, _, _, app] = words else {
        return None;
    };
    if verb.as_str() != "list" {
        return None;
    }
    let app = Name::of(app.as_bytes())?;
    Some(app)
}

/// Whether the words are of the form of `surface`.
pub fn is_surface(words: &[String]) -> bool
    ensures yes { result ≡ true → IsSurfaceForm (map string_bytes words.now) }
    ensures no { result ≡ false → IsSurfaceForm (map string_bytes words.now) → ⊥ }
{
    match words {
        [verb, _, _] => verb.as_str() == "surface",
        _ => false,
    }
}
