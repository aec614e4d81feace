//! What a JSON value says.

ghost use Rattle.std.specs.Prelude.{◌≡◌, option_map, map, List, ℕ};
ghost use Rattle.serde_json.specs.View.{view};
ghost use Rattle.serde_json.specs.Find.{get};
ghost use Rattle.json_fields.specs.Fields.{whole_of, string_of, array_of, pair_of, triple_of, is_object, has_only_keys, is_null, is_among};

use serde_json::Value;

/// Whether the value is an object.
pub fn is_object(value: &Value) -> bool
    ensures { result ≡ is_object (view value.now) }
{
    value.is_object()
}

/// Whether the value is null.
pub fn is_null(value: &Value) -> bool
    ensures { result ≡ is_null (view value.now) }
{
    value.is_null()
}

/// The member of an object at this key, or None where the value is no object or has no such key.
pub fn member<'v>(value: &'v Value, key: &str) -> Option<&'v Value>
    ensures { option_map (λ found. view found.now) result ≡ get key.now (view value.now) }
{
    value.get(key)
}

/// The number that the value is, where it is a whole number without sign that fits 64 bits.
pub fn whole(value: &Value) -> Option<u64>
    ensures { result ≡ whole_of (view value.now) }
{
    value.as_u64()
}

/// The text that the value is.
pub fn text(value: &Value) -> Option<&str>
    ensures { option_map (λ text. text.now) result ≡ string_of (view value.now) }
{
    value.as_str()
}

/// The items of the array that the value is.
pub fn array(value: &Value) -> Option<&[Value]>
    ensures { option_map (λ items. map view items.now) result ≡ array_of (view value.now) }
{
    match value.as_array() {
        Some(items) => Some(items.as_slice()),
        None => None,
    }
}

/// The two items of the array of two items that the value is.
pub fn pair(value: &Value) -> Option<(&Value, &Value)>
    ensures { option_map (λ both. (view both.0.now, view both.1.now)) result ≡ pair_of (view value.now) }
{
    match array(value) {
        Some([first, second]) => Some((first, second)),
        _ => None,
    }
}

/// The three items of the array of three items that the value is.
pub fn triple(value: &Value) -> Option<(&Value, &Value, &Value)>
    ensures { option_map (λ all. (view all.0.now, view all.1.now, view all.2.now)) result ≡ triple_of (view value.now) }
{
    match array(value) {
        Some([first, second, third]) => Some((first, second, third)),
        _ => None,
    }
}

/// Whether the name is one of the keys.
fn is_among(keys: &[&str], name: &str) -> bool
    ensures { result ≡ is_among (map (λ key. key.now) keys.now) name.now }
{
    keys.iter().any(|key| *key == name)
}

/// Whether the value is an object with no key but these.
pub fn has_only(value: &Value, keys: &[&str]) -> bool
    ensures { result ≡ has_only_keys (map (λ key. key.now) keys.now) (view value.now) }
{
    match value.as_object() {
        Some(members) => members.keys().all(|name| is_among(keys, name.as_str())),
        None => false,
    }
}
