//! The name of an application.

ghost use Rattle.std.specs.Prelude.{◌≡◌, ◌↔◌, IsSome, IfSome, true, length, ◌≤◌, ◌<◌};
ghost use Rattle.std.specs.List.{list_all};
ghost use Rattle.fc_numbers.specs.Names.{is_app_name, is_printed};

use arrayvec::ArrayVec;
use std::marker::Model;

/// The longest name of an application, in bytes.
pub const NAME_MOST: usize = 16;

/// The name of an application: 1 to 16 bytes of 0x21 to 0x7E. In contracts it is the list of its bytes.
#[derive(Drop)]
pub struct Name {
    bytes: ArrayVec<u8, 16>,
}

impl Model for Name {
    ghost use Rattle.std.specs.Prelude.{List, ℕ, ◌≡◌, true};

    ghost Value = { List ℕ };

    ghost use Rattle.fc_numbers.specs.Names.{is_app_name};

    ghost view = { λ name. name.bytes.items };

    ghost invariant = { λ name. is_app_name name.bytes.items ≡ true };
}

/// Whether the byte is printed and no space.
fn is_printed_byte(byte: u8) -> bool
    ensures { result ≡ is_printed byte }
{
    0x21 <= byte && byte <= 0x7e
}

fn are_printed(bytes: &[u8]) -> bool
    ensures { result ≡ list_all is_printed bytes.now }
{
    bytes.iter().all(|byte| is_printed_byte(*byte))
}

fn is_name(bytes: &[u8]) -> bool
    ensures { result ≡ is_app_name bytes.now }
{
    !bytes.is_empty() && bytes.len() <= NAME_MOST && are_printed(bytes)
}

impl Name {
    /// The name of these bytes, or None where they are no name of an application.
    pub fn of(bytes: &[u8]) -> Option<Name>
        ensures named { IsSome result ↔ (is_app_name bytes.now ≡ true) }
        ensures value { IfSome result (λ name. name ≡ bytes.now) }
    {
        if !is_name(bytes) {
            return None;
        }
        match ArrayVec::try_from(bytes) {
            Ok(bytes) => Some(Name { bytes }),
            Err(_) => None,
        }
    }

    /// The bytes of the name.
    pub fn bytes(&self) -> &[u8]
        ensures value { result.now ≡ self.now }
        ensures named { is_app_name self.now ≡ true }
    {
        self.bytes.as_slice()
    }
}
