//! Bytes that several owners share.

ghost use Rattle.std.specs.Prelude.{◌≡◌, IfOk, length};

use crate::memory::NoMemory;
use std::alloc::Global;
use std::marker::Model;
use std::sync::ArcSlice;

/// Bytes that nobody changes, in one place however many share them. In contracts they are the list of bytes.
#[derive(Drop)]
pub struct SharedBytes {
    bytes: ArcSlice<u8>,
}

impl Model for SharedBytes {
    ghost use Rattle.std.specs.Prelude.{List, ℕ};
    ghost use Rattle.std.specs.Arc.{arc_slice_items};

    ghost Value = { List ℕ };

    ghost view = { λ shared. arc_slice_items shared.bytes };
}

impl SharedBytes {
    /// Takes these bytes, without a copy of them.
    pub fn from_vec(bytes: Vec<u8>) -> Result<SharedBytes, NoMemory>
        ensures { IfOk result (λ shared. shared ≡ bytes.items) }
    {
        let bytes = ArcSlice::from_vec(bytes)?;
        Ok(SharedBytes { bytes })
    }

    /// Another owner of the same bytes.
    pub fn share(&self) -> Result<SharedBytes, NoMemory>
        ensures { IfOk result (λ shared. shared ≡ self.now) }
    {
        let bytes = self.bytes.clone()?;
        Ok(SharedBytes { bytes })
    }

    /// The bytes.
    pub fn as_slice(&self) -> &[u8]
        ensures { result.now ≡ self.now }
    {
        self.bytes.as_slice()
    }

    /// How many bytes there are.
    pub fn len(&self) -> usize
        ensures { result ≡ length self.now }
    {
        self.bytes.len()
    }
}
