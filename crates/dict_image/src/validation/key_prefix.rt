//! The prefix of a key that leads to a cell.
ghost use Rattle.std.specs.Prelude.{◌≤◌, ◌↔◌, ℕ, List, [], ◌∷◌, ◌++◌, length, IsTrue, IsUtf8};
ghost use Rattle.dict_image.specs.Validation.KeyPrefixes.{IsKeyPrefix, IsKeyPrefixIfShort};

use crate::validation::utf8_state::Utf8State;
use mj_model::SURFACE_MAX;

/// A summary of the bytes that lead to a cell: a key, or the prefix of longer keys.
#[derive(Clone, Copy)]
pub(crate) struct KeyPrefix {
    /// Length in bytes, at most `SURFACE_MAX`.
    length: u16,
    /// The state of a UTF-8 decoder after the bytes.
    state: Utf8State,
}

impl KeyPrefix {
    /// Returns the empty prefix, which belongs to cell 0.
    pub(crate) fn empty() -> KeyPrefix
        ensures { IsKeyPrefix [] result }
    {
        KeyPrefix {
            length: 0,
            state: Utf8State::Between,
        }
    }

    /// Returns the prefix extended by `byte`, or None if it exceeds `SURFACE_MAX` bytes.
    pub(crate) fn after(self, byte: u8) -> Option<KeyPrefix>
        ensures { (key : List ℕ)
            → IsKeyPrefix key self → IsKeyPrefixIfShort (key ++ byte ∷ []) result }
    {
        if self.length as usize >= SURFACE_MAX {
            return None;
        }
        Some(KeyPrefix {
            length: self.length + 1,
            state: self.state.after(byte),
        })
    }

    /// Returns whether the bytes are a key, which is UTF-8 of at least 1 byte.
    pub(crate) fn is_key(self) -> bool
        ensures { (key : List ℕ) → IsKeyPrefix key self
            → IsTrue result ↔ ((1 ≤ length key) × IsUtf8 key) }
    {
        self.length != 0 && matches!(self.state, Utf8State::Between)
    }
}
