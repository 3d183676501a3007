//! Outputs for the text of a field.

ghost use Rattle.std.specs.Prelude.{◌≡◌, ◌++◌, ℕ, List, OnOk, OnErr, string_bytes};

use std::alloc::AllocError;
use std::string::String;

/// An output that text can be appended to.
pub(crate) trait TextSink {
    /// The bytes in the output.
    ghost bytes: { Self → List ℕ };

    /// Appends `text`. On an error the output is unchanged.
    fn push_text(&mut self, text: &str) -> Result<(), AllocError>
        ensures appended { OnOk result (bytes self.new ≡ bytes self.old ++ text.now) }
        ensures unchanged { OnErr result (bytes self.new ≡ bytes self.old) };
}

impl TextSink for String {
    ghost bytes = { string_bytes };

    fn push_text(&mut self, text: &str) -> Result<(), AllocError> {
        self.push_str(text)
    }
}

impl TextSink for Vec<u8> {
    ghost bytes = { λ v. v.items };

    fn push_text(&mut self, text: &str) -> Result<(), AllocError> {
        self.extend_from_slice(text.as_bytes())
    }
}
