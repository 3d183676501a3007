//! The trait `LinePrinter`.

ghost use Rattle.std.specs.Prelude.{◌≡◌, ℕ, List, Result, Err, OnOk, ◌<◌, ◌≤◌, length, take, vec_len};
ghost use Rattle.mj_model.specs.declared.limits.TheConstants.{SENTENCE_MAX};
ghost use Rattle.line_stream.specs.declared.line_fault.LineFault.{LineFault};
ghost use Rattle.line_stream.specs.declared.line_fault.LineFault.TheVariants.{NotUtf8, TooLong};
ghost use Rattle.line_stream.specs.GoodLines.{IsBad};
ghost use Rattle.line_stream.specs.StreamState.{IsPrinted};

use std::alloc::AllocError;

/// The result of appending output: an error if an allocation fails.
pub type Appended = Result<(), AllocError>;

/// A printer of lines of text, with its dictionaries.
pub trait LinePrinter {
    /// Buffers that are reused from line to line to save allocations.
    type Buffers;

    /// `line_result line (Ok text)`: the line is valid and prints `text`.
    /// `line_result line (Err fault)`: the line has the error `fault`.
    ghost line_result: { Self → List ℕ → Result (List ℕ) LineFault → Type 0 };

    /// Appends the output of the line `text` to `out`. `buffers` are reused from line to line. On an
    /// error a part of the output may remain in `out`.
    fn append_line(
        &self,
        buffers: &mut Self::Buffers,
        text: &str,
        out: &mut Vec<u8>,
    ) -> Result<(), AllocError>
        requires { length text.now ≤ SENTENCE_MAX }
        ensures printed { OnOk result (IsPrinted (line_result self.now) text.now
            out.old.items out.new.items) }
        ensures unchanged { take (vec_len out.old) out.new.items ≡ out.old.items };

    /// A line longer than `SENTENCE_MAX` has the error `TooLong`.
    ghost too_long: { (x : Self) (line : List ℕ) → SENTENCE_MAX < length line
        → line_result x line (Err TooLong) };

    /// A line that is short enough but not UTF-8 has the error `NotUtf8`.
    ghost not_utf8: { (x : Self) (line : List ℕ) → IsBad line NotUtf8 → line_result x line (Err NotUtf8) };
}
