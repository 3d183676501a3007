//! Checks a line before it is printed.

ghost use Rattle.std.specs.Prelude.{◌≡◌, IfOk, IfErr, OnOk};
ghost use Rattle.line_stream.specs.GoodLines.{IsBad, IsGood};

use crate::line_fault::LineFault;
use mj_model::SENTENCE_MAX;

/// Returns `line` as text if it is UTF-8 of at most `SENTENCE_MAX` bytes. The length is checked
/// first.
pub fn text_of(line: &[u8]) -> Result<&str, LineFault>
    ensures text { IfOk result (λ text. text.now ≡ line.now) }
    ensures accepted { OnOk result (IsGood line.now) }
    ensures rejected { IfErr result (IsBad line.now) }
{
    if line.len() > SENTENCE_MAX {
        return Err(LineFault::TooLong);
    }
    simdutf8::basic::from_utf8(line).map_err(|_| LineFault::NotUtf8)
}
