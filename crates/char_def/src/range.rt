//! Ranges of code points, as words of a line.
ghost use Rattle.std.specs.Prelude.{◌≡◌, None, Some};
ghost use Rattle.char_def.specs.Results.{IsRangeResult, IsRangeFromResult};
ghost use Rattle.mj_model.specs.CharDef.{high_end as high_end_of};
ghost use Rattle.char_def.specs.Hex.{up_to_max};

use crate::code_range::CodeRange;
use crate::hexadecimal::hexadecimal;
use lex_source::split_first;
use mj_model::CODE_POINT_MAX;

/// Reads `0xHEX` or `0xLOW..0xHIGH`. (MeCab, `char.def`)
pub(crate) fn code_range(word: &[u8]) -> Option<CodeRange>
    ensures { IsRangeResult result word.now }
{
    match split_first(word, b'.') {
        Some((low, rest)) => range_between(hexadecimal(low)?, high_end(rest)?),
        None => {
            let code = hexadecimal(word)?;
            range_between(code, code)
        }
    }
}

/// Reads the high end of a range, which follows the second full stop. `rest` is what follows the
/// first one.
fn high_end(rest: &[u8]) -> Option<u32>
    ensures { result ≡ up_to_max (high_end_of rest.now) }
{
    match rest {
        [b'.', high @ ..] => hexadecimal(high),
        _ => None,
    }
}

/// Returns the range from `low` to `high`, if it is a range within Unicode.
fn range_between(low: u32, high: u32) -> Option<CodeRange>
    ensures { IsRangeFromResult result low high }
{
    if low <= high && high <= CODE_POINT_MAX {
        Some(CodeRange { low, high })
    } else {
        None
    }
}
