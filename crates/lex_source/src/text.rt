//! Splitting of a text at an ASCII byte.
ghost use Rattle.std.specs.Prelude.{◌≡◌, ◌+◌, ◌<◌, length, take, drop, slice_index};
ghost use Rattle.mj_model.specs.Fields.{without_leading_blanks as without_blanks_before};
ghost use Rattle.lex_source.specs.Results.{IsSplitAt};

use crate::bytes::blanks_before;
use memchr::memchr;

/// Returns the text before and after the ASCII byte at byte offset `at`.
pub(crate) fn split_around(text: &str, at: usize) -> (&str, &str)
    requires within { at < length text.now }
    requires ascii { slice_index text.now at < 128 }
    ensures before { result.0.now ≡ take at text.now }
    ensures after { result.1.now ≡ drop (at + 1) text.now }
{
    (&text[..at], &text[at + 1..])
}

/// Returns the text before and after the first occurrence of the ASCII byte `byte`, or `None`
/// without one.
pub(crate) fn split_text(text: &str, byte: u8) -> Option<(&str, &str)>
    requires { byte < 128 }
    ensures { IsSplitAt byte text.now result }
{
    let at = memchr(byte, text.as_bytes())?;
    Some(split_around(text, at))
}

/// Returns `text` without the blanks and tabs at its start.
pub(crate) fn without_leading_blanks(text: &str) -> &str
    ensures { result.now ≡ without_blanks_before text.now }
{
    &text[blanks_before(text.as_bytes())..]
}
