//! Splitting of byte slices, and blanks in them.
ghost use Rattle.std.specs.Prelude.{◌≡◌, ◌==◌, ◌≤◌, length};
ghost use Rattle.std.specs.List.{prefix_len};
ghost use Rattle.mj_model.specs.Bytes.{is_blank as is_blank_byte};
ghost use Rattle.mj_model.specs.Lines.{is_blank_line as is_blank_text};
ghost use Rattle.mj_model.specs.Numbers.{without_trailing_blanks as without_trailing};
ghost use Rattle.lex_source.specs.Results.{IsSplitAt};

use memchr::memchr;

/// Returns the bytes before and after the first `byte`, or `None` if `bytes` does not contain it.
pub fn split_first(bytes: &[u8], byte: u8) -> Option<(&[u8], &[u8])>
    ensures { IsSplitAt byte bytes.now result }
{
    let at = memchr(byte, bytes)?;
    Some((&bytes[..at], &bytes[at + 1..]))
}

/// Returns whether `byte` is a blank or a tab.
pub(crate) fn is_blank(byte: u8) -> bool
    ensures { result ≡ is_blank_byte byte }
{
    byte == b' ' || byte == b'\t'
}

/// Returns whether `line` contains only blanks and tabs.
pub(crate) fn is_blank_line(line: &[u8]) -> bool
    ensures { result ≡ is_blank_text line.now }
{
    line.iter().all(|byte| is_blank(*byte))
}

/// Returns the number of blanks and tabs at the start of `text`.
pub(crate) fn blanks_before(text: &[u8]) -> usize
    ensures count { result ≡ prefix_len is_blank_byte text.now }
    ensures within { result ≤ length text.now }
{
    for (i, byte) in text.iter().enumerate() {
        if !is_blank(*byte) {
            return i;
        }
    }
    text.len()
}

/// Returns `text` without the blanks and tabs at its end.
pub(crate) fn without_trailing_blanks(text: &[u8]) -> &[u8]
    ensures { result.now ≡ without_trailing text.now }
{
    let mut end = text.len();
    while end > 0 && is_blank(text[end - 1]) {
        end -= 1;
    }
    &text[..end]
}
