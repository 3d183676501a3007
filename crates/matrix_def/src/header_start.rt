//! The start of a header line, of which more may follow.
ghost use Rattle.std.specs.Prelude.{◌≡◌};
ghost use Rattle.std.specs.Bool.{OnTrue};
ghost use Rattle.mj_model.specs.Bytes.{is_blank as is_blank_byte};
ghost use Rattle.matrix_def.specs.Headers.{EndsWithNoSize, HasNoBlank, IsLastWord, IsNoHeader, IsNoSize};

use lex_source::context_id;

/// The number of bytes of a line that `is_no_header` scans at most. A scan of all of them for each
/// piece of a line would take quadratic time.
const PREFIX_MAX: usize = 4_096;

/// Returns whether a line that starts with `start` is no header, whatever follows, because the last
/// word of its first `PREFIX_MAX` bytes is no size. The last byte of these is ignored, because it
/// may be the CR at the end of the line.
pub(crate) fn is_no_header(start: &[u8]) -> bool
    ensures { OnTrue result (IsNoHeader start.now) }
{
    match start[..start.len().min(PREFIX_MAX)].split_last() {
        Some((_last, front)) => ends_with_no_size(front),
        None => false,
    }
}

/// Returns whether the last word of `start` is no size, whatever follows in it.
fn ends_with_no_size(start: &[u8]) -> bool
    ensures { OnTrue result (EndsWithNoSize start.now) }
{
    let (_, word) = split_last_word(start);
    is_no_size(word)
}

/// Splits `start` before its last word, which is empty if `start` is empty or ends with a blank.
fn split_last_word(start: &[u8]) -> (&[u8], &[u8])
    ensures { IsLastWord start.now result.0.now result.1.now }
{
    let mut at = start.len();
    while at > 0 && !is_blank(start[at - 1]) {
        at -= 1;
    }
    (&start[..at], &start[at..])
}

/// Returns whether `byte` is a blank or a tab.
fn is_blank(byte: u8) -> bool
    ensures { result ≡ is_blank_byte byte }
{
    byte == b' ' || byte == b'\t'
}

/// Returns whether `word` is no size, whatever follows in it. A single byte may be a sign.
fn is_no_size(word: &[u8]) -> bool
    requires { HasNoBlank word.now }
    ensures { OnTrue result (IsNoSize word.now) }
{
    word.len() > 1 && context_id(word).is_none()
}
