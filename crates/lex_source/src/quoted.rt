//! Quoted fields, in which quotes are doubled.
ghost use Rattle.std.specs.Prelude.{◌≡◌, ◌≤◌, ◌+◌, ℕ, List, ◌∷◌, ◌++◌, length, take, OnOk, MatchOption};
ghost use Rattle.mj_model.specs.Bytes.{quote};
ghost use Rattle.mj_model.specs.Fields.{with_doubled_quotes, StartsWithQuote};
ghost use Rattle.lex_source.specs.Spelled.{IsDoubled, IsNextQuote, IsQuotedEnd};

use crate::sink::TextSink;
use crate::text::{split_around, split_text};
use memchr::memchr;
use std::alloc::AllocError;

/// Returns the text before the closing quote and the text after it. Without a closing quote, it
/// returns all of `inside` and `None`.
pub(crate) fn split_quoted(inside: &str) -> (&str, Option<&str>)
    ensures doubled { IsDoubled result.0.now }
    ensures after { MatchOption result.1 (inside.now ≡ result.0.now)
        (λ following. (inside.now ≡ result.0.now ++ quote ∷ following.now)
        × (StartsWithQuote following.now → ⊥)) }
{
    let end = quoted_end(inside.as_bytes());
    if end == inside.len() {
        return (inside, None);
    }
    let (raw, following) = split_around(inside, end);
    (raw, Some(following))
}

/// Returns the position of the closing quote, or the length if there is none. It is the first quote
/// that is not part of a doubled quote.
fn quoted_end(bytes: &[u8]) -> usize
    ensures { IsQuotedEnd bytes.now result }
{
    let mut at = next_quote(bytes, 0);
    while bytes.len() - at > 1 && bytes[at + 1] == b'"' {
        at = next_quote(bytes, at + 2);
    }
    at
}

/// Returns the position of the first quote from `start` on, or the length if there is none.
fn next_quote(bytes: &[u8], start: usize) -> usize
    requires { start ≤ length bytes.now }
    ensures { IsNextQuote bytes.now start result }
{
    // A doubled quote often follows another. This test is then cheaper than a search.
    if start < bytes.len() && bytes[start] == b'"' {
        return start;
    }
    match memchr(b'"', &bytes[start..]) {
        Some(at) => start + at,
        None => bytes.len(),
    }
}

/// Appends `raw` to `out` with each doubled quote as one quote. On an error a part of it may have
/// been appended.
pub(crate) fn append_undoubled<S: TextSink>(out: &mut S, raw: &str) -> Result<(), AllocError>
    requires { IsDoubled raw.now }
    ensures appended { (field : List ℕ) → raw.now ≡ with_doubled_quotes field
        → OnOk result (S.bytes out.new ≡ S.bytes out.old ++ field) }
    ensures unchanged { take (length (S.bytes out.old)) (S.bytes out.new) ≡ S.bytes out.old }
{
    let mut rest = raw;
    while let Some((before, following)) = split_text(rest, b'"') {
        out.push_text(before)?;
        out.push_text("\"")?;
        rest = split_around(following, 0).1;
    }
    out.push_text(rest)
}
