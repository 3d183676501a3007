//! The first field of a text, as it is written there.
ghost use Rattle.std.specs.Prelude.{◌≡◌, ℕ, List, ◌∷◌, ◌++◌, take, IfOk, IsUtf8, OnOk, ◌==◌, length, string_bytes, option_copied};
ghost use Rattle.std.specs.Cow.{cow_str_bytes};
ghost use Rattle.mj_model.specs.Bytes.{quote};
ghost use Rattle.mj_model.specs.Fields.{StartsWithQuote, IsFieldOf, IsFirstField, rest_of as rest_after};
ghost use Rattle.lex_source.specs.Spelled.{IsRawForm, StartsWithField};

use crate::quoted::{append_undoubled, split_quoted};
use crate::sink::TextSink;
use crate::text::{split_around, split_text, without_leading_blanks};
use std::alloc::{AllocError, Global};
use std::borrow::CowStr;
use std::string::String;

/// The first field of a text, as it is written there, and the remainder after its comma.
#[derive(Clone, Copy)]
pub(crate) struct RawField<'a> {
    /// The field, without the quotes around it. Quotes inside a quoted field are doubled.
    pub(crate) raw: &'a str,
    /// Whether the field is quoted.
    pub(crate) quoted: bool,
    /// The remainder after the comma, if there is a comma.
    pub(crate) rest: Option<&'a str>,
}

impl<'a> RawField<'a> {
    /// Returns the first field of `text`, after skipping blanks and tabs.
    pub(crate) fn first(text: &'a str) -> RawField<'a>
        ensures { StartsWithField (IsFirstField text.now) result.raw.now result.quoted
            (option_copied result.rest) }
    {
        let text = without_leading_blanks(text);
        if text.as_bytes().first() == Some(&b'"') {
            quoted_field(split_around(text, 0).1)
        } else {
            plain_field(text)
        }
    }

    /// Returns the field without its quotes. Only a quoted field is copied.
    pub(crate) fn text(self, alloc: Global) -> Result<CowStr<'a, Global>, AllocError>
        requires { (field : List ℕ) × IsRawForm self.raw.now self.quoted field }
        ensures value { (field : List ℕ) → IsRawForm self.entry.raw.now self.entry.quoted field
            → IfOk result (λ text. cow_str_bytes text ≡ field) }
        ensures text { IfOk result (λ text. IsUtf8 (cow_str_bytes text)) }
    {
        if self.quoted {
            Ok(CowStr::Owned(self.to_string(alloc)?))
        } else {
            Ok(CowStr::Borrowed(self.raw))
        }
    }

    /// Returns a copy of the field without its quotes.
    pub(crate) fn to_string(self, alloc: Global) -> Result<String, AllocError>
        requires { (field : List ℕ) × IsRawForm self.raw.now self.quoted field }
        ensures { (field : List ℕ) → IsRawForm self.entry.raw.now self.entry.quoted field
            → IfOk result (λ text. string_bytes text ≡ field) }
    {
        let mut text = String::with_capacity(alloc, self.raw.len())?;
        self.append_to(&mut text)?;
        Ok(text)
    }

    /// Appends the field to `out` without its quotes. On an error a part of it may have been
    /// appended.
    pub(crate) fn append_to<S: TextSink>(self, out: &mut S) -> Result<(), AllocError>
        requires { (field : List ℕ) × IsRawForm self.raw.now self.quoted field }
        ensures appended { (field : List ℕ) → IsRawForm self.entry.raw.now self.entry.quoted field
            → OnOk result (S.bytes out.new ≡ S.bytes out.old ++ field) }
        ensures unchanged { take (length (S.bytes out.old)) (S.bytes out.new) ≡ S.bytes out.old }
    {
        if self.quoted {
            append_undoubled(out, self.raw)
        } else {
            out.push_text(self.raw)
        }
    }
}

/// Returns the first field of a text that does not start with a quote.
fn plain_field(text: &str) -> RawField<'_>
    requires { StartsWithQuote text.now → ⊥ }
    ensures { StartsWithField (IsFieldOf text.now) result.raw.now result.quoted
        (option_copied result.rest) }
{
    match split_text(text, b',') {
        Some((raw, rest)) => RawField {
            raw,
            quoted: false,
            rest: Some(rest),
        },
        None => RawField {
            raw: text,
            quoted: false,
            rest: None,
        },
    }
}

/// Returns the first field of a text that starts with a quote. `inside` is what follows that quote.
fn quoted_field(inside: &str) -> RawField<'_>
    ensures { StartsWithField (IsFieldOf (quote ∷ inside.now)) result.raw.now result.quoted
        (option_copied result.rest) }
{
    let (raw, following) = split_quoted(inside);
    let rest = match following {
        Some(following) => rest_of(following),
        None => None,
    };
    RawField {
        raw,
        quoted: true,
        rest,
    }
}

/// Returns the remainder after the first comma.
fn rest_of(text: &str) -> Option<&str>
    ensures { option_copied result ≡ rest_after text.now }
{
    match split_text(text, b',') {
        Some((_, rest)) => Some(rest),
        None => None,
    }
}
