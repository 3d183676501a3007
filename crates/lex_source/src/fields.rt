//! Fields by their numbers.
ghost use Rattle.std.specs.Prelude.{◌≡◌, ℕ, List, IfOk, option_map, string_bytes, take, vec_len};
ghost use Rattle.lex_source.specs.Results.{GrowsByField, GrowsByFound, IsField};
ghost use Rattle.lex_source.specs.Spelled.{IsFieldAt};

use crate::raw_field::RawField;
use std::alloc::{AllocError, Global};
use std::string::String;

/// Returns field `n` of a line, counted from 0, without its quotes, or `None` if there are fewer
/// fields.
///
/// Blanks and tabs before a field are skipped. Bytes from a closing quote to the next comma are
/// ignored. (MeCab's CSV; what it leaves open is this project's own choice)
pub fn field(alloc: Global, text: &str, n: usize) -> Result<Option<String>, AllocError>
    ensures { IfOk result (λ found. IsField text.now n (option_map string_bytes found)) }
{
    match find_field(text, n) {
        Some(found) => Ok(Some(found.to_string(alloc)?)),
        None => Ok(None),
    }
}

/// Appends field `n` of the line `text` to `out`, without its quotes, and returns whether the field
/// exists. On an error a part of the field may have been appended.
pub fn append_field(out: &mut Vec<u8>, text: &str, n: usize) -> Result<bool, AllocError>
    ensures appended { IfOk result (λ found. GrowsByField text.now n found
        out.old.items out.new.items) }
    ensures unchanged { take (vec_len out.old) out.new.items ≡ out.old.items }
{
    append_found(out, find_field(text, n))
}

/// Appends the field `found` to `out`, without its quotes, and returns whether there is one. On an
/// error a part of the field may have been appended.
pub(crate) fn append_found(
    out: &mut Vec<u8>,
    found: Option<RawField<'_>>,
) -> Result<bool, AllocError>
    requires { (text : List ℕ) × (n : ℕ) × IsFieldAt text n found }
    ensures appended { IfOk result (λ there. GrowsByFound found.entry there
        out.old.items out.new.items) }
    ensures unchanged { take (vec_len out.old) out.new.items ≡ out.old.items }
{
    match found {
        Some(field) => {
            field.append_to(out)?;
            Ok(true)
        }
        None => Ok(false),
    }
}

/// Returns field `n` of the line `text`, counted from 0, or `None` if there are fewer fields.
pub(crate) fn find_field(text: &str, n: usize) -> Option<RawField<'_>>
    ensures { IsFieldAt text.now n result }
{
    let mut found = RawField::first(text);
    for _ in 0..n {
        found = RawField::first(found.rest?);
    }
    Some(found)
}
