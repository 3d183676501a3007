//! A cache of fields that are looked up more than once in a text.
ghost use Rattle.std.specs.Prelude.{◌≡◌, ℕ, List, IfOk, IfSome, take, vec_len};
ghost use Rattle.lex_source.specs.Results.{GrowsByField};
ghost use Rattle.lex_source.specs.Spelled.{AreCachedFields, IsFieldAt};

use crate::fields::{append_found, find_field};
use crate::raw_field::RawField;
use arrayvec::ArrayVec;
use std::alloc::AllocError;
use std::marker::Model;

/// The maximum number of cached fields of a text. (This project's own choice)
const CACHED_MAX: usize = 16;

/// The number of a field, and the field in the text, if it exists.
#[derive(Clone, Copy, Default)]
pub(crate) struct CachedField<'a> {
    pub(crate) number: usize,
    pub(crate) found: Option<RawField<'a>>,
}

/// A text with the first fields that were looked up in it, so that each is searched for once.
#[derive(Drop)]
pub struct FieldCache<'a> {
    text: &'a str,
    kept: ArrayVec<CachedField<'a>, CACHED_MAX>,
}

impl<'a> Model for FieldCache<'a> {
    ghost use Rattle.std.specs.Prelude.{ℕ, List};
    ghost use Rattle.lex_source.specs.Spelled.{AreCachedFields};

    ghost Value = { List ℕ };

    ghost view = { λ s. s.text.now };

    ghost invariant = { λ s. AreCachedFields s.text.now s.kept.items };
}

impl<'a> FieldCache<'a> {
    /// Returns an empty cache for `text`. Does not allocate.
    pub fn of(text: &'a str) -> FieldCache<'a>
        ensures { result ≡ text.now }
    {
        FieldCache {
            text,
            kept: ArrayVec::new(),
        }
    }

    /// Replaces the text by `text`, and clears the cache.
    pub fn switch_to(&mut self, text: &'a str)
        ensures { self.new ≡ text.now }
    {
        self.kept.clear();
        self.text = text;
    }

    /// Returns the text.
    pub fn text(&self) -> &'a str
        ensures { result.now ≡ self.now }
    {
        self.text
    }

    /// Finds field `number`, counted from 0, and caches it. Does nothing if it is cached already,
    /// or if the cache holds 16 fields.
    pub fn seek(&mut self, number: usize)
        ensures { self.new ≡ self.old }
    {
        if self.kept.is_full() || cached_field(&self.kept, number).is_some() {
            return;
        }
        let found = find_field(self.text, number);
        self.kept.push(CachedField { number, found });
    }

    /// Appends field `number` of the text to `out`, without its quotes, and returns whether it
    /// exists. On an error a part of the field may have been appended.
    pub fn append_to(&self, number: usize, out: &mut Vec<u8>) -> Result<bool, AllocError>
        ensures appended { IfOk result (λ found. GrowsByField self.now number found
            out.old.items out.new.items) }
        ensures unchanged { take (vec_len out.old) out.new.items ≡ out.old.items }
    {
        let found = match cached_field(&self.kept, number) {
            Some(found) => found,
            None => find_field(self.text, number),
        };
        append_found(out, found)
    }
}

/// Returns what the cache holds for field `number`, or `None` if it is not cached.
fn cached_field<'a>(kept: &[CachedField<'a>], number: usize) -> Option<Option<RawField<'a>>>
    ensures { (text : List ℕ) → AreCachedFields text kept.now
        → IfSome result (IsFieldAt text number) }
{
    for sought in kept {
        if sought.number == number {
            return Some(sought.found);
        }
    }
    None
}
