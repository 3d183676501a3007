//! Caches the feature of the previous word, so that its fields are located once for consecutive
//! words of one token.

ghost use Rattle.std.specs.Prelude.{◌≡◌, None};
ghost use Rattle.mj_model.specs.Printed.{feature_of};
ghost use Rattle.out_format.specs.WordContexts.{IsFeatureOf};
ghost use Rattle.word_lookup.specs.Overlays.{overlay_of};

use crate::part::Part;
use lex_source::FieldCache;
use mj_model::{FormatItem, Origin, Word};
use word_lookup::Dictionaries;

/// A token, and its feature with the positions of the fields that are printed.
#[derive(Drop)]
pub struct LastToken<'a> {
    pub origin: Option<Origin>,
    pub fields: FieldCache<'a>,
}

impl<'a> LastToken<'a> {
    /// Returns a cache without a token.
    pub fn none() -> LastToken<'a>
        ensures { result.origin ≡ None }
    {
        LastToken {
            origin: None,
            fields: FieldCache::of(""),
        }
    }

    /// Replaces the token by that of `word`, and locates the fields that `parts` print. Does
    /// nothing if the token is the cached one.
    pub fn switch_to(&mut self, dictionaries: &'a Dictionaries<'a>, word: &Word, parts: &[Part])
        requires { IsFeatureOf (overlay_of dictionaries.now) self.old.origin self.old.fields }
        ensures token { IsFeatureOf (overlay_of dictionaries.now) self.new.origin self.new.fields }
        ensures feature { self.new.fields
            ≡ feature_of (overlay_of dictionaries.now) word.now.origin }
    {
        if self.origin == Some(word.origin) {
            return;
        }
        self.origin = Some(word.origin);
        self.fields.switch_to(dictionaries.feature(word));
        find_printed(&mut self.fields, parts);
    }
}

/// Locates the fields that `parts` print.
fn find_printed(fields: &mut FieldCache<'_>, parts: &[Part])
    ensures { fields.new ≡ fields.old }
{
    for part in parts {
        if let Part::Item(FormatItem::Field(n)) = part {
            fields.seek(usize::from(*n));
        }
    }
}
