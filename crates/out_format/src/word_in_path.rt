//! Prints the items of a word in its path.

ghost use Rattle.std.specs.Prelude.{◌≡◌, ◌++◌, ◌≤◌, length, take, drop, vec_len, OnOk, IsTrue};
ghost use Rattle.mj_model.specs.Laws.{between};
ghost use Rattle.mj_model.specs.Printed.{feature_of};
ghost use Rattle.out_format.specs.Results.{GrowsByField};
ghost use Rattle.out_format.specs.PrintedPaths.{connection_before, cost_here, first_category as category_of_first, unknown_digit};
ghost use Rattle.mj_model.specs.Words.{is_place};
ghost use Rattle.out_format.specs.WordContexts.{IsWordInPath, chars_of, overlay_in, word_context};

use crate::appending::{append_bytes, append_cost, append_count, append_printed_field};
use crate::item_printer::ItemPrinter;
use crate::line::Line;
use lex_source::FieldCache;
use mj_model::{FormatItem, Origin, Word};
use std::alloc::AllocError;
use word_lookup::Dictionaries;

/// A word of a line in its path.
///
/// `line.cost` is the cost of the path up to and including the word. `right_before` is the right id
/// of the word before it, and `fields` is its feature.
#[derive(Clone, Copy)]
pub struct WordInPath<'a, 'f> {
    pub dictionaries: &'a Dictionaries<'a>,
    pub line: Line<'a>,
    pub word: &'f Word,
    pub right_before: u16,
    pub fields: &'f FieldCache<'a>,
}

impl<'a, 'f> ItemPrinter for WordInPath<'a, 'f> {
    ghost use Rattle.out_format.specs.PrintedPaths.{PrintsItem};
    ghost use Rattle.out_format.specs.WordContexts.{IsWordInPath, overlay_in, word_context};

    ghost is_printable = { IsWordInPath };

    ghost prints = { λ w. PrintsItem (overlay_in w) w.line.text.now (word_context w) };

    fn append_item(&self, item: FormatItem, out: &mut Vec<u8>) -> Result<(), AllocError> {
        let word = self.word;
        match item {
            FormatItem::Surface => self.append_between(word.start, word.end, out),
            FormatItem::SurfaceWithBlanks => self.append_between(word.place, word.end, out),
            FormatItem::Blanks => self.append_between(word.place, word.start, out),
            FormatItem::Feature => append_bytes(self.feature().as_bytes(), out),
            FormatItem::Field(n) => self.append_field(n, out),
            FormatItem::WordCost => append_cost(i64::from(word.cost), out),
            FormatItem::IsUnknown => append_bytes(unknown_mark(word.origin), out),
            FormatItem::LeftId => append_count(usize::from(word.left), out),
            FormatItem::RightId => append_count(usize::from(word.right), out),
            FormatItem::ConnectionCost => append_cost(self.connection_cost(), out),
            FormatItem::CostHere => append_cost(self.cost_here(), out),
            FormatItem::SurfaceLength => append_count(word.end - word.start, out),
            FormatItem::LengthWithBlanks => append_count(word.end - word.place, out),
            FormatItem::Start => append_count(word.start, out),
            FormatItem::End => append_count(word.end, out),
            FormatItem::CharacterCategory => append_count(self.first_category(), out),
            _ => self.line.append_item(item, out),
        }
    }
}

impl<'a, 'f> WordInPath<'a, 'f> {
    /// Appends the bytes of the line from offset `from` to offset `to`.
    fn append_between(&self, from: usize, to: usize, out: &mut Vec<u8>) -> Result<(), AllocError>
        requires forward { from ≤ to }
        requires within { to ≤ length self.now.line.text.now }
        ensures appended { OnOk result (out.new.items ≡ out.old.items
            ++ between self.now.line.text.now from to) }
        ensures unchanged { take (vec_len out.old) out.new.items ≡ out.old.items }
    {
        append_bytes(&self.line.text.as_bytes()[from..to], out)
    }

    /// Returns the feature of the word.
    fn feature(&self) -> &str
        requires { IsWordInPath self.now }
        ensures { result.now ≡ feature_of (overlay_in self.now) self.now.word.now.origin }
    {
        self.fields.text()
    }

    /// Appends field `n` of the feature, or nothing if it is missing or starts with `*`.
    fn append_field(&self, n: u16, out: &mut Vec<u8>) -> Result<(), AllocError>
        requires { IsWordInPath self.now }
        ensures appended { OnOk result (GrowsByField
            (feature_of (overlay_in self.now) self.now.word.now.origin) n
            out.old.items out.new.items) }
        ensures unchanged { take (vec_len out.old) out.new.items ≡ out.old.items }
    {
        append_printed_field(self.fields, n, out)
    }

    /// Returns the cost of the connection with the word before.
    fn connection_cost(&self) -> i64
        requires { IsWordInPath self.now }
        ensures { result ≡ connection_before (overlay_in self.now) (word_context self.now) }
    {
        i64::from(self.dictionaries.cost(self.right_before, self.word.left))
    }

    /// Returns the sum of the connection cost and the word cost.
    fn cost_here(&self) -> i64
        requires { IsWordInPath self.now }
        ensures { result ≡ cost_here (overlay_in self.now) (word_context self.now) }
    {
        let connection = self.dictionaries.cost(self.right_before, self.word.left);
        i64::from(connection) + i64::from(self.word.cost)
    }

    /// Returns the number of the first category of the surface's first character.
    fn first_category(&self) -> usize
        requires { IsWordInPath self.now }
        ensures { result ≡ category_of_first (overlay_in self.now) (chars_of self.now) }
    {
        match text_from(self.line.text, self.word.start).chars().next() {
            Some(first) => usize::from(self.dictionaries.info(first).first()),
            None => 0,
        }
    }
}

/// Returns the suffix of `text` from the byte offset `place`.
fn text_from(text: &str, place: usize) -> &str
    requires { IsTrue (is_place text.now place) }
    ensures { result.now ≡ drop place text.now }
{
    &text[place..]
}

/// Returns `0` for a known word, `1` for an unknown one.
fn unknown_mark(origin: Origin) -> &'static [u8]
    ensures { result.now ≡ unknown_digit origin }
{
    match origin {
        Origin::Known { .. } => b"0",
        Origin::Unknown { .. } => b"1",
    }
}
