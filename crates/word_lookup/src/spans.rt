//! The numbers of characters of the unknown words of a position. (MeCab, `unk.def` and `char.def`)

ghost use Rattle.std.specs.Prelude.{◌≡◌, ◌+◌, ◌<◌, ◌≤◌, ◌||◌, ◌^◌, length, chars, drop, take, IfSome, max};
ghost use Rattle.std.specs.Char.{len_utf8};
ghost use Rattle.mj_model.specs.Run.{run, sharing_with};
ghost use Rattle.mj_model.specs.UnknownSpans.{spans_by, one_if_none};
ghost use Rattle.image_format.specs.ImageMeaning.{image_tables};
ghost use Rattle.word_lookup.specs.CategoryScans.{AreCategoryScans};
ghost use Rattle.word_lookup.specs.Spans.{spans_in, grouped_with, longest_of, lookahead, certainly_sharing, HasBytes};

use crate::run::{Run, sharing_up_to};
use crate::scan_cache::ScanCache;
use crate::unknown_start::UnknownStart;
use crate::word_start::suffix;
use mj_model::Category;

/// The unknown spans of a position, which are the numbers of characters of its unknown words: the
/// whole run, if it is grouped, and 1 to `longest`.
#[derive(Clone, Copy, Debug, Drop)]
pub struct Spans {
    pub grouped: Option<Run>,
    pub longest: usize,
}

impl UnknownStart<'_> {
    /// Returns the unknown spans of this position.
    ///
    /// `grouping` is the maximum number of characters that follow the first one of a grouped span.
    /// `none_known` is set if the position has no known word. `last` caches the runs that were
    /// scanned before.
    #[inline(always)]
    pub fn spans(self, grouping: u16, none_known: bool, last: &mut ScanCache) -> Spans
        requires { AreCategoryScans (image_tables self.system.now).info
            self.at.text.now last.old }
        ensures spans { spans_in result
            ≡ spans_by (image_tables self.entry.system.now) grouping none_known
            self.entry.first (chars (drop (len_utf8 self.entry.first) self.entry.at.rest.now)) }
        ensures bytes { IfSome result.grouped (HasBytes (chars self.entry.at.rest.now)) }
        ensures within { result.longest ≤ length (chars self.entry.at.rest.now) }
        ensures last { AreCategoryScans (image_tables self.entry.system.now).info
            self.entry.at.text.now last.new }
        ensures blanks { last.new.blanks ≡ last.old.blanks }
    {
        let category = self.system.category(usize::from(self.info.first()));
        if !makes_words(category, none_known) {
            return Spans {
                grouped: None,
                longest: 0,
            };
        }
        let ahead = lookahead(category, grouping);
        let run = self.run_after(ahead, last);
        let spans = Spans {
            grouped: grouped_run(category, grouping, self.bytes, run),
            longest: self.longest_length(category, run.characters),
        };
        at_least_one(none_known, spans)
    }

    /// Returns the longest of the spans that are not grouped, if `following` characters follow the
    /// first one in its run.
    #[inline(always)]
    fn longest_length(self, category: Category, following: usize) -> usize
        requires { following ≤ run (image_tables self.system.now).info self.info
            (chars (drop (len_utf8 self.first) self.at.rest.now)) }
        ensures { result ≡ longest_of category following
            (1 + sharing_with self.entry.info (image_tables self.entry.system.now).info
            (take category.length
            (chars (drop (len_utf8 self.entry.first) self.entry.at.rest.now)))) }
    {
        let most = longest_in_run(category, following);
        if most <= certainly_sharing(category) {
            return most;
        }
        let after_first = suffix(self.at.rest, self.bytes);
        most.min(1 + sharing_up_to(self.system, self.info, after_first, most - 1))
    }
}

/// Returns whether a category makes unknown words: by INVOKE, or because there is no known word.
#[inline(always)]
fn makes_words(category: Category, none_known: bool) -> bool
    ensures { result ≡ (category.invoke || none_known) }
{
    category.invoke || none_known
}

/// Returns how many characters after the first one have to be scanned for the run.
#[inline(always)]
fn lookahead(category: Category, grouping: u16) -> usize
    ensures { result ≡ lookahead category grouping }
{
    if !category.group {
        return 0;
    }
    (usize::from(grouping) + 1).max(usize::from(category.length))
}

/// Returns the whole run, if the category has GROUP and at most `grouping` characters follow the
/// first one, which takes `first` bytes.
#[inline(always)]
fn grouped_run(category: Category, grouping: u16, first: usize, run: Run) -> Option<Run>
    requires { first + run.bytes < 2 ^ 64 }
    ensures { result ≡ grouped_with category grouping first run }
{
    if category.group && run.characters <= usize::from(grouping) {
        Some(Run {
            characters: 1 + run.characters,
            bytes: first + run.bytes,
        })
    } else {
        None
    }
}

/// Returns the longest of the spans that are not grouped, if `following` characters follow the
/// first one in its run and all characters share a category with it.
#[inline(always)]
fn longest_in_run(category: Category, following: usize) -> usize
    ensures { result ≡ longest_of category following category.length }
{
    let longest = usize::from(category.length);
    if category.group {
        longest.min(following)
    } else {
        longest
    }
}

/// Returns how many characters certainly share a category with the first one: itself, and in a
/// grouped run the second one.
#[inline(always)]
fn certainly_sharing(category: Category) -> usize
    ensures { result ≡ certainly_sharing category }
{
    if category.group { 2 } else { 1 }
}

/// Returns `spans`, or the span of one character if there is no known word and no other span.
#[inline(always)]
fn at_least_one(none_known: bool, spans: Spans) -> Spans
    ensures spans { spans_in result ≡ one_if_none none_known (spans_in spans) }
    ensures grouped { result.grouped ≡ spans.grouped }
    ensures longest { result.longest ≤ max 1 spans.longest }
{
    if none_known && spans.grouped.is_none() && spans.longest == 0 {
        Spans {
            grouped: None,
            longest: 1,
        }
    } else {
        spans
    }
}
