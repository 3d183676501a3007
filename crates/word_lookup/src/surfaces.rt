//! The words of a position, grouped by surface.

ghost use Rattle.std.specs.Prelude.{◌≡◌, ◌<◌, [], Some, chars, length, take, vec_len, IsTrue, IsOk, OnOk, OnErr};
ghost use Rattle.mj_model.specs.Blanks.{skip};
ghost use Rattle.mj_model.specs.Words.{is_place, words, words_from};
ghost use Rattle.word_lookup.specs.CategoryScans.{AreCategoryScans};
ghost use Rattle.word_lookup.specs.FirstCharacters.{first_at, first_in};
ghost use Rattle.word_lookup.specs.Overlays.{overlay_of};
ghost use Rattle.word_lookup.specs.ScanCaches.{AreScansOver, IsScannedAt};
ghost use Rattle.word_lookup.specs.Surfaces.{GrowsByWords};
ghost use Rattle.word_lookup.specs.WordsHere.{unknown_here};

use crate::blank_scan::BlankScan;
use crate::dictionaries::Dictionaries;
use crate::first_character::FirstCharacter;
use crate::scan_cache::ScanCache;
use crate::unknown_entries::UnknownEntries;
use crate::unknown_start::UnknownStart;
use crate::word_start::{WordStart, suffix};
use mj_model::paths::Surface;
use std::alloc::AllocError;

impl<'a> Dictionaries<'a> {
    /// Appends the words at byte offset `place`, a character boundary of `text`, to `out`, grouped
    /// by surface and in the order of `words_at`.
    ///
    /// `last` caches the runs of this text that were scanned before; start each text with
    /// `ScanCache::none()`. For positions in increasing order, each run is scanned once. On an
    /// allocation failure `out` is unchanged.
    #[inline(always)]
    pub fn surfaces_at(
        &self,
        text: &str,
        place: usize,
        last: &mut ScanCache,
        out: &mut Vec<Surface>,
    ) -> Result<(), AllocError>
        requires place { IsTrue (is_place text.now place) }
        requires last { AreScansOver (overlay_of self.now) text.now last.old }
        ensures appended { OnOk result (GrowsByWords (overlay_of self.now)
            (words (overlay_of self.now) text.now place) out.old.items out.new.items) }
        ensures unchanged { OnErr result (out.new.items ≡ out.old.items) }
        // Without words nothing is allocated.
        ensures none { words (overlay_of self.now) text.now place ≡ [] → IsOk result }
        ensures last { AreScansOver (overlay_of self.now) text.now last.new }
        ensures scanned { IsScannedAt (overlay_of self.now) text.now place last.new }
    {
        let Some(first) = self.first_with_hint(suffix(text, place), &mut last.range) else {
            last.blanks = Some(BlankScan {
                from: place,
                to: place,
            });
            return Ok(());
        };
        let start = self.cached_blanks(first, text, place, last);
        if start == text.len() {
            return Ok(());
        }
        let count = out.len();
        let appended = self.append_surfaces(first, text, place, start, last, out);
        if appended.is_err() {
            out.truncate(count);
        }
        appended
    }

    /// Appends the surfaces of position `place`, which start at `start`. `first` is the first
    /// character at `place`. On an error, some of them may have been appended.
    #[inline(always)]
    fn append_surfaces(
        &self,
        first: FirstCharacter,
        text: &str,
        place: usize,
        start: usize,
        last: &mut ScanCache,
        out: &mut Vec<Surface>,
    ) -> Result<(), AllocError>
        requires there { IsTrue (is_place text.now place) }
        requires first { Some first ≡ first_at (overlay_of self.now) text.now place }
        requires after_blanks { start ≡ skip (overlay_of self.now) text.now place }
        requires within { start < length text.now }
        requires last { AreCategoryScans (overlay_of self.now).system.info text.now last.old }
        ensures appended { OnOk result (GrowsByWords (overlay_of self.now)
            (words_from (overlay_of self.now) text.now place start) out.old.items out.new.items) }
        ensures unchanged { take (vec_len out.old) out.new.items ≡ out.old.items }
        ensures last { AreCategoryScans (overlay_of self.now).system.info text.now last.new }
        ensures blanks { last.new.blanks ≡ last.old.blanks }
    {
        let count = out.len();
        let at = WordStart {
            place,
            start,
            text,
            rest: suffix(text, start),
        };
        let first = self.first_after_blanks(first, at, &mut last.range);
        self.append_known(at, out)?;
        let none_known = out.len() == count;
        self.append_unknown(first, at, none_known, last, out)
    }

    /// Returns the first character after the blanks. `first` is the first character at the
    /// position: the result if there are no blanks.
    #[inline(always)]
    fn first_after_blanks(
        &self,
        first: FirstCharacter,
        at: WordStart<'_>,
        range: &mut usize,
    ) -> FirstCharacter
        requires first { Some first ≡ first_at (overlay_of self.now) at.text.now at.place }
        requires within { at.start < length at.text.now }
        ensures { Some result ≡ first_in (overlay_of self.now).system.info
            (chars at.entry.rest.now) }
    {
        if at.start == at.place {
            return first;
        }
        self.first_with_hint(at.rest, range).unwrap_or(first)
    }

    /// Appends the surfaces of the unknown words that start at `at` with the character `first`.
    /// `none_known` is set if the position has no known word. On an error, some of the surfaces may
    /// have been appended.
    #[inline(always)]
    fn append_unknown(
        &self,
        first: FirstCharacter,
        at: WordStart<'_>,
        none_known: bool,
        last: &mut ScanCache,
        out: &mut Vec<Surface>,
    ) -> Result<(), AllocError>
        requires first { Some first ≡ first_in (overlay_of self.now).system.info
            (chars at.rest.now) }
        requires last { AreCategoryScans (overlay_of self.now).system.info at.text.now last.old }
        ensures appended { OnOk result (GrowsByWords (overlay_of self.now)
            (unknown_here at.entry (overlay_of self.now) none_known) out.old.items out.new.items) }
        ensures unchanged { take (vec_len out.old) out.new.items ≡ out.old.items }
        ensures last { AreCategoryScans (overlay_of self.now).system.info
            at.entry.text.now last.new }
        ensures blanks { last.new.blanks ≡ last.old.blanks }
    {
        let character = first.character;
        let start = UnknownStart {
            system: self.system,
            at,
            first: character,
            bytes: first.bytes,
            info: first.info,
        };
        let spans = start.spans(self.grouping, none_known, last);
        let entries = UnknownEntries {
            dictionaries: *self,
            category: usize::from(first.info.first()),
        };
        entries.append_spans(spans, at, out)
    }
}
