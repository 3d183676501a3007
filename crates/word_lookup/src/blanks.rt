//! The blanks at a position of a text.

ghost use Rattle.std.specs.Prelude.{◌≡◌, ◌<◌, ◌≤◌, List, ℕ, Some, chars, IsTrue};
ghost use Rattle.mj_model.specs.Blanks.{skip};
ghost use Rattle.mj_model.specs.Words.{is_place};
ghost use Rattle.word_lookup.specs.BlankScans.{IsBlankScan, IsCached, starts_with_blank};
ghost use Rattle.word_lookup.specs.FirstCharacters.{first_at, first_in};
ghost use Rattle.word_lookup.specs.Overlays.{overlay_of};
ghost use Rattle.word_lookup.specs.ScanCaches.{AreScansOver};

use crate::blank_scan::BlankScan;
use crate::dictionaries::Dictionaries;
use crate::first_character::FirstCharacter;
use crate::run::run_up_to;
use crate::scan_cache::ScanCache;
use crate::word_start::suffix;

impl<'a> Dictionaries<'a> {
    /// Returns the byte offset after the blanks at byte offset `place`, which must be a character
    /// boundary of `text`. Returns `place` if there are no blanks.
    #[inline(always)]
    pub fn blanks(&self, text: &str, place: usize) -> usize
        requires { IsTrue (is_place text.now place) }
        ensures { result ≡ skip (overlay_of self.now) text.now place }
    {
        let mut range = 0;
        match self.first_with_hint(suffix(text, place), &mut range) {
            Some(first) => self.blanks_with_hint(first, text, place, &mut range),
            None => place,
        }
    }

    /// Returns the position after the blanks at `place`, whose first character is `first`.
    ///
    /// `range` is a hint: the index of the code point range that was found last. Any value is
    /// valid.
    #[inline(always)]
    fn blanks_with_hint(
        &self,
        first: FirstCharacter,
        text: &str,
        place: usize,
        range: &mut usize,
    ) -> usize
        requires place { IsTrue (is_place text.now place) }
        requires first { Some first ≡ first_at (overlay_of self.now) text.now place }
        ensures { result ≡ skip (overlay_of self.now) text.now place }
    {
        if self.starts_with_blank(first) {
            self.end_of_blanks(text, place, range)
        } else {
            place
        }
    }

    /// Returns the position after the blanks at `place`, whatever its first character is. It is a
    /// function of its own because few positions have blanks.
    #[inline(never)]
    fn end_of_blanks(&self, text: &str, place: usize, range: &mut usize) -> usize
        requires { IsTrue (is_place text.now place) }
        ensures { result ≡ skip (overlay_of self.now) text.now place }
    {
        let rest = suffix(text, place);
        place + run_up_to(self.system, self.space, rest, rest.len(), range).bytes
    }

    /// Returns whether a text with the first character `first` starts with a blank: the character
    /// shares a category with U+0020. For most positions no other character is read.
    #[inline(always)]
    fn starts_with_blank(&self, first: FirstCharacter) -> bool
        ensures { (text : List ℕ)
            → Some first ≡ first_in (overlay_of self.now).system.info (chars text)
            → result ≡ starts_with_blank (overlay_of self.now) text }
    {
        self.space.shares(first.info)
    }

    /// Returns the position after the blanks at `place`. The positions of one text may come in any
    /// order; each run of blanks is scanned once if they come in increasing order.
    ///
    /// `first` is the first character at `place`. `last` caches the last run of blanks: for
    /// positions inside it only the first character matters.
    #[inline(always)]
    pub(crate) fn cached_blanks(
        &self,
        first: FirstCharacter,
        text: &str,
        place: usize,
        last: &mut ScanCache,
    ) -> usize
        requires place { IsTrue (is_place text.now place) }
        requires first { Some first ≡ first_at (overlay_of self.now) text.now place }
        requires last { AreScansOver (overlay_of self.now) text.now last.old }
        ensures after_blanks { result ≡ skip (overlay_of self.now) text.now place }
        ensures last { AreScansOver (overlay_of self.now) text.now last.new }
        // A run of blanks is scanned once, however many positions inside it are looked up.
        ensures scanned { IsCached place result last.new.blanks }
    {
        match last.blanks {
            Some(run) if run.contains(place) => self.blanks_within(run, first, text, place),
            _ => {
                let to = self.blanks_with_hint(first, text, place, &mut last.range);
                last.blanks = Some(BlankScan { from: place, to });
                to
            }
        }
    }

    /// Returns the position after the blanks at `place`, which lies in `run`: its end, unless there
    /// are none.
    #[inline(always)]
    fn blanks_within(
        &self,
        run: BlankScan,
        first: FirstCharacter,
        text: &str,
        place: usize,
    ) -> usize
        requires place { IsTrue (is_place text.now place) }
        requires first { Some first ≡ first_at (overlay_of self.now) text.now place }
        requires run { IsBlankScan (overlay_of self.now) text.now run }
        requires from { run.from ≤ place }
        requires to { place < run.to }
        ensures after_blanks { result ≡ skip (overlay_of self.now) text.now place }
        ensures within { result ≤ run.to }
    {
        if self.starts_with_blank(first) {
            run.to
        } else {
            place
        }
    }
}
