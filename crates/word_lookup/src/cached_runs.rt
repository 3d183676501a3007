//! Runs of characters, cached for positions of a text in increasing order.

ghost use Rattle.std.specs.Prelude.{◌≡◌, ◌+◌, ◌<◌, ◌≤◌, ◌^◌, is_some, min, length, chars, drop, IfSome, IsTrue};
ghost use Rattle.std.proofs.Props.{props};
ghost use Rattle.std.specs.Char.{len_utf8};
ghost use Rattle.image_format.specs.ImageMeaning.{image_tables};
ghost use Rattle.mj_model.specs.Tables.{System};
ghost use Rattle.mj_model.specs.Run.{bytes_of, run};
ghost use Rattle.mj_model.specs.Words.{is_place};
ghost use Rattle.word_lookup.specs.CategoryScans.{AreCategoryScans, CoversUpTo, count_between as characters_between};

use crate::category_scan::CategoryScan;
use crate::run::{Run, run_up_to};
use crate::scan_cache::ScanCache;
use crate::unknown_start::UnknownStart;
use crate::word_start::suffix;
use dict_image::Dict;
use mj_model::CharInfo;

impl UnknownStart<'_> {
    /// Returns the run after the first character, counting at most `limit` characters.
    ///
    /// The bytes are exact if fewer than `limit` characters follow. `last` caches the runs that
    /// were scanned before. For positions in increasing order, each character is scanned once.
    #[inline(always)]
    pub fn run_after(self, limit: usize, last: &mut ScanCache) -> Run
        requires { AreCategoryScans (image_tables self.system.now).info
            self.at.text.now last.old }
        ensures characters { result.characters
            ≡ min limit (run (image_tables self.entry.system.now).info self.entry.info
            (chars (drop (len_utf8 self.entry.first) self.entry.at.rest.now))) }
        ensures bytes { result.characters < limit → result.bytes ≡ bytes_of result.characters
            (chars (drop (len_utf8 self.entry.first) self.entry.at.rest.now)) }
        ensures within { len_utf8 self.entry.first + result.bytes
            ≤ length self.entry.at.rest.now }
        ensures last { AreCategoryScans (image_tables self.entry.system.now).info
            self.entry.at.text.now last.new }
        ensures blanks { last.new.blanks ≡ last.old.blanks }
    {
        if limit == 0 {
            return Run {
                characters: 0,
                bytes: 0,
            };
        }
        let at = self.at;
        let text = CategorizedText {
            system: self.system,
            text: at.text,
        };
        let to = at.start + self.bytes;
        let is_here = at.start == at.place;
        let run = text.run_of_place(at.start, to, self.info, is_here, limit, last);
        Run {
            characters: run.characters.min(limit),
            bytes: run.bytes,
        }
    }
}

/// A text, and the system dictionary that gives its characters their categories.
#[derive(Clone, Copy)]
pub struct CategorizedText<'a> {
    pub system: &'a Dict,
    pub text: &'a str,
    ghost fits: { length text.now < 2 ^ 64 } by { Prim.hlevel props },
}

impl CategorizedText<'_> {
    ghost use Rattle.word_lookup.specs.TextRuns.{AreScansOf, IsRunOf, IsScannedRun, CoversRun, started_scan};

    /// Returns the run after the first character of a position, scanned until it is known whether
    /// `limit` characters follow.
    ///
    /// The first character lies from `from` to `to` and has the categories `first`. `is_here` is
    /// set if no blanks precede it.
    #[inline(always)]
    fn run_of_place(
        self,
        from: usize,
        to: usize,
        first: CharInfo,
        is_here: bool,
        limit: usize,
        last: &mut ScanCache,
    ) -> Run
        requires system { (image_tables self.system.now).kind ≡ System }
        requires started { IsRunOf self (started_scan from to first) }
        requires last { AreScansOf self last.old }
        ensures run { CoversRun self.entry from to limit result }
        ensures last { AreScansOf self.entry last.new }
        ensures blanks { last.new.blanks ≡ last.old.blanks }
    {
        if is_here {
            self.cached_run(from, to, first, limit, &mut last.here, &mut last.range)
        } else {
            self.cached_run(
                from,
                to,
                first,
                limit,
                &mut last.after_blanks,
                &mut last.range,
            )
        }
    }

    /// Returns the run after the first character of a position, which lies from `from` to `to` and
    /// has the categories `first`. Scans it until it is known whether `limit` characters follow.
    ///
    /// `last` caches the run of an earlier position. `range` is a hint: the index of the code point
    /// range that was found last. Any value is valid.
    #[inline(never)]
    fn cached_run(
        self,
        from: usize,
        to: usize,
        first: CharInfo,
        limit: usize,
        last: &mut Option<CategoryScan>,
        range: &mut usize,
    ) -> Run
        requires system { (image_tables self.system.now).kind ≡ System }
        requires started { IsRunOf self (started_scan from to first) }
        requires last { IfSome last.old (IsRunOf self) }
        ensures run { CoversRun self.entry from to limit result }
        ensures last { IfSome last.new (IsRunOf self.entry) }
        // What was scanned is not scanned again for later positions.
        ensures cached { IfSome last.new (IsScannedRun from to result) }
        ensures covered { IfSome last.new (CoversUpTo limit) }
        ensures some { IsTrue (is_some last.new) }
    {
        let started = CategoryScan {
            from,
            to,
            following: 0,
            last: first,
            is_whole: false,
        };
        let from_cache = self.from_cache(started, *last);
        let run = self.scan_up_to(limit, from_cache, range);
        *last = Some(run);
        Run {
            characters: run.following,
            bytes: run.to - to,
        }
    }

    /// Returns what is known of the run `started`, of which only the first character was scanned:
    /// the remainder of `last` from its position on if `last` contains it, otherwise `started`.
    #[inline(always)]
    fn from_cache(self, started: CategoryScan, last: Option<CategoryScan>) -> CategoryScan
        requires started { IsRunOf self started }
        requires last { IfSome last (IsRunOf self) }
        ensures run { IsRunOf self.entry result }
        ensures from { result.from ≡ started.from }
    {
        match last {
            Some(run) if run.contains(started.from) => self.run_from(run, started.from),
            _ => started,
        }
    }

    /// Returns the remainder of `run` from position `place` on.
    #[inline(always)]
    fn run_from(self, run: CategoryScan, place: usize) -> CategoryScan
        requires run { IsRunOf self run }
        requires place { IsTrue (is_place self.text.now place) }
        requires from { run.from ≤ place }
        requires to { place < run.to }
        ensures run { IsRunOf self.entry result }
        ensures from { result.from ≡ place }
    {
        let stepped = count_between(self.text, run.from, place);
        CategoryScan {
            from: place,
            to: run.to,
            following: run.following - stepped,
            last: run.last,
            is_whole: run.is_whole,
        }
    }

    /// Returns `run`, scanned further until it is known whether `limit` characters follow its first
    /// one.
    #[inline(always)]
    fn scan_up_to(self, limit: usize, run: CategoryScan, range: &mut usize) -> CategoryScan
        requires system { (image_tables self.system.now).kind ≡ System }
        requires run { IsRunOf self run }
        ensures run { IsRunOf self.entry result }
        ensures from { result.from ≡ run.from }
        ensures covered { CoversUpTo limit result }
    {
        if run.is_whole || limit <= run.following {
            return run;
        }
        let left = limit - run.following;
        let rest = suffix(self.text, run.to);
        let more = run_up_to(self.system, run.last, rest, left, range);
        CategoryScan {
            from: run.from,
            to: run.to + more.bytes,
            following: run.following + more.characters,
            last: more.last,
            is_whole: more.characters < left,
        }
    }
}

/// Returns the number of characters between two positions.
#[inline(always)]
fn count_between(text: &str, from: usize, to: usize) -> usize
    requires from { IsTrue (is_place text.now from) }
    requires to { IsTrue (is_place text.now to) }
    requires order { from ≤ to }
    ensures { result ≡ characters_between text.now from to }
{
    count(&text[from..to])
}

/// Returns the number of characters of a text.
#[inline(always)]
fn count(text: &str) -> usize
    ensures { result ≡ length (chars text.now) }
{
    text.chars().count()
}
