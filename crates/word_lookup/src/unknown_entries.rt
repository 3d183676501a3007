//! The unknown entries of a category.

ghost use Rattle.std.specs.Prelude.{◌≡◌, ◌<◌, ◌≤◌, length, take, vec_len, chars, IfSome, OnOk};
ghost use Rattle.std.proofs.Props.{props};
ghost use Rattle.mj_model.specs.Lists.{up_to};
ghost use Rattle.word_lookup.specs.Overlays.{overlay_of};
ghost use Rattle.word_lookup.specs.Spans.{spans_in, HasBytes};
ghost use Rattle.word_lookup.specs.Surfaces.{GrowsByWords};

use crate::dictionaries::Dictionaries;
use crate::spans::Spans;
use crate::word_start::WordStart;
use mj_model::paths::{EntryList, Surface};
use std::alloc::AllocError;

/// The unknown entries of a category of a system dictionary.
#[derive(Clone, Copy)]
pub struct UnknownEntries<'a> {
    pub dictionaries: Dictionaries<'a>,
    pub category: usize,
    ghost there: { category < length (overlay_of dictionaries).system.categories } by { Prim.hlevel props },
}

impl<'a> UnknownEntries<'a> {
    ghost use Rattle.word_lookup.specs.UnknownEntries.{entries_of};
    ghost use Rattle.word_lookup.specs.WordsHere.{spans_here, unknown_up_to};

    /// Appends the surfaces of `spans` that start at `at` to `out`. On an error, some of them may
    /// have been appended.
    #[inline(always)]
    pub fn append_spans(
        self,
        spans: Spans,
        at: WordStart<'_>,
        out: &mut Vec<Surface>,
    ) -> Result<(), AllocError>
        requires bytes { IfSome spans.grouped (HasBytes (chars at.rest.now)) }
        requires within { spans.longest ≤ length (chars at.rest.now) }
        ensures appended { OnOk result (GrowsByWords (overlay_of self.entry.dictionaries)
            (spans_here at.entry (entries_of self.entry) (spans_in spans))
            out.old.items out.new.items) }
        ensures unchanged { take (vec_len out.old) out.new.items ≡ out.old.items }
    {
        if let Some(run) = spans.grouped {
            self.append_surface(at, at.start + run.bytes, out)?;
        }
        self.append_lengths(spans.longest, at, out)
    }

    /// Appends the surfaces of 1 to `longest` characters. On an error, some of them may have been
    /// appended.
    #[inline(always)]
    fn append_lengths(
        self,
        longest: usize,
        at: WordStart<'_>,
        out: &mut Vec<Surface>,
    ) -> Result<(), AllocError>
        requires { longest ≤ length (chars at.rest.now) }
        ensures appended { OnOk result (GrowsByWords (overlay_of self.entry.dictionaries)
            (spans_here at.entry (entries_of self.entry) (up_to longest))
            out.old.items out.new.items) }
        ensures unchanged { take (vec_len out.old) out.new.items ≡ out.old.items }
    {
        let mut end = at.start;
        for c in at.rest.chars().take(longest) {
            end += c.len_utf8();
            self.append_surface(at, end, out)?;
        }
        Ok(())
    }

    /// Appends the surface of the unknown words from `at` to `end`.
    #[inline(always)]
    fn append_surface(
        self,
        at: WordStart<'_>,
        end: usize,
        out: &mut Vec<Surface>,
    ) -> Result<(), AllocError>
        requires { at.start ≤ end }
        ensures appended { OnOk result (GrowsByWords (overlay_of self.entry.dictionaries)
            (unknown_up_to at.entry end (entries_of self.entry))
            out.old.items out.new.items) }
        ensures unchanged { take (vec_len out.old) out.new.items ≡ out.old.items }
    {
        let row = self.dictionaries.system.unknown(self.category).row();
        out.push(at.surface(EntryList::Categories, row, end))?;
        Ok(())
    }
}
