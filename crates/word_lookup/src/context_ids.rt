//! The context ids of the words of a text.

ghost use Rattle.std.specs.List.{AllByRecursion};
ghost use Rattle.std.specs.Prelude.{◌*◌, ◌≤◌, IfOk, length};
ghost use Rattle.std.specs.Str.{IsCharBoundary};
ghost use Rattle.dict_image.specs.ContextIds.{HaveSameSizes};
ghost use Rattle.word_lookup.specs.declared.context_ids.TheConstants.{COLLECTED_MAX as CollectedMax};
ghost use Rattle.mj_model.specs.Surfaces.{IsWhole};
ghost use Rattle.word_lookup.specs.Overlays.{overlay_of};
ghost use Rattle.word_lookup.specs.ScanCaches.{AreScansOver};
ghost use Rattle.word_lookup.specs.Surfaces.{surface_words};

use crate::dictionaries::Dictionaries;
use crate::scan_cache::ScanCache;
use dict_image::ContextIds;
use mj_model::paths::Surface;
use std::alloc::{AllocError, Global};

/// The greatest number of words of a position whose context ids are collected. (This project's own
/// choice.)
///
/// UniDic has fewer at each position. The bound is for dictionaries with thousands of words of one
/// surface.
pub const COLLECTED_MAX: u32 = 128;

impl Dictionaries<'_> {
    /// Adds the context ids of the first `COLLECTED_MAX` words of each position of `text` to `ids`,
    /// in order, and returns the number of these words. Runs of characters are cached, so that each
    /// character is scanned once. If an allocation fails, some ids may have been added.
    pub fn collect_context_ids(
        &self,
        alloc: Global,
        text: &str,
        ids: &mut ContextIds,
    ) -> Result<usize, AllocError>
        ensures sizes { HaveSameSizes ids.old ids.new }
        ensures bounded { IfOk result (λ collected. collected ≤ CollectedMax * length text.now) }
    {
        let mut surfaces = Vec::new(alloc);
        let mut last = ScanCache::none();
        let mut collected: usize = 0;
        for place in 0..text.len() {
            if text.is_char_boundary(place) {
                let more = self.collect_at(text, place, &mut last, &mut surfaces, ids)?;
                collected = collected.saturating_add(more as usize);
            }
        }
        Ok(collected)
    }

    /// Adds the context ids of the first `COLLECTED_MAX` words of position `place`, and returns the
    /// number of these words.
    ///
    /// `last` caches the runs that were scanned before, and `surfaces` is a buffer.
    fn collect_at(
        &self,
        text: &str,
        place: usize,
        last: &mut ScanCache,
        surfaces: &mut Vec<Surface>,
        ids: &mut ContextIds,
    ) -> Result<u32, AllocError>
        requires place { IsCharBoundary text.now place }
        requires last { AreScansOver (overlay_of self.now) text.now last.old }
        ensures last { AreScansOver (overlay_of self.now) text.now last.new }
        ensures sizes { HaveSameSizes ids.old ids.new }
        ensures bounded { IfOk result (λ collected. collected ≤ CollectedMax) }
    {
        surfaces.clear();
        self.surfaces_at(text, place, last, surfaces)?;
        self.collect_surfaces(surfaces, ids)
    }

    /// Adds the context ids of the first `COLLECTED_MAX` words of surfaces of these dictionaries,
    /// and returns the number of these words.
    fn collect_surfaces(
        &self,
        surfaces: &[Surface],
        ids: &mut ContextIds,
    ) -> Result<u32, AllocError>
        requires { AllByRecursion (IsWhole (surface_words (overlay_of self.now))) surfaces.now }
        ensures sizes { HaveSameSizes ids.old ids.new }
        ensures bounded { IfOk result (λ collected. collected ≤ CollectedMax) }
    {
        let mut collected = 0;
        for surface in surfaces {
            let count = surface.count.min(COLLECTED_MAX - collected);
            self.collect_first(surface, count, ids)?;
            collected += count;
        }
        Ok(collected)
    }

    /// Adds the context ids of the first `count` words of one surface.
    fn collect_first(
        &self,
        surface: &Surface,
        count: u32,
        ids: &mut ContextIds,
    ) -> Result<(), AllocError>
        requires surface { IsWhole (surface_words (overlay_of self.now)) surface.now }
        requires count { count ≤ surface.now.count }
        ensures { HaveSameSizes ids.old ids.new }
    {
        let words = self.words_of(surface);
        for i in 0..count {
            let word = words.word(i);
            ids.add(word.left, word.right)?;
        }
        Ok(())
    }
}
