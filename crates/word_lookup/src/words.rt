//! The words of a position, one by one.

ghost use Rattle.std.specs.Prelude.{◌≡◌, ◌++◌, [], flat_map, take, vec_len, IsTrue, IsOk, OnOk, OnErr};
ghost use Rattle.std.specs.List.{AllByRecursion};
ghost use Rattle.mj_model.specs.Surfaces.{IsWhole};
ghost use Rattle.mj_model.specs.Words.{is_place, words};
ghost use Rattle.word_lookup.specs.Overlays.{overlay_of};
ghost use Rattle.word_lookup.specs.Surfaces.{surface_words};

use crate::dictionaries::Dictionaries;
use crate::scan_cache::ScanCache;
use mj_model::Word;
use mj_model::paths::Surface;
use std::alloc::{AllocError, Global};

impl Dictionaries<'_> {
    /// Appends the words at `place`, after the blanks there, to `out`: first the known words,
    /// dictionary by dictionary and shorter ones first, then the unknown words. `place` is a byte
    /// offset at a character boundary of `text`. On an allocation failure `out` is unchanged.
    pub fn words_at(
        &self,
        alloc: Global,
        text: &str,
        place: usize,
        out: &mut Vec<Word>,
    ) -> Result<(), AllocError>
        requires { IsTrue (is_place text.now place) }
        ensures appended { OnOk result (out.new.items
            ≡ out.old.items ++ words (overlay_of self.now) text.now place) }
        ensures unchanged { OnErr result (out.new.items ≡ out.old.items) }
        // Without words nothing is allocated.
        ensures none { words (overlay_of self.now) text.now place ≡ [] → IsOk result }
    {
        let mut surfaces = Vec::new(alloc);
        let mut last = ScanCache::none();
        self.surfaces_at(text, place, &mut last, &mut surfaces)?;
        let count = out.len();
        let appended = self.append_words(&surfaces, out);
        if appended.is_err() {
            out.truncate(count);
        }
        appended
    }

    /// Appends the words of surfaces of these dictionaries. On an error, some of them may have been
    /// appended.
    fn append_words(&self, surfaces: &[Surface], out: &mut Vec<Word>) -> Result<(), AllocError>
        requires { AllByRecursion (IsWhole (surface_words (overlay_of self.now))) surfaces.now }
        ensures appended { OnOk result (out.new.items
            ≡ out.old.items ++ flat_map (surface_words (overlay_of self.now)) surfaces.now) }
        ensures unchanged { take (vec_len out.old) out.new.items ≡ out.old.items }
        ensures none { surfaces.now ≡ [] → IsOk result }
    {
        for surface in surfaces {
            self.append_words_of(surface, out)?;
        }
        Ok(())
    }

    /// Appends the words of one surface. On an error, some of them may have been appended.
    fn append_words_of(&self, surface: &Surface, out: &mut Vec<Word>) -> Result<(), AllocError>
        requires { IsWhole (surface_words (overlay_of self.now)) surface.now }
        ensures appended { OnOk result (out.new.items
            ≡ out.old.items ++ surface_words (overlay_of self.now) surface.now) }
        ensures unchanged { take (vec_len out.old) out.new.items ≡ out.old.items }
    {
        for i in 0..surface.count {
            out.push(self.word(surface, i))?;
        }
        Ok(())
    }
}
