//! Known words.

ghost use Rattle.std.specs.Prelude.{◌≡◌, ◌≤◌, length, take, vec_len, OnOk};
ghost use Rattle.word_lookup.specs.Overlays.{overlay_of};
ghost use Rattle.word_lookup.specs.Surfaces.{GrowsByWords};
ghost use Rattle.word_lookup.specs.WordsHere.{all_known_here, known_here, lexicon_of};

use crate::dictionaries::Dictionaries;
use crate::word_start::WordStart;
use mj_model::paths::{EntryList, Surface};
use std::alloc::AllocError;

impl<'a> Dictionaries<'a> {
    /// Appends the surfaces of the known words that start at `at`: those of the system dictionary,
    /// then those of each user dictionary. On an error, some of them may have been appended.
    #[inline(always)]
    pub(crate) fn append_known(
        &self,
        at: WordStart<'_>,
        out: &mut Vec<Surface>,
    ) -> Result<(), AllocError>
        ensures appended { OnOk result (GrowsByWords (overlay_of self.now)
            (all_known_here at.entry (overlay_of self.now)) out.old.items out.new.items) }
        ensures unchanged { take (vec_len out.old) out.new.items ≡ out.old.items }
    {
        for number in 0..self.users.len() + 1 {
            self.append_known_of(number, at, out)?;
        }
        Ok(())
    }

    /// Appends the surfaces of the known words of dictionary `number`, shorter ones first. On an
    /// error, some of them may have been appended.
    #[inline(always)]
    fn append_known_of(
        &self,
        number: usize,
        at: WordStart<'_>,
        out: &mut Vec<Surface>,
    ) -> Result<(), AllocError>
        requires { number ≤ length self.now.users.now }
        ensures appended { OnOk result (GrowsByWords (overlay_of self.now)
            (known_here at.entry number (lexicon_of (overlay_of self.now) number))
            out.old.items out.new.items) }
        ensures unchanged { take (vec_len out.old) out.new.items ≡ out.old.items }
    {
        let list = EntryList::Lexicon(number);
        let dict = self.numbered(number);
        for (length, entries) in dict.prefixes(at.rest) {
            out.push(at.surface(list, entries.row(), at.start + length))?;
        }
        Ok(())
    }
}
