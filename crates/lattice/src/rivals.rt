//! The rivals of the words of a text's best path.

ghost use Rattle.std.specs.Prelude.{◌≤◌, length, IfOk};
ghost use Rattle.mj_model.specs.declared.limits.TheConstants.{SENTENCE_MAX};
ghost use Rattle.mj_model.specs.BestOver.{IsBestPathOver};
ghost use Rattle.viterbi.specs.Rivals.RivalsState.{AreRivalsIn};
ghost use Rattle.word_lookup.specs.Overlays.{overlay_of};
ghost use Rattle.lattice.specs.TextOver.{text_over};

use crate::dictionary_text::DictionaryText;
use mj_model::Word;
use std::alloc::{AllocError, Global};
use viterbi::rivals::{Rivals, rivals_of};
use word_lookup::Dictionaries;

/// Prepares the search for the rivals of the words of `best`, the best path of a text of at most
/// `SENTENCE_MAX` bytes.
pub fn rivals_over(
    alloc: Global,
    dictionaries: &Dictionaries<'_>,
    text: &str,
    best: &[Word],
) -> Result<Rivals, AllocError>
    requires short { length text.now ≤ SENTENCE_MAX }
    requires best { IsBestPathOver (overlay_of dictionaries.now) text.now best.now }
    ensures { IfOk result
        (AreRivalsIn (text_over (overlay_of dictionaries.now) text.now) best.now) }
{
    rivals_of(alloc, &DictionaryText { dictionaries, text }, best)
}
