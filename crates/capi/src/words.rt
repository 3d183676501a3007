//! Writes the words of the last path for C.

ghost use Rattle.std.specs.Prelude.{◌≡◌, ◌≤◌, length, drop};
ghost use Rattle.line_segmenter.specs.Faults.{IsNothingSegmented};
ghost use Rattle.line_segmenter.specs.PathEnds.{MayFollow, at_bos};
ghost use Rattle.capi.specs.Handles.{ItemsResult, segmenter_in};
ghost use Rattle.capi.specs.Outputs.{with_front};
ghost use Rattle.capi.specs.Words.{AreWordsWritten, c_word, c_words};
ghost use Rattle.word_lookup.specs.Overlays.{overlay_of};

use crate::handle::Handle;
use crate::items::CItem;
use line_segmenter::{LastWords, PathEnd, SegmentFault, Segmenter};
use mj_model::{Origin, Word};
use std::alloc::Global;

/// A word of the last path, in the layout of the C header.
///
/// `place`, `start` and `end` are byte offsets into the text: the start of the word's blanks, and
/// start and end of its surface. `token` is the number of the word's entry. If `known` is 1, it is
/// an entry of the dictionary with number `dictionary`. If `known` is 0, it is an entry of the
/// system dictionary, whose unknown entries are numbered after those of its lexicon.
///
/// `category` is the number of the first category of the surface's first character. `total` is the
/// cost of the path up to and including the word. `feature_length` is the number of bytes of its
/// feature.
#[repr(C)]
#[derive(Clone, Copy, Debug, PartialEq, Eq, Drop)]
pub struct CWord {
    pub place: usize,
    pub start: usize,
    pub end: usize,
    pub dictionary: usize,
    pub token: u32,
    pub left: u16,
    pub right: u16,
    pub cost: i16,
    pub known: u8,
    pub category: u8,
    pub total: i64,
    pub feature_length: usize,
}

/// Converts a word for C. `total` is the cost of the path up to and including it.
pub fn word_for_c(word: &Word, category: u8, total: i64, feature_length: usize) -> CWord
    ensures { result ≡ c_word word.now category total feature_length }
{
    let (known, dictionary, token) = match word.origin {
        Origin::Known { dict, token } => (1, dict, token),
        Origin::Unknown { token } => (0, 0, token),
    };
    CWord {
        place: word.place,
        start: word.start,
        end: word.end,
        dictionary,
        token,
        left: word.left,
        right: word.right,
        cost: word.cost,
        known,
        category,
        total,
        feature_length,
    }
}

/// Returns the end of the path before word `number`.
fn path_end_before(last: &LastWords<'_>, number: usize) -> PathEnd
    requires follow { MayFollow (overlay_of last.now.dictionaries) last.now.text.now at_bos
        last.now.words.now }
    requires within { number ≤ length last.now.words.now }
    ensures words { drop number (c_words (overlay_of last.now.dictionaries) last.now.text.now at_bos
        last.now.words.now) ≡ c_words (overlay_of last.now.dictionaries) last.now.text.now result
        (drop number last.now.words.now) }
    ensures follow { MayFollow (overlay_of last.now.dictionaries) last.now.text.now result
        (drop number last.now.words.now) }
{
    let mut reached = PathEnd { right: 0, total: 0 };
    for i in 0..number {
        reached = last.path_end_after(reached, &last.words[i]);
    }
    reached
}

/// Writes `words`, which follow the path that ends with `before`, into `out`, as many as fit.
fn fill(last: &LastWords<'_>, words: &[Word], before: PathEnd, out: &mut [CWord])
    requires { MayFollow (overlay_of last.now.dictionaries) last.now.text.now before words.now }
    ensures { out.new ≡ with_front
        (c_words (overlay_of last.now.dictionaries) last.now.text.now before words.now) out.old }
{
    let mut reached = before;
    for i in 0..words.len().min(out.len()) {
        let word = &words[i];
        reached = last.path_end_after(reached, word);
        let feature = last.dictionaries.feature(word);
        out[i] = word_for_c(word, last.category(word), reached.total, feature.len());
    }
}

impl CItem for CWord {
    ghost use Rattle.capi.specs.Words.{AreWordsWritten};
    ghost use Rattle.line_segmenter.specs.Faults.{IsNothingSegmented};

    ghost written = { AreWordsWritten };

    ghost rejected = { IsNothingSegmented };

    fn write(
        segmenter: &Segmenter,
        first: usize,
        out: &mut [CWord],
        count: &mut usize,
    ) -> Result<(), SegmentFault> {
        let last = segmenter.last_words()?;
        *count = last.words.len();
        let from = first.min(last.words.len());
        let before = path_end_before(&last, from);
        fill(&last, &last.words[from..], before, out);
        Ok(())
    }
}

/// Writes the words of the last path from index `first` into `out`, as many as fit. Stores the
/// number of all words in `count`.
#[unsafe(no_mangle)]
pub extern "C" fn kumquatsieve_words(
    alloc: Global,
    segmenter: &mut Handle,
    first: usize,
    out: &mut [CWord],
    count: &mut usize,
) -> u32
    ensures { ItemsResult AreWordsWritten IsNothingSegmented first (segmenter_in segmenter.old)
        (segmenter_in segmenter.new) out.old out.new count.old count.new result }
{
    segmenter.write_items(alloc, first, out, count)
}
