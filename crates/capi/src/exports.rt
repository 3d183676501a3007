//! Functions for C that share, set up, use and free a segmenter. Each returns a code.

ghost use Rattle.std.specs.Prelude.{◌≡◌, ◌≢◌, None};
ghost use Rattle.line_segmenter.specs.Faults.{IsGroupingError, IsLineError, IsTextError};
ghost use Rattle.capi.specs.Calls.{IsGoodLine, IsGoodText, IsShared, SegmentResult, reported_size};
ghost use Rattle.capi.specs.Handles.{FillsFrom, IsCallError, IsShareError, Moves, CallResult, ChangeResult, segmenter_in};
ghost use Rattle.capi.specs.Outputs.{OnlyFaultsSet, PositionResult};
ghost use Rattle.capi.specs.Settings.{AreUtf8, IsPlaceInTexts, IsRegrouped, IsSettingError, SetsFormat, four, place_at, texts_in};

use crate::codes::code_of_result;
use crate::handle::Handle;
use crate::segmenting::{Extent, result_with_size};
use crate::settings::Texts;
use crate::{loading, settings};
use std::alloc::Global;

/// Fills the empty handle `segmenter` with a segmenter that shares the dictionaries and the format of
/// `other`.
#[unsafe(no_mangle)]
pub extern "C" fn kumquatsieve_share(
    alloc: Global,
    segmenter: &mut Handle,
    other: &mut Handle,
) -> u32
    ensures shared { (result ≡ 0)
        → FillsFrom (segmenter_in segmenter.old) (segmenter_in other.old)
        (segmenter_in segmenter.new) IsShared }
    ensures other { segmenter_in other.new ≡ segmenter_in other.old }
    ensures rejected { (result ≢ 0) → CallResult
        (IsShareError (segmenter_in segmenter.old) (segmenter_in other.old)) result }
    ensures unchanged { (result ≢ 0) → segmenter_in segmenter.new ≡ segmenter_in segmenter.old }
{
    code_of_result(loading::share(alloc, segmenter, other))
}

/// Sets the format by its four texts. If a text is invalid, `part` is set to its number, 0 to 3,
/// and `at` to the byte offset in it. Other results leave both unchanged.
#[unsafe(no_mangle)]
pub extern "C" fn kumquatsieve_set_format(
    alloc: Global,
    segmenter: &mut Handle,
    node: &[u8],
    unk: &[u8],
    bos: &[u8],
    eos: &[u8],
    part: &mut u32,
    at: &mut usize,
) -> u32
    ensures set { (result ≡ 0) → Moves (segmenter_in segmenter.old) (segmenter_in segmenter.new)
        (SetsFormat (texts_in node.now unk.now bos.now eos.now)) }
    ensures accepted { (result ≡ 0) → AreUtf8 node.now unk.now bos.now eos.now }
    ensures rejected { (result ≢ 0) → PositionResult
        (IsCallError (segmenter_in segmenter.old)
        (λ _. IsSettingError node.now unk.now bos.now eos.now))
        (IsPlaceInTexts (four node.now unk.now bos.now eos.now))
        (place_at part.old at.old) (place_at part.new at.new) result }
    ensures unchanged { (result ≢ 0) → segmenter_in segmenter.new ≡ segmenter_in segmenter.old }
    ensures unset { OnlyFaultsSet result (place_at part.old at.old) (place_at part.new at.new) }
{
    let texts = Texts {
        node,
        unk,
        bos,
        eos,
    };
    code_of_result(settings::set_format(alloc, segmenter, texts, part, at))
}

/// Sets the number of characters that may follow the first one of a grouped unknown word.
#[unsafe(no_mangle)]
pub extern "C" fn kumquatsieve_set_grouping(
    alloc: Global,
    segmenter: &mut Handle,
    grouping: u32,
) -> u32
    ensures { ChangeResult (segmenter_in segmenter.old) (segmenter_in segmenter.new)
        (IsRegrouped grouping) (λ _. IsGroupingError grouping) result }
{
    code_of_result(segmenter.call(alloc, |session| session.set_grouping(grouping)))
}

/// Segments `line`, which must not contain an LF. Stores the number of words in `count` and the
/// cost of the path in `total`.
///
/// If the line is invalid, `at` is set: to the offset of the first LF, to the offset of the first
/// byte that is not UTF-8, or to the length of a line that is too long.
#[unsafe(no_mangle)]
pub extern "C" fn kumquatsieve_segment(
    alloc: Global,
    segmenter: &mut Handle,
    line: &[u8],
    count: &mut usize,
    total: &mut i64,
    at: &mut usize,
) -> u32
    ensures { SegmentResult (segmenter_in segmenter.old) (segmenter_in segmenter.new)
        line.now IsGoodLine IsLineError
        (reported_size count.old total.old) (reported_size count.new total.new)
        at.old at.new result }
{
    let outcome = segmenter.call(alloc, |session| session.segment(Extent::Line, line));
    result_with_size(outcome, line, count, total, at)
}

/// Segments `text` as one line. An LF in it is a character like any other. The outputs are those of
/// `kumquatsieve_segment`.
#[unsafe(no_mangle)]
pub extern "C" fn kumquatsieve_segment_whole(
    alloc: Global,
    segmenter: &mut Handle,
    text: &[u8],
    count: &mut usize,
    total: &mut i64,
    at: &mut usize,
) -> u32
    ensures { SegmentResult (segmenter_in segmenter.old) (segmenter_in segmenter.new)
        text.now IsGoodText IsTextError
        (reported_size count.old total.old) (reported_size count.new total.new)
        at.old at.new result }
{
    let outcome = segmenter.call(alloc, |session| session.segment(Extent::Text, text));
    result_with_size(outcome, text, count, total, at)
}

/// Frees the segmenter of a handle. The handle is empty afterwards.
#[unsafe(no_mangle)]
pub extern "C" fn kumquatsieve_free(alloc: Global, segmenter: &mut Handle)
    ensures { segmenter_in segmenter.new ≡ None }
{
    segmenter.take(alloc);
}
