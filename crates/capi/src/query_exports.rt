//! Functions for C that return the last path, features, the lines of a text, and the texts of
//! errors.

ghost use Rattle.std.specs.Prelude.{◌≡◌, ◌≢◌, length};
ghost use Rattle.capi.specs.Queries.{IsQueryError, IsCopied, IsQueryResult, NeedsMore, entry_by};
ghost use Rattle.capi.specs.declared.queries.Query.TheVariants.{EntryFeature as FeatureBy, Features as AllFeatures, Path as PathText};
ghost use Rattle.capi.specs.Handles.{CallResult, BorrowResult, borrowed_at, segmenter_in};
ghost use Rattle.capi.specs.TextLines.{BorrowsSegmentation, LinesResult, lines_report};
ghost use Rattle.capi.specs.Texts.{text_at};

use crate::codes::code_of_result;
use crate::handle::Handle;
use crate::queries::{Query, copy_to, result_with_bytes};
use crate::texts::text_of_code;
use mj_model::Origin;
use std::alloc::Global;

/// Returns the text of the last path in the format. It is valid until the next call with this
/// handle.
#[unsafe(no_mangle)]
pub extern "C" fn kumquatsieve_print(
    alloc: Global,
    segmenter: &mut Handle,
    text: &mut *const u8,
    count: &mut usize,
) -> u32
    ensures { BorrowResult segmenter.old.slot.value segmenter.new.slot.value
        (IsQueryResult PathText) (IsQueryError PathText)
        (borrowed_at text.old count.old) (borrowed_at text.new count.new) result }
{
    let outcome = segmenter.call(alloc, |session| session.borrow(Query::Path));
    result_with_bytes(outcome, text, count)
}

/// Segments the lines of `text`, and returns their output in the format and the number of lines.
///
/// On an error the output is that of the lines before it, and `lines` is the number of its line,
/// counted from 1. The segmenter has no last line afterwards. The output is valid until the next
/// call with this handle.
#[unsafe(no_mangle)]
pub extern "C" fn kumquatsieve_parse_lines(
    alloc: Global,
    segmenter: &mut Handle,
    text: &[u8],
    out: &mut *const u8,
    count: &mut usize,
    lines: &mut u64,
) -> u32
    // If the result is 0, `lines` is the number of lines, all are valid, and the output is the
    // segmentation of the text: for each line the formatted words of its best path.
    ensures ok { (result ≡ 0) → BorrowsSegmentation (segmenter_in segmenter.old)
        segmenter.new.slot.value text.now (lines_report out.new count.new lines.new) }
    ensures outcome { LinesResult segmenter.old.slot.value segmenter.new.slot.value text.now
        (lines_report out.old count.old lines.old)
        (lines_report out.new count.new lines.new) result }
{
    code_of_result(segmenter.parse_lines(alloc, text, out, count, lines))
}

/// Returns the features of all words of the last path, concatenated. They are valid until the next
/// call with this handle.
#[unsafe(no_mangle)]
pub extern "C" fn kumquatsieve_features(
    alloc: Global,
    segmenter: &mut Handle,
    features: &mut *const u8,
    count: &mut usize,
) -> u32
    ensures { BorrowResult segmenter.old.slot.value segmenter.new.slot.value
        (IsQueryResult AllFeatures) (IsQueryError AllFeatures)
        (borrowed_at features.old count.old) (borrowed_at features.new count.new) result }
{
    let outcome = segmenter.call(alloc, |session| session.borrow(Query::Features));
    result_with_bytes(outcome, features, count)
}

/// Returns the feature of an entry, by the fields `known`, `dictionary` and `token` of a `CWord`.
/// It is valid until the next call with this handle.
#[unsafe(no_mangle)]
pub extern "C" fn kumquatsieve_entry_feature(
    alloc: Global,
    segmenter: &mut Handle,
    known: bool,
    dictionary: usize,
    token: u32,
    feature: &mut *const u8,
    count: &mut usize,
) -> u32
    ensures { BorrowResult segmenter.old.slot.value segmenter.new.slot.value
        (IsQueryResult (FeatureBy (entry_by known dictionary token)))
        (IsQueryError (FeatureBy (entry_by known dictionary token)))
        (borrowed_at feature.old count.old) (borrowed_at feature.new count.new) result }
{
    let origin = numbered_entry(known, dictionary, token);
    let outcome = segmenter.call(alloc, |session| session.borrow(Query::EntryFeature(origin)));
    result_with_bytes(outcome, feature, count)
}

/// Returns the entry with these fields of a `CWord`.
fn numbered_entry(known: bool, dictionary: usize, token: u32) -> Origin
    ensures { result ≡ entry_by known dictionary token }
{
    if known {
        Origin::Known {
            dict: dictionary,
            token,
        }
    } else {
        Origin::Unknown { token }
    }
}

/// Copies the text of an error code to `out`. Stores its length in `needed`, even if `out` is too
/// short. The length is 0 if no error has the code.
#[unsafe(no_mangle)]
pub extern "C" fn kumquatsieve_fault(code: u32, out: &mut [u8], needed: &mut usize) -> u32
    ensures needed { needed.new ≡ length (text_at code) }
    ensures written { (result ≡ 0) → IsCopied (text_at code) out.old out.new }
    ensures short { (result ≢ 0)
        → CallResult (NeedsMore (length (text_at code)) (length out.old)) result }
    ensures unchanged { (result ≢ 0) → out.new ≡ out.old }
{
    code_of_result(copy_to(text_of_code(code).as_bytes(), out, needed))
}
