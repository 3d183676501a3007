//! Sets the format and the grouping of a handle's segmenter.

ghost use Rattle.std.specs.Prelude.{◌≡◌, IsUtf8, IfOk, IfErr, OnErr, OnOk};
ghost use Rattle.std.specs.Str.{IsValidUpTo};
ghost use Rattle.line_segmenter.specs.Faults.{IsGroupingError};
ghost use Rattle.capi.specs.Handles.{IsCallError, Moves, segmenter_in};
ghost use Rattle.capi.specs.Outputs.{IsCallErrorPosition};
ghost use Rattle.capi.specs.Settings.{AreBorrowedUtf8, IsNotUtf8, IsPlaceInBorrowed, IsErrorIn, IsRegrouped, SetsFormat, part_number, place_at, borrowed_texts};

use crate::fault::CallFault;
use crate::handle::Handle;
use crate::session::Session;
use line_segmenter::{SegmentFault, Segmenter};
use mj_model::{FormatFault, FormatPart};
use std::alloc::Global;
use std::str;

/// Returns the number of a format's text: 0 for node, 1 for unk, 2 for bos, 3 for eos.
fn number_of(part: FormatPart) -> u32
    ensures { result ≡ part_number part }
{
    match part {
        FormatPart::Node => 0,
        FormatPart::Unk => 1,
        FormatPart::Bos => 2,
        FormatPart::Eos => 3,
    }
}

/// Returns `bytes` as text. If they are not UTF-8, sets `part` to `number` and `at` to the offset
/// of the first invalid byte.
fn text_of<'a>(
    bytes: &'a [u8],
    number: u32,
    part: &mut u32,
    at: &mut usize,
) -> Result<&'a str, SegmentFault>
    ensures text { IfOk result (λ text. text.now ≡ bytes.now) }
    ensures accepted { OnOk result (IsUtf8 bytes.now) }
    ensures rejected { IfErr result (IsNotUtf8 bytes.now) }
    ensures part { OnErr result (part.new ≡ number) }
    ensures place { OnErr result (IsValidUpTo bytes.now at.new) }
    ensures unset { OnOk result (place_at part.new at.new ≡ place_at part.old at.old) }
{
    match str::from_utf8(bytes) {
        Ok(text) => Ok(text),
        Err(error) => {
            *part = number;
            *at = error.valid_up_to();
            Err(SegmentFault::NotUtf8)
        }
    }
}

/// The bytes of a format's four texts.
#[derive(Clone, Copy)]
pub struct Texts<'a> {
    pub node: &'a [u8],
    pub unk: &'a [u8],
    pub bos: &'a [u8],
    pub eos: &'a [u8],
}

/// Sets the format by its four texts. If one is invalid, sets `part` to its number and `at` to the
/// offset of the error.
fn set_texts(
    segmenter: &mut Segmenter,
    texts: Texts<'_>,
    part: &mut u32,
    at: &mut usize,
) -> Result<(), SegmentFault>
    ensures read { OnOk result
        (SetsFormat (borrowed_texts texts.entry) segmenter.old segmenter.new) }
    ensures accepted { OnOk result (AreBorrowedUtf8 texts.entry) }
    ensures rejected { IfErr result (IsErrorIn texts.entry) }
    ensures place { IfErr result (IsPlaceInBorrowed texts.entry
        (place_at part.old at.old) (place_at part.new at.new)) }
    ensures unset { OnOk result (place_at part.new at.new ≡ place_at part.old at.old) }
    ensures unchanged { OnErr result (segmenter.new ≡ segmenter.old) }
{
    let node = text_of(texts.node, 0, part, at)?;
    let unk = text_of(texts.unk, 1, part, at)?;
    let bos = text_of(texts.bos, 2, part, at)?;
    let eos = text_of(texts.eos, 3, part, at)?;
    let outcome = segmenter.set_format(node, Some(unk), bos, eos);
    if let Err(
        SegmentFault::Format(
            FormatFault::Bad {
                part: invalid,
                at: place,
                ..
            },
        ),
    ) = outcome
    {
        *part = number_of(invalid);
        *at = place;
    }
    outcome
}

/// Sets the format of a handle's segmenter.
pub fn set_format(
    alloc: Global,
    segmenter: &mut Handle,
    texts: Texts<'_>,
    part: &mut u32,
    at: &mut usize,
) -> Result<(), CallFault>
    ensures read { OnOk result (Moves (segmenter_in segmenter.old) (segmenter_in segmenter.new)
        (SetsFormat (borrowed_texts texts.entry))) }
    ensures accepted { OnOk result (AreBorrowedUtf8 texts.entry) }
    ensures rejected { IfErr result (IsCallError (segmenter_in segmenter.old)
        (λ _. IsErrorIn texts.entry)) }
    ensures place { IfErr result (IsCallErrorPosition (IsPlaceInBorrowed texts.entry)
        (place_at part.old at.old) (place_at part.new at.new)) }
    ensures unset { OnOk result (place_at part.new at.new ≡ place_at part.old at.old) }
    ensures unchanged { OnErr result (segmenter_in segmenter.new ≡ segmenter_in segmenter.old) }
{
    let mut session = segmenter.take(alloc).ok_or(CallFault::EmptySegmenter)?;
    let outcome = set_texts(&mut session.segmenter, texts, part, at);
    segmenter.put(session);
    outcome.map_err(CallFault::Segment)
}

impl Session {
    /// Sets the grouping. Fails with `BadGrouping` if it is greater than `GROUPING_MAX`.
    pub fn set_grouping(&mut self, grouping: u32) -> Result<(), SegmentFault>
        ensures set { OnOk result (IsRegrouped grouping self.old.segmenter self.new.segmenter) }
        ensures rejected { IfErr result (IsGroupingError grouping) }
        ensures unchanged { OnErr result (self.new.segmenter ≡ self.old.segmenter) }
    {
        let Ok(grouping) = u16::try_from(grouping) else {
            return Err(SegmentFault::BadGrouping);
        };
        self.segmenter.set_grouping(grouping)
    }
}
