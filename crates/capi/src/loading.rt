//! Fills handles with segmenters.

ghost use Rattle.std.specs.Prelude.{◌≡◌, IfErr, OnOk, OnErr};
ghost use Rattle.line_segmenter.specs.Faults.{IsLoadError, PassesTestsBeforeKeys};
ghost use Rattle.line_segmenter.specs.declared.fault.SegmentFault.TheVariants.{Memory};
ghost use Rattle.capi.specs.Calls.{IsExtended, IsLoadedFrom, IsShared, IsUserFault};
ghost use Rattle.capi.specs.Handles.{Fills, FillsFrom, IsFillError, IsCallError, IsShareError, Moves, segmenter_in};
ghost use Rattle.capi.specs.declared.fault.CallFault.TheVariants.{Segment};
ghost use Rattle.line_segmenter.specs.Trusted.{IsTrusted};
ghost use Rattle.image_format.specs.declared.digest_test.DigestTest.TheVariants.{Verified};

use crate::fault::CallFault;
use crate::handle::Handle;
use crate::session::Session;
use image_format::borrowed::ImageBytes;
use line_segmenter::{DigestTest, SegmentFault};
use std::alloc::Global;

/// Fills the empty handle `segmenter` with a segmenter for the image of a system dictionary. The image
/// is moved in or borrowed, not copied.
pub fn load_owned(
    alloc: Global,
    segmenter: &mut Handle,
    image: ImageBytes,
    digest: DigestTest,
) -> Result<(), CallFault>
    ensures loaded { OnOk result (Fills (segmenter_in segmenter.old) (segmenter_in segmenter.new)
        (IsLoadedFrom digest image)) }
    ensures rejected { IfErr result
        (IsFillError (segmenter_in segmenter.old) (IsLoadError digest image)) }
    // Nothing is allocated unless the image passes the checks before those of the keys.
    ensures out_of_memory { IfErr result
        (λ fault. fault ≡ Segment Memory → PassesTestsBeforeKeys digest image) }
    ensures unchanged { OnErr result (segmenter_in segmenter.new ≡ segmenter_in segmenter.old) }
{
    if segmenter.is_full() {
        return Err(CallFault::FullSegmenter);
    }
    segmenter.put(Session::over(alloc, image, digest).map_err(CallFault::Segment)?);
    Ok(())
}

/// Fills the empty handle `segmenter` with a segmenter for an intact image of a system dictionary,
/// without its checks.
pub fn load_trusted(
    alloc: Global,
    segmenter: &mut Handle,
    image: ImageBytes,
) -> Result<(), CallFault>
    requires { IsTrusted image }
    ensures loaded { OnOk result (Fills (segmenter_in segmenter.old) (segmenter_in segmenter.new)
        (IsLoadedFrom Verified image)) }
    ensures rejected { IfErr result
        (IsFillError (segmenter_in segmenter.old) (IsLoadError Verified image)) }
    ensures unchanged { OnErr result (segmenter_in segmenter.new ≡ segmenter_in segmenter.old) }
{
    if segmenter.is_full() {
        return Err(CallFault::FullSegmenter);
    }
    segmenter.put(Session::over_trusted(alloc, image).map_err(CallFault::Segment)?);
    Ok(())
}

/// Adds an intact image of a user dictionary to the segmenter of `segmenter`, without the checks of
/// the image.
pub fn add_trusted(
    alloc: Global,
    segmenter: &mut Handle,
    image: ImageBytes,
) -> Result<(), CallFault>
    requires { IsTrusted image }
    ensures added { OnOk result
        (Moves (segmenter_in segmenter.old) (segmenter_in segmenter.new)
        (IsExtended Verified image)) }
    ensures rejected { IfErr result
        (IsCallError (segmenter_in segmenter.old) (IsUserFault Verified image)) }
    ensures unchanged { OnErr result (segmenter_in segmenter.new ≡ segmenter_in segmenter.old) }
{
    let mut session = segmenter.take(alloc).ok_or(CallFault::EmptySegmenter)?;
    let outcome = session.add_trusted_user(image);
    segmenter.put(session);
    outcome.map_err(CallFault::Segment)
}

/// Fills the empty handle `segmenter` with a segmenter that shares the dictionaries and the format of
/// `other`.
pub fn share(alloc: Global, segmenter: &mut Handle, other: &mut Handle) -> Result<(), CallFault>
    ensures shared { OnOk result
        (FillsFrom (segmenter_in segmenter.old) (segmenter_in other.old)
        (segmenter_in segmenter.new) IsShared) }
    ensures other { segmenter_in other.new ≡ segmenter_in other.old }
    ensures rejected { IfErr result
        (IsShareError (segmenter_in segmenter.old) (segmenter_in other.old)) }
    ensures unchanged { OnErr result (segmenter_in segmenter.new ≡ segmenter_in segmenter.old) }
{
    if segmenter.is_full() {
        return Err(CallFault::FullSegmenter);
    }
    segmenter.put(other.call(alloc, |session| session.share(alloc))?);
    Ok(())
}
