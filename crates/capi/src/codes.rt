//! Error codes for C, and the numbers that some errors have. The header names the codes.

ghost use Rattle.std.specs.Prelude.{◌≡◌};
ghost use Rattle.capi.specs.Codes.{call_code, code_in, segment_fault_number, image_number, overlay_number, result_code, result_number};

use crate::fault::CallFault;
use line_segmenter::SegmentFault;
use mj_model::{ImageFault, NamedFault, OverlayFault};

/// The call succeeded.
pub const OK: u32 = 0;

/// An allocation failed.
pub const MEMORY: u32 = 1;

/// Returns the code of an error, made of its letter and digit.
pub fn code_of(fault: CallFault) -> u32
    ensures { result ≡ call_code fault }
{
    code_number(fault.code().as_bytes())
}

/// Returns 256 times the letter plus the digit's value: 0x4c01 for `L1`. Any other code is
/// `Memory`'s.
fn code_number(code: &[u8]) -> u32
    ensures { result ≡ code_in code.now }
{
    match code {
        [letter, digit] => 256 * u32::from(*letter) + u32::from(digit.saturating_sub(b'0')),
        _ => MEMORY,
    }
}

/// Returns the code of a result.
pub fn code_of_result(outcome: Result<(), CallFault>) -> u32
    ensures code { result ≡ result_code outcome }
{
    match outcome {
        Ok(()) => OK,
        Err(fault) => code_of(fault),
    }
}

/// Returns the number of an image's error, or `number` if it has none.
fn number_of_image(fault: ImageFault, number: u64) -> u64
    ensures { result ≡ image_number fault number }
{
    match fault {
        ImageFault::BadLayout(layout) => u64::from(layout),
        ImageFault::BadSection(section) => u64::from(section),
        ImageFault::BadKey(group) => u64::from(group),
        ImageFault::BadToken(token) => u64::from(token),
        ImageFault::BadText(token) => u64::from(token),
        _ => number,
    }
}

/// Returns the number of an overlay's error, or `number` if it has none.
fn number_of_overlay(fault: OverlayFault, number: u64) -> u64
    ensures { result ≡ overlay_number fault number }
{
    match fault {
        OverlayFault::NotSystem => number,
        OverlayFault::NotUser(user) => user as u64,
        OverlayFault::OtherSizes(user) => user as u64,
    }
}

/// Returns the number of an error of dictionaries, or `number` if it has none.
fn segment_fault_number(fault: SegmentFault, number: u64) -> u64
    ensures { result ≡ segment_fault_number fault number }
{
    match fault {
        SegmentFault::Image(fault) => number_of_image(fault, number),
        SegmentFault::Overlay(fault) => number_of_overlay(fault, number),
        _ => number,
    }
}

/// Returns the code of a result, and stores the number of its error in `number` if it has one.
pub fn result_with_number(outcome: Result<(), CallFault>, number: &mut u64) -> u32
    ensures code { result ≡ result_code outcome }
    ensures number { number.new ≡ result_number outcome number.old }
{
    if let Err(CallFault::Segment(fault)) = outcome {
        *number = segment_fault_number(fault, *number);
    }
    code_of_result(outcome)
}
