//! Functions for C that load images, which are borrowed: with or without verifying the checksum, or
//! without any checks.

ghost use Rattle.std.specs.Prelude.{◌≡◌};
ghost use Rattle.line_segmenter.specs.Faults.{PassesTestsBeforeKeys};
ghost use Rattle.capi.specs.Calls.{LoadResult, AddUserResult};
ghost use Rattle.capi.specs.Codes.{memory};
ghost use Rattle.capi.specs.Handles.{segmenter_in};
ghost use Rattle.line_segmenter.specs.Trusted.{IsTrusted};
ghost use Rattle.image_format.specs.DigestTests.{test_by};
ghost use Rattle.image_format.specs.declared.digest_test.DigestTest.TheVariants.{Verified};

use crate::codes::result_with_number;
use crate::handle::Handle;
use crate::loading;
use image_format::borrowed::{BorrowedBytes, BorrowedParts, ImageBytes};
use line_segmenter::DigestTest;
use std::alloc::Global;

/// Fills the empty handle `segmenter` with a segmenter for the image of a system dictionary in C's
/// memory, which is read in place. C must not change or free the image until no segmenter uses it.
/// `skip_digest` skips the checksum. Stores the number of an error in `number` if it has one.
#[unsafe(no_mangle)]
pub extern "C" fn kumquatsieve_load_borrowed(
    alloc: Global,
    segmenter: &mut Handle,
    image: BorrowedParts,
    skip_digest: bool,
    number: &mut u64,
) -> u32
    ensures outcome { LoadResult (test_by skip_digest) image.bytes
        (segmenter_in segmenter.old) (segmenter_in segmenter.new) number.old number.new result }
    // Memory runs out only if the image passes the checks before those of the keys.
    ensures out_of_memory { (result ≡ memory)
        → PassesTestsBeforeKeys (test_by skip_digest) image.bytes }
{
    let image = ImageBytes::borrowed(BorrowedBytes::of(image));
    let digest = DigestTest::skipped_if(skip_digest);
    result_with_number(loading::load_owned(alloc, segmenter, image, digest), number)
}

/// Adds a user dictionary, whose image is in C's memory and read in place, to the segmenter of
/// `segmenter`. C must not change or free the image until no segmenter uses it. `skip_digest` skips
/// the checksum. Stores the number of an error in `number` if it has one.
#[unsafe(no_mangle)]
pub extern "C" fn kumquatsieve_add_user_borrowed(
    alloc: Global,
    segmenter: &mut Handle,
    image: BorrowedParts,
    skip_digest: bool,
    number: &mut u64,
) -> u32
    ensures outcome { AddUserResult (test_by skip_digest) image.bytes
        (segmenter_in segmenter.old) (segmenter_in segmenter.new) number.old number.new result }
    ensures out_of_memory { (result ≡ memory)
        → PassesTestsBeforeKeys (test_by skip_digest) image.bytes }
{
    let image = ImageBytes::borrowed(BorrowedBytes::of(image));
    let digest = DigestTest::skipped_if(skip_digest);
    let outcome = segmenter.call(alloc, move |session| session.add_owned_user(image, digest));
    result_with_number(outcome, number)
}

/// Fills the empty handle `segmenter` with a segmenter for the image of a system dictionary in C's
/// memory, which C knows to be intact. Skips the checks of the image.
#[unsafe(no_mangle)]
pub extern "C" fn kumquatsieve_load_trusted(
    alloc: Global,
    segmenter: &mut Handle,
    image: BorrowedParts,
    number: &mut u64,
) -> u32
    requires { IsTrusted image.bytes }
    ensures { LoadResult Verified image.bytes
        (segmenter_in segmenter.old) (segmenter_in segmenter.new) number.old number.new result }
{
    let image = ImageBytes::borrowed(BorrowedBytes::of(image));
    result_with_number(loading::load_trusted(alloc, segmenter, image), number)
}

/// Adds a user dictionary, whose image is in C's memory and known by C to be intact, to the
/// segmenter of `segmenter`. Skips the checks of the image.
#[unsafe(no_mangle)]
pub extern "C" fn kumquatsieve_add_user_trusted(
    alloc: Global,
    segmenter: &mut Handle,
    image: BorrowedParts,
    number: &mut u64,
) -> u32
    requires { IsTrusted image.bytes }
    ensures { AddUserResult Verified image.bytes
        (segmenter_in segmenter.old) (segmenter_in segmenter.new) number.old number.new result }
{
    let image = ImageBytes::borrowed(BorrowedBytes::of(image));
    result_with_number(loading::add_trusted(alloc, segmenter, image), number)
}
