//! Loading of dictionaries from the bytes of images.
ghost use Rattle.std.specs.Prelude.{◌≡◌, IfErr, IfOk, OnOk};
ghost use Rattle.image_format.specs.ImageBytes.{header_of};
ghost use Rattle.image_format.specs.ImageFaults.{IsAccepted, IsIntact, IsWellFormed};
ghost use Rattle.image_format.specs.declared.digest_test.DigestTest.TheVariants.{Verified, Skipped};
ghost use Rattle.image_format.specs.declared.layout.TheConstants.{LAYOUT as Layout};
ghost use Rattle.dict_image.specs.Validation.BeforeMemory.{ReachKeys};
ghost use Rattle.mj_model.specs.declared.image_fault.ImageFault.TheVariants.{Memory};
ghost use Rattle.dict_image.specs.Loading.{IsLoadFault};

use crate::dict::Dict;
use crate::validation::{check_image, outline_of_written};
use image_format::DigestTest;
use image_format::borrowed::ImageBytes;
use mj_model::ImageFault;
use std::alloc::{AllocError, Global};

/// Returns the dictionary of an intact image, or the first error of its bytes in the order of
/// docs/FORMAT.md. Takes ownership of `bytes`, and frees them on an error.
pub fn load(alloc: Global, bytes: Vec<u8>) -> Result<Dict, ImageFault>
    ensures dict { IfOk result (λ dict. dict ≡ bytes.items) }
    ensures accepted { OnOk result (IsIntact bytes.items) }
    ensures rejected { IfErr result (IsLoadFault Verified bytes.items) }
    // Nothing is allocated unless the image passes the tests before those of the keys.
    ensures out_of_memory { IfErr result
        (λ fault. fault ≡ Memory → ReachKeys Verified bytes.items) }
{
    load_checking(alloc, bytes, DigestTest::Verified)
}

/// Returns the dictionary of a well-formed image, without testing its SHA-256, which takes most of
/// the time of `load`. Everything that is proved of a dictionary holds even if the bytes were
/// changed, but the contents may differ from what was compiled.
pub fn load_without_digest(alloc: Global, bytes: Vec<u8>) -> Result<Dict, ImageFault>
    ensures dict { IfOk result (λ dict. dict ≡ bytes.items) }
    ensures accepted { OnOk result (IsWellFormed bytes.items) }
    ensures rejected { IfErr result (IsLoadFault Skipped bytes.items) }
    ensures out_of_memory { IfErr result
        (λ fault. fault ≡ Memory → ReachKeys Skipped bytes.items) }
{
    load_checking(alloc, bytes, DigestTest::Skipped)
}

/// Returns the dictionary of an image, or the first error. `digest` decides whether the SHA-256 is
/// tested.
pub fn load_checking(alloc: Global, bytes: Vec<u8>, digest: DigestTest) -> Result<Dict, ImageFault>
    ensures dict { IfOk result (λ dict. dict ≡ bytes.items) }
    ensures accepted { OnOk result (IsAccepted digest bytes.items) }
    ensures rejected { IfErr result (IsLoadFault digest bytes.items) }
    ensures out_of_memory { IfErr result
        (λ fault. fault ≡ Memory → ReachKeys digest bytes.items) }
{
    load_image_bytes(alloc, ImageBytes::owned(bytes), digest)
}

/// Returns the dictionary of an image in owned or borrowed bytes, or the first error. `digest`
/// decides whether the SHA-256 is tested.
pub fn load_image_bytes(
    alloc: Global,
    bytes: ImageBytes,
    digest: DigestTest,
) -> Result<Dict, ImageFault>
    ensures dict { IfOk result (λ dict. dict ≡ bytes) }
    ensures accepted { OnOk result (IsAccepted digest bytes) }
    ensures rejected { IfErr result (IsLoadFault digest bytes) }
    ensures out_of_memory { IfErr result (λ fault. fault ≡ Memory → ReachKeys digest bytes) }
{
    let outline = check_image(alloc, bytes.as_slice(), digest)?;
    Ok(Dict::over(alloc, bytes, outline)?)
}

/// Returns the dictionary of an image that this program wrote. Neither tests the bytes nor computes
/// a checksum. Fails only if an allocation fails.
pub fn load_written(alloc: Global, bytes: Vec<u8>) -> Result<Dict, AllocError>
    requires intact { IsIntact bytes.items }
    requires layout { (header_of bytes.items).layout ≡ Layout }
    ensures { IfOk result (λ dict. dict ≡ bytes.items) }
{
    load_trusted(alloc, ImageBytes::owned(bytes))
}

/// Returns the dictionary of an intact image of the newest layout, in owned or borrowed bytes.
/// Neither tests the bytes nor computes a checksum. Fails only if an allocation fails.
pub fn load_trusted(alloc: Global, bytes: ImageBytes) -> Result<Dict, AllocError>
    requires intact { IsIntact bytes }
    requires layout { (header_of bytes).layout ≡ Layout }
    ensures { IfOk result (λ dict. dict ≡ bytes) }
{
    let outline = outline_of_written(bytes.as_slice());
    Dict::over(alloc, bytes, outline)
}
