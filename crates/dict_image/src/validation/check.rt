//! The tests of an image in their order, which determines the first error.
ghost use Rattle.std.specs.Prelude.{◌≡◌, ◌⊎◌, ◌≤◌, length, IfOk, IfErr, OnOk};
ghost use Rattle.image_format.specs.ImageBytes.{header_of, section_end};
ghost use Rattle.image_format.specs.ImageFaults.{IsAccepted, IsImageFault};
ghost use Rattle.mj_model.specs.declared.image_fault.ImageFault.TheVariants.{Memory};
ghost use Rattle.image_format.specs.Headers.{AreEnds};
ghost use Rattle.dict_image.specs.Validation.Checks.{SectionsResult};
ghost use Rattle.dict_image.specs.Validation.Outlines.{IsOutline};
ghost use Rattle.dict_image.specs.Validation.BeforeMemory.{ReachKeys, PassToSystem};

use crate::validation::frame::{check_ends, check_prefix};
use crate::validation::header::check_header;
use crate::validation::lexicon::{check_keys, check_tokens};
use crate::validation::outline::{Keys, Outline};
use crate::validation::system::check_system;
use image_format::{DigestTest, Header, Section, section_bytes};
use mj_model::ImageFault;
use std::alloc::Global;

/// Returns the outline of a well-formed image, or its first error in the order of docs/FORMAT.md.
/// `digest` decides whether the SHA-256 is tested.
///
/// Allocates while it runs: 4 bytes for each group, a key prefix for each cell, and a list of the
/// states of one key. Invalid UTF-8 in the features costs 8 bytes for each invalid position. For
/// the listed keys of layout 1 the outline keeps 8 bytes for each group.
pub fn check_image(alloc: Global, bytes: &[u8], digest: DigestTest) -> Result<Outline, ImageFault>
    ensures outline { IfOk result (IsOutline bytes.now) }
    ensures accepted { OnOk result (IsAccepted digest bytes.now) }
    ensures rejected { IfErr result
        (λ fault. (fault ≡ Memory) ⊎ IsImageFault digest bytes.now fault) }
    // Nothing is allocated unless the image passes the tests before those of the keys.
    ensures out_of_memory { IfErr result (λ fault. fault ≡ Memory → ReachKeys digest bytes.now) }
{
    let header = check_prefix(bytes)?;
    let ends = check_ends(bytes, &header, digest)?;
    let keys = check_sections(alloc, bytes, &header, &ends)?;
    Ok(Outline { header, ends, keys })
}

/// Tests the header fields and each section. Returns the method of looking up keys.
fn check_sections(
    alloc: Global,
    bytes: &[u8],
    header: &Header,
    ends: &[usize; 9],
) -> Result<Keys, ImageFault>
    requires ends { AreEnds ends.now (header_of bytes.now) }
    requires within { section_end (header_of bytes.now) 8 ≤ length bytes.now }
    ensures outcome { SectionsResult header.now bytes.now result }
    ensures out_of_memory { IfErr result
        (λ fault. fault ≡ Memory → PassToSystem header.now bytes.now) }
{
    check_header(header)?;
    check_system(
        header,
        section_bytes(bytes, ends, Section::Costs),
        section_bytes(bytes, ends, Section::Categories),
        section_bytes(bytes, ends, Section::Infos),
        section_bytes(bytes, ends, Section::UnknownIndex),
    )?;
    let keys = check_keys(alloc, header, section_bytes(bytes, ends, Section::Keys))?;
    check_tokens(
        alloc,
        header,
        section_bytes(bytes, ends, Section::Groups),
        section_bytes(bytes, ends, Section::Tokens),
        section_bytes(bytes, ends, Section::Features),
    )?;
    Ok(keys)
}
