//! Positions of the sections of an image.
ghost use Rattle.std.specs.Prelude.{◌≡◌, ◌≤◌, ◌^◌, length, slice_range, MatchOption};
ghost use Rattle.image_format.specs.ImageBytes.{header_of, section as section_of, section_end};
ghost use Rattle.image_format.specs.Headers.{AreEnds};
ghost use Rattle.image_format.specs.Sections.{number_of};

use crate::header::{HEADER_LENGTH, Header};
use crate::section::Section;

/// Returns the ends of the header and of sections 1 to 8, as byte offsets. Returns None if the end
/// of section 8 exceeds a `usize`.
pub fn section_ends(header: &Header) -> Option<[usize; 9]>
    ensures { MatchOption result (2 ^ 64 ≤ section_end header.now 8)
        (λ ends. AreEnds ends header.now) }
{
    let mut ends = [HEADER_LENGTH; 9];
    for k in 0..8 {
        ends[k + 1] = usize::checked_add(ends[k], header.lengths[k] as usize)?;
    }
    Some(ends)
}

/// Returns the bytes of `section`. `ends` are the results of `section_ends` for the header of
/// `bytes`.
pub fn section_bytes<'a>(bytes: &'a [u8], ends: &[usize; 9], section: Section) -> &'a [u8]
    requires ends { AreEnds ends.now (header_of bytes.now) }
    requires within { section_end (header_of bytes.now) 8 ≤ length bytes.now }
    ensures { result.now ≡ section_of bytes.now (number_of section) }
{
    let k = section.number();
    part(bytes, ends[k - 1], ends[k])
}

/// Returns the bytes from offset `start` to before offset `end`.
fn part(bytes: &[u8], start: usize, end: usize) -> &[u8]
    requires in_order { start ≤ end }
    requires within { end ≤ length bytes.now }
    ensures { result.now ≡ slice_range bytes.now start end }
{
    &bytes[start..end]
}
