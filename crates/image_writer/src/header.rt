//! The header of an image.
ghost use Rattle.std.specs.Prelude.{◌≡◌, ◌++◌, OnOk};
ghost use Rattle.image_writer.specs.Frames.{AreShort, AreSmall, header_bytes, length_bytes, number_bytes, number_list};

use byteorder::{ByteOrder, LittleEndian};
use image_format::{Header, MAGIC};
use std::alloc::AllocError;

/// Appends the bytes of a header.
pub(crate) fn append_header(header: Header, image: &mut Vec<u8>) -> Result<(), AllocError>
    ensures bytes { OnOk result (image.new.items ≡ image.old.items ++ header_bytes header) }
    ensures small { AreSmall (number_list header) }
    ensures short { OnOk result (AreShort header.lengths) }
{
    image.extend_from_slice(&MAGIC)?;
    append_numbers(header, image)?;
    append_lengths(header.lengths, image)
}

fn append_numbers(header: Header, image: &mut Vec<u8>) -> Result<(), AllocError>
    ensures bytes { OnOk result (image.new.items ≡ image.old.items ++ number_bytes header) }
    ensures small { AreSmall (number_list header) }
{
    let mut bytes = [0; 32];
    LittleEndian::write_u32_into(
        &[
            header.layout,
            header.kind.number(),
            header.sizes.right,
            header.sizes.left,
            header.categories,
            header.groups,
            header.tokens,
            header.unknown,
        ],
        &mut bytes,
    );
    image.extend_from_slice(&bytes)
}

fn append_lengths(lengths: [u64; 8], image: &mut Vec<u8>) -> Result<(), AllocError>
    ensures bytes { OnOk result (image.new.items ≡ image.old.items ++ length_bytes lengths) }
    ensures short { AreShort lengths }
{
    let mut bytes = [0; 64];
    LittleEndian::write_u64_into(&lengths, &mut bytes);
    image.extend_from_slice(&bytes)
}
