//! Hashes of texts, which are compared before the texts themselves.
ghost use Rattle.std.specs.Prelude.{◌≡◌};
ghost use Rattle.image_writer.specs.Marks.{mark_of_bytes};

/// The hash of the empty text. (Fowler, Noll and Vo, offset basis of FNV-1a with 64 bits)
const NO_BYTES: u64 = 0xCBF2_9CE4_8422_2325;

/// The factor that each byte multiplies the hash by. (Fowler, Noll and Vo, FNV prime)
const FACTOR: u64 = 0x100_0000_01B3;

/// Returns the 64-bit FNV-1a hash of a text. (Fowler, Noll and Vo)
pub(crate) fn mark_of(text: &str) -> u64
    ensures { result ≡ mark_of_bytes text.now }
{
    let mut mark = NO_BYTES;
    let bytes = text.as_bytes();
    for byte in bytes {
        mark = (mark ^ u64::from(*byte)).wrapping_mul(FACTOR);
    }
    mark
}
