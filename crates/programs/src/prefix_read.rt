//! Reading a prefix of a reader.

ghost use Rattle.std.specs.Prelude.{◌≡◌, ℕ, ◌<◌, List, Err, IfOk, length};
ghost use Rattle.programs.specs.Reading.{GivesAtLeast, IsPrefixRead};
ghost use Rattle.programs.specs.declared.reading.ReadFault.TheVariants.{Endless};

use crate::reading::{ByteSink, ReadFault};
use std::io::Read;

/// How far a reader was read, and the sink that received its bytes.
#[derive(Drop)]
pub(crate) enum PrefixRead<P> {
    /// The reader was read to its end.
    Whole(P),
    /// More bytes than the wanted number were read. `reads` is the number of reads that remain.
    More { taken: P, reads: u64 },
}

/// Appends the bytes of `reader` to `pieces`, read by read, until more than `most` bytes were
/// appended or the reader ends. At most `reads` reads are made; `Endless` is returned if they don't
/// suffice.
pub(crate) fn read_prefix<R: Read, P: ByteSink + Drop>(
    reader: &mut R,
    buffer: &mut [u8],
    reads: u64,
    pieces: P,
    most: u64,
) -> Result<PrefixRead<P>, ReadFault>
    requires buffer { 0 < length buffer.old }
    ensures prefix { (earlier : List ℕ) → P.received pieces earlier → IfOk result
        (IsPrefixRead P.received most reads (length buffer.old) earlier
        (R.remaining reader.old) (R.remaining reader.new)) }
    ensures endless { result ≡ Err Endless
        → GivesAtLeast reads (R.remaining reader.old) (R.remaining reader.new) }
{
    let mut taken = pieces;
    let mut room = most;
    for read in 0..reads {
        let count = reader.read(buffer).map_err(ReadFault::Device)?;
        if count == 0 {
            return Ok(PrefixRead::Whole(taken));
        }
        taken = taken.with(&buffer[..count])?;
        if count as u64 > room {
            return Ok(PrefixRead::More {
                taken,
                reads: reads - read - 1,
            });
        }
        room -= count as u64;
    }
    Err(ReadFault::Endless)
}
