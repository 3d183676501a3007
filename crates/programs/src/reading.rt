//! Reading a whole reader, with a limit on the number of reads.

ghost use Rattle.std.specs.Prelude.{◌≡◌, ℕ, ◌<◌, ◌++◌, List, Err, IfOk, IfSome, length};
ghost use Rattle.std.specs.Io.KnownBytes.{IsAtEnd};
ghost use Rattle.programs.specs.Reading.{GivesAtLeast};
ghost use Rattle.programs.specs.declared.reading.ReadFault.TheVariants.{Endless, Memory};

use line_stream::new_buffer;
use std::alloc::{AllocError, Global};
use std::io::{self, Read};

/// Why reading the bytes of a reader failed.
#[derive(Debug, Drop)]
pub enum ReadFault {
    /// A read failed.
    Device(io::Error),
    /// The reader did not end within the allowed number of reads.
    Endless,
    /// An allocation failed.
    Memory,
}

impl From<AllocError> for ReadFault {
    ghost from_gives = { λ _ fault. fault ≡ Memory };

    fn from(_error: AllocError) -> ReadFault {
        ReadFault::Memory
    }
}

/// A sink that takes bytes in pieces of any length.
pub trait ByteSink {
    /// The sink has received exactly these bytes.
    ghost received: { Self → List ℕ → Type 0 };

    /// Appends `piece` to the received bytes.
    fn with(self, piece: &[u8]) -> Result<Self, AllocError>
        ensures { (bytes : List ℕ) → received self bytes
            → IfOk result (λ taken. received taken (bytes ++ piece.now)) };
}

impl ByteSink for Vec<u8> {
    ghost received = { λ v bytes. v.items ≡ bytes };

    fn with(mut self, piece: &[u8]) -> Result<Vec<u8>, AllocError> {
        self.extend_from_slice(piece)?;
        Ok(self)
    }
}

/// Reads `reader` to its end in at most `reads` reads. The read that finds the end counts.
pub fn read_whole<R: Read>(alloc: Global, reader: &mut R, reads: u64) -> Result<Vec<u8>, ReadFault>
    ensures whole { IfOk result (λ bytes.
        IfSome (R.remaining reader.old) (λ known. bytes.items ≡ known)) }
    ensures end { IfOk result (λ _. IsAtEnd (R.remaining reader.new)) }
    // `Endless` is returned only if each of the reads gave at least one byte.
    ensures endless { result ≡ Err Endless
        → GivesAtLeast reads (R.remaining reader.old) (R.remaining reader.new) }
{
    read_into(alloc, reader, reads, Vec::new(alloc))
}

/// Reads `reader` to its end in at most `reads` reads and appends its bytes to `pieces`, read by
/// read.
pub fn read_into<R: Read, P: ByteSink + Drop>(
    alloc: Global,
    reader: &mut R,
    reads: u64,
    pieces: P,
) -> Result<P, ReadFault>
    ensures whole { (before : List ℕ) → P.received pieces before → IfOk result (λ taken.
        IfSome (R.remaining reader.old) (λ known. P.received taken (before ++ known))) }
    ensures end { IfOk result (λ _. IsAtEnd (R.remaining reader.new)) }
    ensures endless { result ≡ Err Endless
        → GivesAtLeast reads (R.remaining reader.old) (R.remaining reader.new) }
{
    let mut buffer = new_buffer(alloc)?;
    read_through(reader, &mut buffer, reads, pieces)
}

/// Reads as `read_into` does, through a given buffer.
fn read_through<R: Read, P: ByteSink + Drop>(
    reader: &mut R,
    buffer: &mut [u8],
    reads: u64,
    pieces: P,
) -> Result<P, ReadFault>
    requires buffer { 0 < length buffer.old }
    ensures whole { (before : List ℕ) → P.received pieces before → IfOk result (λ taken.
        IfSome (R.remaining reader.old) (λ known. P.received taken (before ++ known))) }
    ensures end { IfOk result (λ _. IsAtEnd (R.remaining reader.new)) }
    ensures endless { result ≡ Err Endless
        → GivesAtLeast reads (R.remaining reader.old) (R.remaining reader.new) }
{
    let mut taken = pieces;
    for _read in 0..reads {
        let count = reader.read(buffer).map_err(ReadFault::Device)?;
        if count == 0 {
            return Ok(taken);
        }
        taken = taken.with(&buffer[..count])?;
    }
    Err(ReadFault::Endless)
}
