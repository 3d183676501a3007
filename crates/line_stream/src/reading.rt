//! The loop over a stream: read, print, write.

ghost use Rattle.std.specs.Prelude.{◌+◌, ◌≤◌, ◌<◌, ◌^◌, length, IfOk, vec_len};
ghost use Rattle.line_stream.specs.Runs.{MayRun, StreamOutcome};

use crate::line_fault::{LineError, StreamFault};
use crate::line_printer::LinePrinter;
use crate::piece::process_piece;
use crate::steps::finish;
use crate::stream_state::StreamState;
use mj_model::{TextIn, TextOut};
use std::alloc::{AllocError, Global};

/// The size of a read buffer, in bytes.
pub const BUFFER_SIZE: usize = 65_536;

/// Reads `reader` to its end, in at most `bound` reads, and writes what its lines print.
fn print_lines<P: LinePrinter, R: TextIn, W: TextOut>(
    alloc: Global,
    printer: &P,
    buffers: &mut P::Buffers,
    reader: &mut R,
    writer: &mut W,
    buffer: &mut [u8],
    bound: u64,
) -> Result<u64, StreamFault>
    requires bound { bound ≤ 2 ^ 40 }
    requires buffer { (0 < length buffer.old) × (length buffer.old ≤ 2 ^ 16) }
    requires counts { MayRun (R.state reader.old) (W.state writer.old) }
    ensures run { StreamOutcome (P.line_result printer.now) bound (R.state reader.old)
        (R.state reader.new) (W.state writer.old) (W.state writer.new) result }
{
    let mut progress = StreamState {
        pending: Vec::new(alloc),
        out: Vec::new(alloc),
        lines: 0,
    };
    let mut sent = 0;
    for _turn in 0..bound {
        let taken = match reader.read_counted(buffer) {
            Ok(0) => return finish(printer, buffers, &mut progress, writer, &mut sent),
            Ok(n) => n,
            Err(_) => return Err(StreamFault::Read(progress.lines + 1)),
        };
        process_piece(
            printer,
            buffers,
            &buffer[..taken],
            &mut progress,
            writer,
            &mut sent,
        )?;
    }
    Err(StreamFault::InputTooLong(progress.lines + 1))
}

/// Allocates a read buffer of `BUFFER_SIZE` bytes.
pub fn new_buffer(alloc: Global) -> Result<Vec<u8>, AllocError>
    ensures { IfOk result (λ v. (0 < vec_len v) × (vec_len v ≤ 2 ^ 16)) }
{
    vec![in alloc; 0; BUFFER_SIZE]
}

/// Prints each line of `reader` with `printer`, writes the output to `writer`, and returns the
/// number of lines.
///
/// Allocates a buffer of `BUFFER_SIZE` bytes. Fails with `InputTooLong` if `bound` reads don't
/// reach the end of the input. The read that meets the end counts.
pub fn run_over<P: LinePrinter, R: TextIn, W: TextOut>(
    alloc: Global,
    printer: &P,
    buffers: &mut P::Buffers,
    reader: &mut R,
    writer: &mut W,
    bound: u64,
) -> Result<u64, StreamFault>
    requires bound { bound ≤ 2 ^ 40 }
    requires counts { MayRun (R.state reader.old) (W.state writer.old) }
    ensures run { StreamOutcome (P.line_result printer.now) bound (R.state reader.old)
        (R.state reader.new) (W.state writer.old) (W.state writer.new) result }
{
    let Ok(mut buffer) = new_buffer(alloc) else {
        return Err(StreamFault::Line(1, LineError::Memory));
    };
    print_lines(alloc, printer, buffers, reader, writer, &mut buffer, bound)
}
