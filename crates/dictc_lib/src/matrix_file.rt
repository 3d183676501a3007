//! Reading a `matrix.def` in pieces, without keeping its bytes. Reading stops early if no
//! continuation of the first line is a header, because such a file may never end.

ghost use Rattle.std.specs.Prelude.{◌≡◌, ◌⊎◌, ◌<◌, ◌≤◌, ℕ, List, [], Err, IfOk, IfErr, length, take, true};
ghost use Rattle.std.specs.Io.KnownBytes.{Consumes, IsAtEnd};
ghost use Rattle.dictc_lib.specs.MatrixFiles.{AreRejected, HasReadEnough, HasReceived, IsOfAFile, IsReadFrom, IsReadUpTo, IsRejected};
ghost use Rattle.matrix_def.specs.Costs.{IsTableIn};
ghost use Rattle.matrix_def.specs.Reading.{reported_connection};
ghost use Rattle.programs.specs.Faults.{Names};
ghost use Rattle.programs.specs.declared.fault.Fault.TheVariants.{File};
ghost use Rattle.mj_model.specs.FirstFault.{IsMemoryOr};

use line_stream::new_buffer;
use matrix_def::{Matrix, MatrixReader};
use mj_model::{READS_MAX, SourceFault};
use programs::{ByteSink, Fault, Progress, ReadFault, ReadProgress};
use std::alloc::{AllocError, Global};
use std::fs;
use std::io::Read;
use std::rt::Files;

/// Number of bytes that show whether a file begins with a byte order mark.
const PREFIX_MAX: usize = 3;

/// The state of reading a `matrix.def`: the reader of its costs, the number of bytes up to
/// `usize::MAX`, and the first three bytes.
#[derive(Drop)]
pub struct MatrixFile {
    pub reader: MatrixReader,
    pub bytes: usize,
    pub first: Vec<u8>,
}

impl ByteSink for MatrixFile {
    ghost received = { λ file bytes. HasReceived bytes file };

    fn with(self, piece: &[u8]) -> Result<MatrixFile, AllocError> {
        let MatrixFile {
            reader,
            bytes,
            mut first,
        } = self;
        let missing = PREFIX_MAX.saturating_sub(first.len()).min(piece.len());
        first.extend_from_slice(&piece[..missing])?;
        Ok(MatrixFile {
            reader: reader.read(piece)?,
            bytes: bytes.saturating_add(piece.len()),
            first,
        })
    }
}

/// A file with a progress line that is updated while it is read.
#[derive(Drop)]
struct ReportedFile<'a> {
    file: MatrixFile,
    reading: ReadProgress<'a>,
}

impl<'a> ByteSink for ReportedFile<'a> {
    ghost received = { λ reported bytes. HasReceived bytes reported.file };

    fn with(self, piece: &[u8]) -> Result<ReportedFile<'a>, AllocError> {
        let ReportedFile { file, reading } = self;
        let file = file.with(piece)?;
        reading.report_progress(file.bytes as u64);
        Ok(ReportedFile { file, reading })
    }
}

impl MatrixFile {
    /// Reads the file at `path` in at most `READS_MAX` reads, with a progress line.
    pub fn read<R: Files + AllocGlobal>(
        rt: &R,
        path: &str,
        progress: &Progress<'_>,
    ) -> Result<MatrixFile, Fault>
        ensures taken { IfOk result (IsOfAFile R.File.remaining) }
        ensures fault { IfErr result (Names File path.now) }
    {
        let reading = ReadProgress {
            progress,
            path,
            all: fs::metadata(rt, path).map_or(0, |found| found.len()),
        };
        match fs::open(rt, path) {
            Ok(mut file) => MatrixFile::read_from(rt.alloc(), reading, &mut file),
            Err(error) => Err(Fault::of_file(rt.alloc(), path, &error)),
        }
    }

    /// Reads the remainder of a file that was opened at `reading.path`, in at most `READS_MAX`
    /// reads. Stops if the header is rejected whatever follows.
    pub fn read_from<F: Read>(
        alloc: Global,
        reading: ReadProgress<'_>,
        file: &mut F,
    ) -> Result<MatrixFile, Fault>
        ensures taken { IfOk result (IsReadFrom (F.remaining file.old)) }
        ensures end { IfOk result
            (λ taken. IsAtEnd (F.remaining file.new) ⊎ IsRejected taken) }
        ensures fault { IfErr result (Names File reading.entry.path.now) }
    {
        let nothing = MatrixFile::nothing(alloc).with_progress(reading);
        match read_enough(alloc, file, nothing) {
            Ok(taken) => Ok(taken.file),
            Err(fault) => Err(Fault::of_reading(alloc, reading.path, fault)),
        }
    }

    /// Returns whether the bytes read so far are rejected, whatever follows.
    fn is_rejected(&self) -> bool
        ensures { result ≡ true
            → (bytes : List ℕ) → HasReceived bytes self.now → AreRejected bytes }
    {
        self.reader.header_fault().is_some()
    }

    /// Adds a progress line that is updated after each piece.
    fn with_progress(self, reading: ReadProgress<'_>) -> ReportedFile<'_>
        ensures { result.file ≡ self }
    {
        ReportedFile {
            file: self,
            reading,
        }
    }

    /// Creates the state before the first byte.
    fn nothing(alloc: Global) -> MatrixFile
        ensures { HasReceived [] result }
    {
        MatrixFile {
            reader: MatrixReader::new(alloc),
            bytes: 0,
            first: Vec::new(alloc),
        }
    }

    /// Returns the connection costs of the file, or its first error. After 2^64 lines, the line
    /// number of an error is the greatest `u64`.
    pub fn matrix(self) -> Result<Matrix, SourceFault>
        ensures accepted { (bytes : List ℕ) → HasReadEnough bytes self
            → IfOk result (IsTableIn bytes) }
        ensures rejected { (bytes : List ℕ) → HasReadEnough bytes self
            → IfErr result (λ fault. IsMemoryOr fault (reported_connection bytes ≡ Err fault)) }
    {
        self.reader.finish()
    }
}

/// Reads a file to its end, or until its header is rejected whatever follows.
fn read_enough<'a, F: Read>(
    alloc: Global,
    file: &mut F,
    nothing: ReportedFile<'a>,
) -> Result<ReportedFile<'a>, ReadFault>
    requires nothing { HasReceived [] nothing.file }
    ensures { IfOk result (λ taken.
        IsReadUpTo (F.remaining file.old) (F.remaining file.new) taken.file) }
{
    let mut buffer = new_buffer(alloc)?;
    read_enough_through(file, &mut buffer, nothing)
}

/// Reads as `read_enough` does, through a given buffer.
fn read_enough_through<'a, F: Read>(
    file: &mut F,
    buffer: &mut [u8],
    nothing: ReportedFile<'a>,
) -> Result<ReportedFile<'a>, ReadFault>
    requires buffer { 0 < length buffer.old }
    requires nothing { HasReceived [] nothing.file }
    ensures { IfOk result (λ taken.
        IsReadUpTo (F.remaining file.old) (F.remaining file.new) taken.file) }
{
    let mut taken = nothing;
    for _read in 0..READS_MAX {
        let count = read_once(file, buffer)?;
        if count == 0 {
            return Ok(taken);
        }
        taken = taken.with(&buffer[..count])?;
        if taken.file.is_rejected() {
            return Ok(taken);
        }
    }
    Err(ReadFault::Endless)
}

/// Reads once into `buffer` and returns the number of bytes, which is 0 only at the end.
fn read_once<F: Read>(file: &mut F, buffer: &mut [u8]) -> Result<usize, ReadFault>
    requires buffer { 0 < length buffer.old }
    ensures bound { IfOk result (λ count. count ≤ length buffer.new) }
    ensures bytes { IfOk result (λ count.
        Consumes (F.remaining file.old) (F.remaining file.new) (take count buffer.new)) }
    ensures end { IfOk result (λ count. count ≡ 0 → IsAtEnd (F.remaining file.new)) }
{
    file.read(buffer).map_err(ReadFault::Device)
}
