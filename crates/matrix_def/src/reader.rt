//! Reading of a `matrix.def` piece by piece.
ghost use Rattle.std.specs.Prelude.{◌≡◌, ℕ, List, [], ◌∷◌, ◌++◌, Err, IfOk, IfErr, IfSome};
ghost use Rattle.mj_model.specs.Bytes.{line_feed};
ghost use Rattle.mj_model.specs.FirstFault.{IsMemoryOr};
ghost use Rattle.matrix_def.specs.Costs.{IsTableIn};
ghost use Rattle.matrix_def.specs.Reading.{AreRejectedFor, HasNoFeed, HasRead, IsReportedTable, reported_connection};

use crate::header_start::is_no_header;
use crate::matrix::Matrix;
use crate::reader_state::ReaderState;
use lex_source::split_first;
use mj_model::{MATRIX_FILE, SourceFault, SourceKind};
use std::alloc::{AllocError, Global};
use std::marker::Model;

/// A reader of a `matrix.def` whose bytes arrive in pieces of any lengths.
///
/// It keeps the table of costs, and a buffer with the bytes of the unfinished line. A line that
/// lies within a piece is parsed there. So the buffer grows to the length of the longest line that
/// crosses the end of a piece, and memory has no other bound than the longest line.
#[derive(Drop)]
pub struct MatrixReader {
    alloc: Global,
    /// The number of complete lines, at most `u64::MAX`.
    complete_lines: u64,
    /// The bytes of the line that no LF has ended yet.
    unfinished: Vec<u8>,
    /// The state after the complete lines.
    state: ReaderState,
}

impl Model for MatrixReader {
    ghost use Rattle.matrix_def.specs.Reading.{ReaderView};

    ghost Value = { ReaderView };

    ghost view = { λ r. record {
      complete_lines = r.complete_lines;
      unfinished = r.unfinished.items;
      state = r.state;
    } };
}

impl MatrixReader {
    /// Returns a reader that has read nothing. Does not allocate.
    pub fn new(alloc: Global) -> MatrixReader
        ensures { HasRead [] result }
    {
        MatrixReader {
            alloc,
            complete_lines: 0,
            unfinished: Vec::new(alloc),
            state: ReaderState::Header,
        }
    }

    /// Reads the next piece. Fails only if an allocation fails.
    pub fn read(self, piece: &[u8]) -> Result<MatrixReader, AllocError>
        ensures read { (bytes : List ℕ) → HasRead bytes self
            → IfOk result (HasRead (bytes ++ piece.now)) }
    {
        let mut reader = self;
        let mut rest = piece;
        while let Some((part, following)) = split_first(rest, b'\n') {
            reader = reader.read_to_end(part)?;
            rest = following;
        }
        reader.read_unfinished(rest)
    }

    /// Reads the last part of a line, which its LF follows.
    fn read_to_end(mut self, part: &[u8]) -> Result<MatrixReader, AllocError>
        requires { HasNoFeed part.now }
        ensures { (bytes : List ℕ) → HasRead bytes self
            → IfOk result (HasRead (bytes ++ part.now ++ line_feed ∷ [])) }
    {
        let number = self.complete_lines.saturating_add(1);
        self.complete_lines = number;
        if self.unfinished.is_empty() {
            self.state = self.state.after(self.alloc, number, part)?;
            return Ok(self);
        }
        self.unfinished.extend_from_slice(part)?;
        self.state = self.state.after(self.alloc, number, &self.unfinished)?;
        self.unfinished.clear();
        Ok(self)
    }

    /// Reads more of a line, which does not end with it.
    fn read_unfinished(mut self, more: &[u8]) -> Result<MatrixReader, AllocError>
        requires { HasNoFeed more.now }
        ensures { (bytes : List ℕ) → HasRead bytes self
            → IfOk result (HasRead (bytes ++ more.now)) }
    {
        self.unfinished.extend_from_slice(more)?;
        Ok(self)
    }

    /// Returns the error of the header, if the unfinished header line is invalid whatever follows.
    /// A caller can then stop reading.
    pub fn header_fault(&self) -> Option<SourceFault>
        ensures { (bytes : List ℕ) → HasRead bytes self.now
            → IfSome result (λ fault. AreRejectedFor fault bytes) }
    {
        if self.state.is_header() && is_no_header(&self.unfinished) {
            Some(SourceKind::BadHeader.at(MATRIX_FILE, self.complete_lines.saturating_add(1)))
        } else {
            None
        }
    }

    /// Returns the table of all bytes, or their first error, as `read_matrix` does for one slice.
    /// An error after line `u64::MAX` has that line number.
    pub fn finish(self) -> Result<Matrix, SourceFault>
        ensures accepted { (bytes : List ℕ) → HasRead bytes self
            → IfOk result (IsTableIn bytes) }
        ensures reported { (bytes : List ℕ) → HasRead bytes self
            → IfOk result (IsReportedTable bytes) }
        ensures rejected { (bytes : List ℕ) → HasRead bytes self
            → IfErr result (λ fault. IsMemoryOr fault (reported_connection bytes ≡ Err fault)) }
    {
        let MatrixReader {
            alloc,
            complete_lines,
            unfinished,
            state,
        } = self;
        let number = complete_lines.saturating_add(1);
        state.after(alloc, number, &unfinished)?.matrix()
    }
}
