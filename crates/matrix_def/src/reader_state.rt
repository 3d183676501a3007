//! The state of a reader of `matrix.def`.
ghost use Rattle.std.specs.Prelude.{◌≡◌, ℕ, List, [], ◌∷◌, ◌++◌, Err, IfOk, IfErr};
ghost use Rattle.std.specs.Bool.{OnTrue};
ghost use Rattle.mj_model.specs.Connection.{connection_from};
ghost use Rattle.matrix_def.specs.Reading.{Fill, HasNoFeed, IsTableFrom, IsStateAfter, row_of};
ghost use Rattle.matrix_def.specs.declared.reader_state.ReaderState.TheVariants.{Header};

use crate::matrix::Matrix;
use crate::rows::{read_row, read_sizes};
use lex_source::NonblankLines;
use mj_model::{MATRIX_CELLS_MAX, MATRIX_FILE, SourceFault, SourceKind};
use std::alloc::{AllocError, Global};

/// The state of a reader of `matrix.def` after some complete lines.
#[derive(Drop)]
pub(crate) enum ReaderState {
    /// There was no line, or only blank ones.
    Header,
    /// The header was read, and the following rows fill the table.
    Rows(Matrix),
    /// A line is invalid, and the lines after it are ignored.
    Rejected(SourceFault),
}

impl ReaderState {
    /// Returns the state after one more line. `number` is the line number, and `bytes` are the bytes
    /// before the LF.
    pub(crate) fn after(
        self,
        alloc: Global,
        number: u64,
        bytes: &[u8],
    ) -> Result<ReaderState, AllocError>
        ensures { (lines : List (ℕ × List ℕ)) → IsStateAfter lines self → HasNoFeed bytes.now
            → IfOk result (IsStateAfter (lines ++ row_of number bytes.now)) }
    {
        match NonblankLines::new(bytes).next() {
            Some((_, line)) => self.after_filled(alloc, number, line),
            None => Ok(self),
        }
    }

    /// Returns the state after one more line that is not blank.
    fn after_filled(
        self,
        alloc: Global,
        number: u64,
        line: &[u8],
    ) -> Result<ReaderState, AllocError>
        ensures { (lines : List (ℕ × List ℕ)) → IsStateAfter lines self
            → IfOk result (IsStateAfter (lines ++ (number, line.now) ∷ [])) }
    {
        match self {
            ReaderState::Header => after_header(alloc, number, line),
            ReaderState::Rows(matrix) => Ok(after_row(matrix, number, line)),
            ReaderState::Rejected(fault) => Ok(ReaderState::Rejected(fault)),
        }
    }

    /// Returns whether all lines so far are blank.
    pub(crate) fn is_header(&self) -> bool
        ensures { OnTrue result (self.now ≡ Header) }
    {
        matches!(self, ReaderState::Header)
    }

    /// Returns the table of the lines, or their first error, if no further line follows.
    pub(crate) fn matrix(self) -> Result<Matrix, SourceFault>
        ensures accepted { (lines : List (ℕ × List ℕ)) → IsStateAfter lines self
            → IfOk result (IsTableFrom lines) }
        ensures rejected { (lines : List (ℕ × List ℕ)) → IsStateAfter lines self
            → IfErr result (λ fault. connection_from lines ≡ Err fault) }
    {
        match self {
            ReaderState::Header => Err(SourceKind::BadHeader.at(MATRIX_FILE, 0)),
            ReaderState::Rows(matrix) => Ok(matrix),
            ReaderState::Rejected(fault) => Err(fault),
        }
    }
}

/// Returns the state after the first line that is not blank.
fn after_header(alloc: Global, number: u64, line: &[u8]) -> Result<ReaderState, AllocError>
    ensures { IfOk result (IsStateAfter ((number, line.now) ∷ [])) }
{
    let Some(sizes) = read_sizes(line) else {
        return Ok(ReaderState::Rejected(SourceKind::BadHeader.at(MATRIX_FILE, number)));
    };
    if u64::from(sizes.right) * u64::from(sizes.left) > MATRIX_CELLS_MAX {
        return Ok(ReaderState::Rejected(SourceKind::TooLarge.at(MATRIX_FILE, number)));
    }
    Ok(ReaderState::Rows(Matrix::empty(alloc, sizes)?))
}

/// Returns the state after one more row. Its cost is stored in the table, or the row is invalid.
fn after_row(mut matrix: Matrix, number: u64, row: &[u8]) -> ReaderState
    ensures { (lines : List (ℕ × List ℕ)) → Fill lines matrix
        → IsStateAfter (lines ++ (number, row.now) ∷ []) result }
{
    match read_row(matrix.sizes(), row) {
        Ok(cell) => {
            matrix.set(cell.right, cell.left, cell.cost);
            ReaderState::Rows(matrix)
        }
        Err(kind) => ReaderState::Rejected(kind.at(MATRIX_FILE, number)),
    }
}
