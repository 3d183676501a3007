//! The lines of `matrix.def`.
ghost use Rattle.std.specs.Prelude.{◌≡◌, ◌<◌, ◌≤◌, [], ◌∷◌, length, Some, option_map, IfSome, MatchOption, MatchResult};
ghost use Rattle.mj_model.specs.Connection.{words_of, sizes_from, cell_from, row_fault, size as size_of};
ghost use Rattle.matrix_def.specs.Rows.{cell_of, IsRow};

use lex_source::{Words, context_id, cost};
use mj_model::{MatrixSizes, SourceKind};

/// The contents of a row.
#[derive(Clone, Copy)]
pub(crate) struct MatrixCell {
    pub(crate) right: u16,
    pub(crate) left: u16,
    pub(crate) cost: i16,
}

/// Reads the sizes in a header.
pub(crate) fn read_sizes(line: &[u8]) -> Option<MatrixSizes>
    ensures value { result ≡ sizes_from (words_of line.now) }
    ensures some { IfSome result (λ sizes. (0 < sizes.right) × (0 < sizes.left)) }
    ensures most { IfSome result (λ sizes. (sizes.right ≤ 65535) × (sizes.left ≤ 65535)) }
{
    let (right, left) = two_words(line)?;
    Some(MatrixSizes {
        right: u32::from(size(right)?),
        left: u32::from(size(left)?),
    })
}

/// Reads a row, whose ids have to lie within the sizes.
pub(crate) fn read_row(sizes: MatrixSizes, line: &[u8]) -> Result<MatrixCell, SourceKind>
    ensures { MatchResult result (λ cell. IsRow sizes line.now (cell_of cell))
        (λ kind. row_fault sizes line.now ≡ Some kind) }
{
    let Some(cell) = read_cell(line) else {
        return Err(SourceKind::BadRow);
    };
    if sizes.contains(cell.right, cell.left) {
        Ok(cell)
    } else {
        Err(SourceKind::PairOutside)
    }
}

/// Reads a row with any ids.
fn read_cell(line: &[u8]) -> Option<MatrixCell>
    ensures { option_map cell_of result ≡ cell_from (words_of line.now) }
{
    let (right, left, price) = three_words(line)?;
    Some(MatrixCell {
        right: context_id(right)?,
        left: context_id(left)?,
        cost: cost(price)?,
    })
}

/// Reads a number from 1 to 65,535.
fn size(word: &[u8]) -> Option<u16>
    ensures value { result ≡ size_of word.now }
    ensures some { IfSome result (λ n. 0 < n) }
{
    let size = context_id(word)?;
    if size > 0 { Some(size) } else { None }
}

/// Returns the words of a line that has exactly two.
fn two_words(line: &[u8]) -> Option<(&[u8], &[u8])>
    ensures { MatchOption result (length (words_of line.now) ≡ 2 → ⊥)
        (λ words. words_of line.now ≡ words.0.now ∷ words.1.now ∷ []) }
{
    let mut words = Words::new(line);
    let first = words.next()?;
    let second = words.next()?;
    if words.next().is_some() {
        return None;
    }
    Some((first, second))
}

/// Returns the words of a line that has exactly three.
fn three_words(line: &[u8]) -> Option<(&[u8], &[u8], &[u8])>
    ensures { MatchOption result (length (words_of line.now) ≡ 3 → ⊥)
        (λ words. words_of line.now ≡ words.0.now ∷ words.1.now ∷ words.2.now ∷ []) }
{
    let mut words = Words::new(line);
    let first = words.next()?;
    let second = words.next()?;
    let third = words.next()?;
    if words.next().is_some() {
        return None;
    }
    Some((first, second, third))
}
