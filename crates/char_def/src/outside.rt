//! Records whose ids lie outside a connection table.
ghost use Rattle.std.specs.Prelude.{◌≡◌, ℕ, ◌++◌, ◌∷◌, [], List};
ghost use Rattle.mj_model.specs.Lexicon.{row_of, rows_of};
ghost use Rattle.char_def.specs.Outside.{is_outside as is_row_outside, lines_outside, IsLeast, IsLeastOf};

use mj_model::{MatrixSizes, Record};

/// Returns the least of `first` and of the lines of the records whose ids lie outside the sizes.
pub(crate) fn least_line_outside(
    records: &[Record<'_>],
    sizes: MatrixSizes,
    first: Option<u64>,
) -> Option<u64>
    ensures { (before : List ℕ) → IsLeastOf before first
        → IsLeastOf (before ++ lines_outside sizes (rows_of records.now)) result }
{
    let mut least = first;
    for record in records {
        if is_outside(record, sizes) {
            least = Some(earlier(least, record.line));
        }
    }
    least
}

/// Returns whether an id lies outside the sizes.
fn is_outside(row: &Record<'_>, sizes: MatrixSizes) -> bool
    ensures { result ≡ is_row_outside sizes (row_of row.now) }
{
    !sizes.contains(row.entry.right, row.entry.left)
}

/// Returns the lesser of `line` and of `before`, if that is a line.
fn earlier(before: Option<u64>, line: u64) -> u64
    ensures { (lines : List ℕ) → IsLeastOf lines before → IsLeast (lines ++ line ∷ []) result }
{
    match before {
        Some(other) => other.min(line),
        None => line,
    }
}
