//! The lines of a source file.
ghost use Rattle.std.specs.Prelude.{◌≡◌};
ghost use Rattle.mj_model.specs.Lines.{numbered_lines};

use crate::numbered::Lines;

/// Returns the lines of a source file with their numbers from 1, blank lines included.
///
/// A line ends at LF, and the last one also at the end of `bytes`. One CR at the end of a line is
/// dropped. (This project's own choice)
pub fn lines(bytes: &[u8]) -> Lines<'_>
    ensures { result ≡ numbered_lines bytes.now }
{
    Lines::new(bytes)
}
