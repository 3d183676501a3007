//! The lines of a source file that are not blank.
ghost use Rattle.std.specs.Prelude.{◌≡◌, ℕ, List};
ghost use Rattle.std.specs.Iterator.{YieldsFirstBy, item_count};
ghost use Rattle.mj_model.specs.Lines.{numbered_lines};
ghost use Rattle.lex_source.specs.NonblankLines.{line_view, nonblank_lines};

use crate::bytes::is_blank_line;
use crate::numbered::Lines;
use std::marker::Model;

/// An iterator over the numbered lines of a source file, without those that are empty or contain
/// only blanks and tabs.
#[derive(Drop)]
pub struct NonblankLines<'a> {
    lines: Lines<'a>,
}

impl<'a> Model for NonblankLines<'a> {
    ghost Value = { List (ℕ × List ℕ) };

    ghost view = { λ it. nonblank_lines it.lines };
}

impl<'a> NonblankLines<'a> {
    /// Returns the lines of `bytes` that are not blank. Line numbers start at 1 and count blank
    /// lines too.
    pub fn new(bytes: &'a [u8]) -> NonblankLines<'a>
        ensures { result ≡ nonblank_lines (numbered_lines bytes.now) }
    {
        NonblankLines {
            lines: Lines::new(bytes),
        }
    }
}

impl<'a> Iterator for NonblankLines<'a> {
    type Item = (u64, &'a [u8]);

    ghost next_gives = { YieldsFirstBy line_view (λ rest. rest) };

    ghost remaining = { item_count (λ rest. rest) };

    fn next(&mut self) -> Option<(u64, &'a [u8])> {
        next_nonblank(&mut self.lines)
    }
}

/// Returns the next line that is not blank.
fn next_nonblank<'a>(lines: &mut Lines<'a>) -> Option<(u64, &'a [u8])>
    ensures { YieldsFirstBy line_view nonblank_lines lines.old result lines.new }
{
    while let Some((number, line)) = lines.next() {
        if !is_blank_line(line) {
            return Some((number, line));
        }
    }
    None
}
