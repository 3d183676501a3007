//! Unknown entries, as `unk.def` lists them.
ghost use Rattle.std.specs.Prelude.{◌≡◌, ◌<◌, [], length, slice_index_or, Ok, Err, IfOk, IfErr, MatchOption};
ghost use Rattle.mj_model.specs.FirstFault.{IsMemoryOr};
ghost use Rattle.mj_model.specs.Lexicon.{rows_of};
ghost use Rattle.mj_model.specs.UnkDef.{IsUnkDef};
ghost use Rattle.char_def.specs.UnknownLists.{AreUnknownLists};
ghost use Rattle.char_def.specs.Outside.{all_lines_outside, IsLeast};

use crate::char_table::CharTable;
use crate::outside::least_line_outside;
use crate::unk_lines::{first_empty, read_lines};
use mj_model::{MatrixSizes, Record, SourceFault, SourceKind, UNK_FILE};
use std::alloc::Global;
use std::marker::Model;

/// The unknown entries of each category. (MeCab, `unk.def`)
#[derive(Drop)]
pub struct UnkTable<'a> {
    lists: Vec<Vec<Record<'a>>>,
}

impl<'a> Model for UnkTable<'a> {
    ghost use Rattle.std.specs.Prelude.{List};
    ghost use Rattle.mj_model.specs.Lexicon.{Row};
    ghost use Rattle.char_def.specs.UnknownLists.{AreUnknownLists};
    ghost use Rattle.char_def.specs.UnkRows.{lists_are};

    ghost Value = { List (List Row) };

    ghost view = { λ t. lists_are t.lists.items };

    ghost invariant = { λ t. AreUnknownLists (lists_are t.lists.items) };
}

impl<'a> UnkTable<'a> {
    /// Returns the number of categories.
    pub fn count(&self) -> usize
        ensures count { result ≡ length self.now }
        ensures formed { AreUnknownLists self.now }
    {
        self.lists.len()
    }

    /// Returns the lines of category `i` in their order, which are at least one.
    pub fn lines(&self, i: usize) -> &[Record<'a>]
        requires { i < length self.now }
        ensures { rows_of result.now ≡ slice_index_or self.now i [] }
    {
        &self.lists[i]
    }

    /// Returns the first line of `unk.def` whose ids lie outside the sizes.
    pub fn first_line_outside(&self, sizes: MatrixSizes) -> Option<u64>
        ensures { MatchOption result (all_lines_outside sizes self.now ≡ [])
            (IsLeast (all_lines_outside sizes self.now)) }
    {
        let mut first = None;
        for list in &self.lists {
            first = least_line_outside(list, sizes, first);
        }
        first
    }
}

/// Reads the unknown entries of the categories of `table`.
///
/// Each line has the form of a lexicon line, with the name of a category as its surface. A category
/// without a line is an error. (MeCab, `unk.def`)
pub fn read_unk<'a>(
    alloc: Global,
    bytes: &'a [u8],
    table: &CharTable,
) -> Result<UnkTable<'a>, SourceFault>
    ensures accepted { IfOk result (λ unk. IsUnkDef table.now.categories bytes.now (Ok unk)) }
    ensures count { IfOk result (λ unk. length unk ≡ length table.now.categories) }
    ensures rejected { IfErr result (λ fault. IsMemoryOr fault
        (IsUnkDef table.now.categories bytes.now (Err fault))) }
{
    let lists = read_lines(alloc, bytes, table)?;
    let missing = first_empty(&lists);
    if missing < lists.len() {
        return Err(SourceKind::MissingCategory(missing as u8).at(UNK_FILE, 0));
    }
    Ok(UnkTable { lists })
}
