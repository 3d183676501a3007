//! The lines of `unk.def`, by category.
ghost use Rattle.std.specs.Prelude.{◌≡◌, ◌≤◌, ◌<◌, [], replicate, length, Ok, Err, IfOk, IfErr, OnOk};
ghost use Rattle.char_def.specs.Results.{AreListsIn, IsUnkError, with_row};
ghost use Rattle.mj_model.specs.declared.limits.TheConstants.{CATEGORIES_MAX as CategoriesMax};
ghost use Rattle.mj_model.specs.declared.source_fault.TheConstants.{UNK_FILE as UnkFile};
ghost use Rattle.mj_model.specs.FirstFault.{IsMemoryOr};
ghost use Rattle.mj_model.specs.Lexicon.{ReadsAs, row_of};
ghost use Rattle.mj_model.specs.UnkDef.{unk_outcome, first_without_rows};
ghost use Rattle.char_def.specs.UnkRows.{lists_are, HasAdded};

use crate::char_table::CharTable;
use lex_source::{lines, read_record};
use mj_model::{ENTRIES_MAX, Record, SourceFault, SourceKind, UNK_FILE};
use std::alloc::{AllocError, Global};

/// Returns the lines of each category, or the error of the first invalid line.
pub(crate) fn read_lines<'a>(
    alloc: Global,
    bytes: &'a [u8],
    table: &CharTable,
) -> Result<Vec<Vec<Record<'a>>>, SourceFault>
    ensures accepted { IfOk result (λ lists. AreListsIn table.now.categories bytes.now
        (lists_are lists.items)) }
    ensures count { IfOk result (λ lists. length lists.items ≡ length table.now.categories) }
    ensures few { IfOk result (λ lists. length lists.items ≤ CategoriesMax) }
    ensures rejected { IfErr result (λ fault. IsMemoryOr fault
        (ReadsAs (unk_outcome table.now.categories) UnkFile 0 bytes.now (Err fault))) }
{
    let mut lists = empty_lists(alloc, table.count())?;
    let mut held = 0;
    for (number, line) in lines(bytes) {
        match add_line(alloc, number, line, table, held, &mut lists) {
            Ok(now) => held = now,
            Err(kind) => return Err(kind.at(UNK_FILE, number)),
        }
    }
    Ok(lists)
}

/// Adds a line to the list of its category. `held` lines were added before, and the result is their
/// new number.
fn add_line<'a>(
    alloc: Global,
    number: u64,
    line: &'a [u8],
    table: &CharTable,
    held: usize,
    lists: &mut Vec<Vec<Record<'a>>>,
) -> Result<usize, SourceKind>
    requires { length lists.old.items ≡ length table.now.categories }
    ensures added { IfOk result (λ now. HasAdded table.now.categories number line.now held now
        lists.old.items lists.new.items) }
    ensures count { OnOk result (length lists.new.items ≡ length lists.old.items) }
    ensures rejected { IfErr result (IsUnkError table.now.categories number line.now held) }
{
    let Some(record) = read_record(alloc, number, line)? else {
        return Ok(held);
    };
    let Some(category) = table.number_of(record.surface.as_str().as_bytes()) else {
        return Err(SourceKind::NoSuchCategory);
    };
    if held >= ENTRIES_MAX {
        return Err(SourceKind::TooManyEntries);
    }
    add(lists, category, record)?;
    Ok(held + 1)
}

/// Appends a record to the list of a category.
fn add<'a>(
    lists: &mut Vec<Vec<Record<'a>>>,
    category: usize,
    made: Record<'a>,
) -> Result<(), AllocError>
    requires { category < length lists.old.items }
    ensures added { OnOk result (lists_are lists.new.items
        ≡ with_row (lists_are lists.old.items) category (row_of made.entry)) }
    ensures count { OnOk result (length lists.new.items ≡ length lists.old.items) }
{
    lists[category].push(made)?;
    Ok(())
}

fn empty_lists<'a>(alloc: Global, count: usize) -> Result<Vec<Vec<Record<'a>>>, AllocError>
    ensures { IfOk result (λ lists. lists_are lists.items ≡ replicate count []) }
{
    let mut lists = Vec::with_capacity(alloc, count)?;
    for _ in 0..count {
        lists.push(Vec::new(alloc))?;
    }
    Ok(lists)
}

/// Returns the first category without a line, or the number of categories.
pub(crate) fn first_empty(lists: &[Vec<Record<'_>>]) -> usize
    ensures first { result ≡ first_without_rows (lists_are lists.now) }
    ensures within { result ≤ length lists.now }
{
    for (category, list) in lists.iter().enumerate() {
        if list.is_empty() {
            return category;
        }
    }
    lists.len()
}
