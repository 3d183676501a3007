//! The rows of the entries with a given part of speech.

ghost use Rattle.std.specs.Prelude.{◌<◌, ◌≤◌, length, IfOk, take, drop};
ghost use Rattle.dictc_lib.specs.PairRows.{AddsFitting, AreFoundBy, AreOfPair, AreRows, AreRowsOf, StartsOtherPair, IsFirstRow};
ghost use Rattle.dictc_lib.specs.Templates.{fields_of};

use super::pair_row::PairRow;
use super::template::Template;
use dict_image::{EntryRef, IdsAndCost};
use std::alloc::{AllocError, Global};
use std::cmp::Reverse;

/// Returns a row for each pair of ids among the entries that fit `template`. The pair of most
/// entries comes first, and equal ones are in the order of left id and right id.
pub fn rows_of_pairs(
    alloc: Global,
    template: &Template,
    entries: &[EntryRef<'_>],
) -> Result<Vec<PairRow>, AllocError>
    ensures { IfOk result (λ rows. AreRowsOf (fields_of template.now) entries.now rows.items) }
{
    let mut fitting = fitting_entries(alloc, template, entries)?;
    fitting.sort_unstable_by_key(|entry| (entry.left, entry.right, entry.cost));
    let mut rows = rows_in_order(alloc, &fitting)?;
    rows.sort_unstable_by_key(|row| (Reverse(row.entries), row.left, row.right));
    Ok(rows)
}

/// Returns the ids and costs of the entries that fit `template`, in the order of the entries.
fn fitting_entries(
    alloc: Global,
    template: &Template,
    entries: &[EntryRef<'_>],
) -> Result<Vec<IdsAndCost>, AllocError>
    ensures { IfOk result (λ fitting. AreFoundBy template.now entries.now fitting.items) }
{
    let mut room = Vec::new(alloc);
    let mut fitting = Vec::new(alloc);
    for entry in entries {
        add_fitting(template, entry, &mut room, &mut fitting)?;
    }
    Ok(fitting)
}

/// Appends the ids and the cost of `entry` if it fits `template`. `room` is a buffer for a field.
fn add_fitting(
    template: &Template,
    entry: &EntryRef<'_>,
    room: &mut Vec<u8>,
    fitting: &mut Vec<IdsAndCost>,
) -> Result<(), AllocError>
    ensures { IfOk result (λ _. AddsFitting (fields_of template.now) entry.now
        fitting.old.items fitting.new.items) }
{
    if template.fits(entry.feature, room)? {
        fitting.push(IdsAndCost {
            left: entry.left,
            right: entry.right,
            cost: entry.cost,
        })?;
    }
    Ok(())
}

/// Returns the rows of `entries`, which are sorted by ids and cost, in this order.
fn rows_in_order(alloc: Global, entries: &[IdsAndCost]) -> Result<Vec<PairRow>, AllocError>
    ensures { IfOk result (λ rows. AreRows entries.now rows.items) }
{
    let mut rows = Vec::new(alloc);
    let mut rest = entries;
    while !rest.is_empty() {
        let (row, following) = first_row(rest);
        rows.push(row)?;
        rest = following;
    }
    Ok(rows)
}

/// Returns the row of the first pair of ids, and the entries after those of this pair.
fn first_row(entries: &[IdsAndCost]) -> (PairRow, &[IdsAndCost])
    requires { 0 < length entries.now }
    ensures row { IsFirstRow entries.now result.0 result.1.now }
    ensures shorter { length result.1.now < length entries.now }
{
    let count = count_of_pair(entries);
    (PairRow::of(&entries[..count]), &entries[count..])
}

/// Returns the number of leading entries with the same pair of ids as the first entry.
fn count_of_pair(entries: &[IdsAndCost]) -> usize
    requires { 0 < length entries.now }
    ensures some { 0 < result }
    ensures within { result ≤ length entries.now }
    ensures pair { AreOfPair (take result entries.now) }
    ensures other { StartsOtherPair entries.now (drop result entries.now) }
{
    let first = entries[0];
    for (i, entry) in entries.iter().enumerate() {
        if entry.left != first.left || entry.right != first.right {
            return i;
        }
    }
    entries.len()
}
