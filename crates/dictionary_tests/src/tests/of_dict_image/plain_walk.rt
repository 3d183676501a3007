//! A second count of the cells that are read to find the prefixes of a text, slow and simple.
use super::plain_reader::{cell, number_at, section};

/// Returns how many cells of `image` are read for `text`.
///
/// These are the root, the cell of each step on a byte, and the value cell of each state, if they
/// exist. Layout 1 has no cells.
pub(crate) fn reads_for(image: &[u8], text: &[u8]) -> u64 {
    if number_at(image, 8, 4) == 1 {
        return 0;
    }
    let cells = section(image, 5);
    let mut reads = 1;
    let mut state = 0;
    for byte in text {
        let Some(next) = step(cells, state, i64::from(*byte).wrapping_add(1), &mut reads) else {
            return reads;
        };
        step(cells, next, 0, &mut reads);
        state = next;
    }
    reads
}

/// Returns the state that a step on `code` leads to. The cell of the step counts if it exists.
fn step(cells: &[u8], state: i64, code: i64, reads: &mut u64) -> Option<i64> {
    let (base, _) = cell(cells, state)?;
    let next = base.wrapping_add(code);
    let (_, check) = cell(cells, next)?;
    *reads = reads.wrapping_add(1);
    if check == state { Some(next) } else { None }
}
