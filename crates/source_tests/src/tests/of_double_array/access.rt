//! Insertions and lookups, as the test cases need them.
ghost use Rattle.std.specs.Prelude.{◌≡◌};

use double_array::{CellRead, DaFault, DoubleArray, Hit, Inserted, get, prefixes};
use std::cell::Cell;

/// The cells of an array, with a count of the reads.
#[derive(Drop)]
pub struct Counting<'a> {
    array: &'a DoubleArray,
    calls: Cell<u64>,
}

impl<'a> Counting<'a> {
    pub fn over(array: &'a DoubleArray) -> Counting<'a>
        ensures { result.array.now ≡ array.now }
    {
        let calls = Cell::new(0);
        Counting { array, calls }
    }
}

impl CellRead for Counting<'_> {
    ghost cells = { λ counting. counting.array.now };

    fn len(&self) -> usize {
        self.array.len()
    }

    fn cell(&self, i: usize) -> (i32, i32) {
        self.calls.set(self.calls.get().saturating_add(1));
        self.array.cell(i)
    }
}

/// Returns cell `i`, or `None` past the end.
pub fn cell(array: &DoubleArray, i: usize) -> Option<(i32, i32)> {
    if i < array.len() {
        Some(array.cell(i))
    } else {
        None
    }
}

/// Returns whether two arrays have the same cells.
pub fn have_same_cells(array: &DoubleArray, other: &DoubleArray) -> bool {
    if array.len() != other.len() {
        return false;
    }
    for i in 0..array.len() {
        if cell(array, i) != cell(other, i) {
            return false;
        }
    }
    true
}

/// Inserts `key`, or returns `Full` if its length or `value` is out of range.
pub fn insert(array: &mut DoubleArray, key: &[u8], value: u32) -> Result<Inserted, DaFault> {
    if key.is_empty() || key.len() > 65_535 || value >= 2_147_483_647 {
        return Err(DaFault::Full);
    }
    array.insert(key, value)
}

/// Inserts `key`. Returns whether its value before was `old`, and whether a replacement moved no
/// cells.
pub fn inserts(
    array: &mut DoubleArray,
    key: &[u8],
    number: u32,
    old: Option<u32>,
) -> Result<bool, DaFault> {
    let inserted = insert(array, key, number)?;
    Ok(inserted.old == old && (old.is_none() || inserted.moved == 0))
}

/// Returns the value of `key`.
pub fn value(array: &DoubleArray, key: &[u8]) -> Option<u32> {
    let _ = array.len();
    get(array, key)
}

/// Returns the value of `key`, looked up through counted cells.
fn counted_value(array: &DoubleArray, key: &[u8]) -> Option<u32> {
    let _ = array.len();
    get(&Counting::over(array), key)
}

/// Returns whether `key` has the value `expected`, with counted cells too.
pub fn has_value(array: &DoubleArray, key: &[u8], expected: Option<u32>) -> bool {
    value(array, key) == expected && counted_value(array, key) == expected
}

/// Returns whether `hits` are the prefixes of `text`, and `reads` cells are read to find them.
///
/// After each step, the count of the walk must equal the count of the cells.
pub fn has_hits(array: &DoubleArray, text: &[u8], hits: &[(usize, u32)], reads: u64) -> bool {
    let _ = array.len();
    let cells = Counting::over(array);
    let mut found = prefixes(&cells, text);
    let mut same = found.reads() == cells.calls.get();
    for (length, value) in hits {
        let hit = Hit {
            length: *length,
            value: *value,
        };
        same = same && found.next() == Some(hit) && found.reads() == cells.calls.get();
    }
    same && found.next() == None && found.reads() == reads && cells.calls.get() == reads
}
