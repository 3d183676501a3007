//! Sorting of records by the bytes of their surfaces.
ghost use Rattle.std.specs.Prelude.{◌≡◌, [], map, IfOk};
ghost use Rattle.mj_model.specs.Dictionary.{IsInOrder};
ghost use Rattle.mj_model.specs.Lexicon.{rows_of};
ghost use Rattle.lex_source.specs.PrefixedRecords.{without_prefix};

use crate::prefixed_record::{PrefixedRecord, by_surface, surface_prefix};
use mj_model::Record;
use std::alloc::AllocError;

/// Returns the records sorted by the bytes of their surfaces. Records with equal surfaces keep
/// their order.
pub(crate) fn in_order(records: Vec<Record<'_>>) -> Result<Vec<Record<'_>>, AllocError>
    ensures { IfOk result
        (λ ordered. IsInOrder (rows_of records.entry.items) (rows_of ordered.items)) }
{
    // Allocate this before the sort allocates its buffer. Later it would lie in the memory that the
    // sort freed, and the C library would keep that memory after the records are freed.
    let room = Vec::with_capacity(*records.allocator(), records.len())?;
    let mut headed = with_prefixes(records)?;
    headed.sort_by(by_surface)?;
    without_prefixes(headed, room)
}

/// Returns the records with the prefixes of their surfaces.
fn with_prefixes(records: Vec<Record<'_>>) -> Result<Vec<PrefixedRecord<'_>>, AllocError>
    ensures { IfOk result (λ headed. map without_prefix headed.items ≡ records.entry.items) }
{
    let mut headed = Vec::with_capacity(*records.allocator(), records.len())?;
    for row in records {
        headed.push(PrefixedRecord {
            head: surface_prefix(row.surface.as_str().as_bytes()),
            row,
        })?;
    }
    Ok(headed)
}

/// Returns the records without their prefixes, in the empty vector `room`.
fn without_prefixes<'a>(
    headed: Vec<PrefixedRecord<'a>>,
    mut room: Vec<Record<'a>>,
) -> Result<Vec<Record<'a>>, AllocError>
    requires { room.items ≡ [] }
    ensures { IfOk result (λ records. records.items ≡ map without_prefix headed.entry.items) }
{
    for one in headed {
        room.push(one.row)?;
    }
    Ok(room)
}
