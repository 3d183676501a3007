//! Records with prefixes of their surfaces.
ghost use Rattle.std.specs.Prelude.{◌≡◌, slice_index};
ghost use Rattle.std.specs.Cow.{cow_str_bytes};
ghost use Rattle.std.specs.Cmp.Lexicographic.{slice_cmp};
ghost use Rattle.std.specs.Ordering.{nat_cmp};
ghost use Rattle.lex_source.specs.SurfacePrefixes.{prefix_of_bytes};

use mj_model::Record;
use std::cmp::Ordering;

/// A record with the first 8 bytes of its surface. They decide most comparisons without a load of
/// the surface, which is stored elsewhere.
#[derive(Drop)]
pub(crate) struct PrefixedRecord<'a> {
    pub head: [u8; 8],
    pub row: Record<'a>,
    ghost front: { head ≡ prefix_of_bytes (cow_str_bytes row.surface) },
}

/// Compares two records by the bytes of their surfaces.
pub(crate) fn by_surface(a: &PrefixedRecord<'_>, b: &PrefixedRecord<'_>) -> Ordering
    ensures { result ≡ slice_cmp nat_cmp (cow_str_bytes a.now.row.surface)
        (cow_str_bytes b.now.row.surface) }
{
    match a.head.cmp(&b.head) {
        Ordering::Equal => a.row.surface.as_str().cmp(b.row.surface.as_str()),
        other => other,
    }
}

/// Returns the first 8 bytes of a surface. A shorter one is padded with bytes of 0.
pub(crate) fn surface_prefix(bytes: &[u8]) -> [u8; 8]
    ensures { result ≡ prefix_of_bytes bytes.now }
{
    [
        byte_at(bytes, 0),
        byte_at(bytes, 1),
        byte_at(bytes, 2),
        byte_at(bytes, 3),
        byte_at(bytes, 4),
        byte_at(bytes, 5),
        byte_at(bytes, 6),
        byte_at(bytes, 7),
    ]
}

/// Returns byte `i`, or 0 past the end.
fn byte_at(bytes: &[u8], i: usize) -> u8
    ensures { result ≡ slice_index bytes.now i }
{
    if i < bytes.len() { bytes[i] } else { 0 }
}
