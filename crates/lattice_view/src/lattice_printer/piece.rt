//! Builds rows from pieces.

ghost use Rattle.std.specs.Prelude.{◌≡◌, ◌++◌, flat_map, take, vec_len, OnOk};
ghost use Rattle.lattice_view.specs.LatticePrinter.Pieces.{piece_text};

use crate::lattice_printer::escapes::{Escape, append_escaped};
use itoa::Buffer;
use std::alloc::AllocError;

/// A piece of a row.
#[derive(Clone, Copy)]
pub enum Piece<'a> {
    /// Bytes that are printed unchanged
    Bytes(&'a [u8]),
    /// An offset, an id or another number
    Count(usize),
    Cost(i64),
    /// Bytes of a surface or a feature, which are escaped
    Escaped(Escape, &'a [u8]),
}

/// Appends the text of `pieces`. On an error a part of it may remain in `out`.
pub fn append_pieces(pieces: &[Piece<'_>], out: &mut Vec<u8>) -> Result<(), AllocError>
    ensures appended { OnOk result (out.new.items
        ≡ out.old.items ++ flat_map piece_text pieces.now) }
    ensures unchanged { take (vec_len out.old) out.new.items ≡ out.old.items }
{
    for piece in pieces {
        append_piece(piece, out)?;
    }
    Ok(())
}

/// Appends the text of a piece.
fn append_piece(piece: &Piece<'_>, out: &mut Vec<u8>) -> Result<(), AllocError>
    ensures appended { OnOk result (out.new.items ≡ out.old.items ++ piece_text piece.now) }
    ensures unchanged { take (vec_len out.old) out.new.items ≡ out.old.items }
{
    match *piece {
        Piece::Bytes(bytes) => out.extend_from_slice(bytes),
        Piece::Count(count) => out.extend_from_slice(Buffer::new().format(count).as_bytes()),
        Piece::Cost(cost) => out.extend_from_slice(Buffer::new().format(cost).as_bytes()),
        Piece::Escaped(escape, bytes) => append_escaped(escape, bytes, out),
    }
}
