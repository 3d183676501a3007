//! Prints a lattice as a table.

ghost use Rattle.std.specs.Prelude.{◌≡◌, ◌++◌, take, vec_len, OnOk};
ghost use Rattle.lattice_view.specs.LatticePrinter.NodesInLine.{IsPrintable, marked_of, overlay_in};
ghost use Rattle.lattice_view.specs.LatticePrinter.Pieces.{piece_text};
ghost use Rattle.lattice_view.specs.LatticePrinter.Tsv.{best_cell, cost_cell, dictionary_cell, known_cell, token_of, tsv_heading, tsv_row};

use crate::lattice_printer::escapes::Escape;
use crate::lattice_printer::marked_node::MarkedNode;
use crate::lattice_printer::piece::{Piece, append_pieces};
use mj_model::Origin;
use std::alloc::AllocError;

/// The separator between two cells.
pub const TAB: Piece<'static> = Piece::Bytes(b"\t");

/// Returns the heading of the table.
pub fn tsv_heading() -> &'static [u8]
    ensures { result.now ≡ tsv_heading }
{
    b"place\tstart\tend\tsurface\tleft\tright\tcost\tknown\tdictionary\ttoken\ttotal\tthrough\tlost\tbest\tfeature\n"
}

/// Appends the row of a node. On an error a part of it may remain in `out`.
pub fn append_row(marked: &MarkedNode<'_>, out: &mut Vec<u8>) -> Result<(), AllocError>
    requires { IsPrintable marked.now }
    ensures appended { OnOk result (out.new.items ≡ out.old.items
        ++ tsv_row (overlay_in marked.now) marked.now.text.now marked.now.best
        (marked_of marked.now)) }
    ensures unchanged { take (vec_len out.old) out.new.items ≡ out.old.items }
{
    let node = marked.node;
    let word = &node.word;
    append_pieces(
        &[
            Piece::Count(word.place),
            TAB,
            Piece::Count(word.start),
            TAB,
            Piece::Count(word.end),
            TAB,
            Piece::Escaped(Escape::Cell, marked.surface()),
            TAB,
            Piece::Count(usize::from(word.left)),
            TAB,
            Piece::Count(usize::from(word.right)),
            TAB,
            Piece::Cost(i64::from(word.cost)),
            TAB,
            Piece::Bytes(known(word.origin)),
            TAB,
            dictionary(word.origin),
            TAB,
            Piece::Count(token(word.origin)),
            TAB,
            Piece::Cost(node.total),
            TAB,
            cost_or_none(node.through),
            TAB,
            cost_or_none(marked.lost()),
            TAB,
            Piece::Bytes(best_mark(marked.is_best)),
            TAB,
            Piece::Escaped(Escape::Cell, marked.feature().as_bytes()),
            Piece::Bytes(b"\n"),
        ],
        out,
    )
}

/// Returns whether a word is known, as a cell.
fn known(origin: Origin) -> &'static [u8]
    ensures { result.now ≡ known_cell origin }
{
    match origin {
        Origin::Known { .. } => b"known",
        Origin::Unknown { .. } => b"unknown",
    }
}

/// Returns the number of a known word's dictionary, or an empty cell.
fn dictionary(origin: Origin) -> Piece<'static>
    ensures { piece_text result ≡ dictionary_cell origin }
{
    match origin {
        Origin::Known { dict, .. } => Piece::Count(dict),
        Origin::Unknown { .. } => Piece::Bytes(b""),
    }
}

/// Returns the number of a word's entry.
fn token(origin: Origin) -> usize
    ensures { result ≡ token_of origin }
{
    let (Origin::Known { token, .. } | Origin::Unknown { token }) = origin;
    token as usize
}

/// Returns a cost as a piece, or an empty piece.
pub fn cost_or_none(cost: Option<i64>) -> Piece<'static>
    ensures { piece_text result ≡ cost_cell cost }
{
    match cost {
        Some(cost) => Piece::Cost(cost),
        None => Piece::Bytes(b""),
    }
}

/// Returns an asterisk for a node on the best path.
fn best_mark(is_best: bool) -> &'static [u8]
    ensures { result.now ≡ best_cell is_best }
{
    if is_best { b"*" } else { b"" }
}
