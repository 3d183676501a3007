//! Prints a lattice as a graph in Graphviz's language DOT.

ghost use Rattle.std.specs.Prelude.{◌≡◌, ◌++◌, take, vec_len, OnOk};
ghost use Rattle.mj_model.specs.Lists.{GrowsBy};
ghost use Rattle.lattice_view.specs.LatticePrinter.Dot.{PrintsWord, box_costs, box_start, box_style, dot_head, edge_style, lost_word};
ghost use Rattle.lattice_view.specs.LatticePrinter.NodesInLine.{IsPrintable, marked_of, overlay_in};

use crate::lattice_printer::escapes::{Escape, append_escaped};
use crate::lattice_printer::marked_node::MarkedNode;
use crate::lattice_printer::piece::{Piece, append_pieces};
use crate::lattice_printer::tsv::cost_or_none;
use lex_source::append_field;
use std::alloc::AllocError;

/// Appends the start of the graph of the line `text`. On an error a part of it may remain in `out`.
pub fn append_dot_head(text: &str, out: &mut Vec<u8>) -> Result<(), AllocError>
    ensures appended { OnOk result (out.new.items ≡ out.old.items ++ dot_head text.now) }
    ensures unchanged { take (vec_len out.old) out.new.items ≡ out.old.items }
{
    append_pieces(
        &[
            Piece::Bytes(b"digraph {\n  rankdir=LR;\n  label=\""),
            Piece::Escaped(Escape::Label, text.as_bytes()),
            Piece::Bytes(b"\";\n  node [shape=circle];\n"),
        ],
        out,
    )
}

/// Appends the box and the edges of a node. `field` is a buffer for the first field of its feature.
/// On an error a part of them may remain in `out`.
pub fn append_word(
    marked: &MarkedNode<'_>,
    field: &mut Vec<u8>,
    out: &mut Vec<u8>,
) -> Result<(), AllocError>
    requires { IsPrintable marked.now }
    ensures appended { OnOk result (GrowsBy (PrintsWord (overlay_in marked.now) marked.now.text.now
        marked.now.best (marked_of marked.now)) out.old.items out.new.items) }
    ensures unchanged { take (vec_len out.old) out.new.items ≡ out.old.items }
{
    field.clear();
    let _found = append_field(field, marked.feature(), 0)?;
    append_start(marked, out)?;
    append_escaped(Escape::Label, field, out)?;
    append_costs(marked, out)
}

/// Appends a node's box up to its surface. On an error a part of it may remain in `out`.
fn append_start(marked: &MarkedNode<'_>, out: &mut Vec<u8>) -> Result<(), AllocError>
    requires { IsPrintable marked.now }
    ensures appended { OnOk result (out.new.items ≡ out.old.items
        ++ box_start marked.now.text.now (marked_of marked.now)) }
    ensures unchanged { take (vec_len out.old) out.new.items ≡ out.old.items }
{
    append_pieces(
        &[
            Piece::Bytes(b"  w"),
            Piece::Count(marked.number),
            Piece::Bytes(b" [shape=box"),
            Piece::Bytes(style_of(marked.is_best).in_box),
            Piece::Bytes(b", label=\""),
            Piece::Escaped(Escape::Label, marked.surface()),
            Piece::Bytes(b"\\n"),
        ],
        out,
    )
}

/// Appends the costs and the end of a node's box, and its edges. On an error a part of them may
/// remain in `out`.
fn append_costs(marked: &MarkedNode<'_>, out: &mut Vec<u8>) -> Result<(), AllocError>
    requires { IsPrintable marked.now }
    ensures appended { OnOk result (out.new.items ≡ out.old.items
        ++ box_costs marked.now.best (marked_of marked.now)) }
    ensures unchanged { take (vec_len out.old) out.new.items ≡ out.old.items }
{
    let node = marked.node;
    let word = &node.word;
    let lost = marked.lost();
    append_pieces(
        &[
            Piece::Bytes(b"\\ncost "),
            Piece::Cost(i64::from(word.cost)),
            Piece::Bytes(b"\\ntotal "),
            Piece::Cost(node.total),
            Piece::Bytes(b"\\n"),
            Piece::Bytes(lost_word(lost)),
            cost_or_none(lost),
            Piece::Bytes(b"\"];\n  "),
            Piece::Count(word.place),
            Piece::Bytes(b" -> w"),
            Piece::Count(marked.number),
            Piece::Bytes(b" -> "),
            Piece::Count(word.end),
            Piece::Bytes(style_of(marked.is_best).of_edges),
            Piece::Bytes(b";\n"),
        ],
        out,
    )
}

/// The attributes that mark a node on the best path: of its box, and of its edges.
#[derive(Clone, Copy)]
struct Style {
    in_box: &'static [u8],
    of_edges: &'static [u8],
}

/// Returns the attributes of a node.
fn style_of(is_best: bool) -> Style
    ensures in_box { result.in_box.now ≡ box_style is_best }
    ensures of_edges { result.of_edges.now ≡ edge_style is_best }
{
    if is_best {
        Style {
            in_box: b", color=red, penwidth=2",
            of_edges: b" [color=red, penwidth=2]",
        }
    } else {
        Style {
            in_box: b"",
            of_edges: b"",
        }
    }
}

/// Returns the text before the number by which a node lost.
fn lost_word(lost: Option<i64>) -> &'static [u8]
    ensures { result.now ≡ lost_word lost }
{
    match lost {
        Some(_) => b"lost ",
        None => b"no path",
    }
}
