//! Prints the lattice of one line.

ghost use Rattle.std.specs.Prelude.{◌≡◌, ◌++◌, ◌<◌, length, take, vec_len, OnOk};
ghost use Rattle.mj_model.specs.Lists.{GrowsBy};
ghost use Rattle.lattice_view.specs.LatticePrinter.NodesInLine.{IsPrintable, marked_of, overlay_in};
ghost use Rattle.lattice_view.specs.LatticePrinter.FormattedLattices.{IsFormattedLattice, PrintsWithin, PrintsNodes, head, tail};
ghost use Rattle.lattice_view.specs.LatticePrinter.LatticesOfLines.{ArePrintable, IsMarkedAt, overlay_of_lattice};

use crate::lattice_printer::dot::{append_dot_head, append_word};
use crate::lattice_printer::format::{LatticeForm, LatticeFormat};
use crate::lattice_printer::marked_node::MarkedNode;
use crate::lattice_printer::tsv::{append_row, tsv_heading};
use std::alloc::AllocError;
use viterbi::nodes::LatticeNode;
use word_lookup::Dictionaries;

/// The lattice of a line. `best` is the cost of its best path, and `on_best` holds for each node
/// whether it is on that path.
#[derive(Clone, Copy)]
pub struct LineLattice<'a> {
    pub dictionaries: &'a Dictionaries<'a>,
    pub text: &'a str,
    pub best: i64,
    pub nodes: &'a [LatticeNode],
    pub on_best: &'a [bool],
}

impl<'a> LineLattice<'a> {
    /// Returns the node with this number.
    fn node(&self, number: usize) -> MarkedNode<'a>
        requires printable { ArePrintable self.now }
        requires number { number < length self.now.nodes.now }
        ensures { IsMarkedAt self.now number result }
    {
        MarkedNode {
            dictionaries: self.dictionaries,
            text: self.text,
            best: self.best,
            number,
            node: &self.nodes[number],
            is_best: self.on_best[number],
        }
    }
}

/// A lattice and the format to print it in.
#[derive(Drop)]
pub struct FormattedLattice<'a> {
    pub format: LatticeFormat,
    pub lattice: &'a LineLattice<'a>,
}

impl<'a> FormattedLattice<'a> {
    /// Appends the lattice. `field` is a buffer for a field of a feature. On an error a part of it
    /// may remain in `out`.
    pub fn append(&self, field: &mut Vec<u8>, out: &mut Vec<u8>) -> Result<(), AllocError>
        requires { ArePrintable self.now.lattice.now }
        ensures appended { OnOk result (GrowsBy (IsFormattedLattice self.now.format
            (overlay_of_lattice self.now.lattice.now) self.now.lattice.now.text.now
            self.now.lattice.now.best self.now.lattice.now.nodes.now
            self.now.lattice.now.on_best.now) out.old.items out.new.items) }
        ensures unchanged { take (vec_len out.old) out.new.items ≡ out.old.items }
    {
        append_head(self.format.form, self.lattice.text, out)?;
        self.append_nodes(field, out)?;
        append_tail(self.format.form, out)
    }

    /// Appends the nodes that are not left out. On an error a part of them may remain in `out`.
    fn append_nodes(&self, field: &mut Vec<u8>, out: &mut Vec<u8>) -> Result<(), AllocError>
        requires { ArePrintable self.now.lattice.now }
        ensures appended { OnOk result (GrowsBy (PrintsNodes (PrintsWithin self.now.format
            (overlay_of_lattice self.now.lattice.now) self.now.lattice.now.text.now
            self.now.lattice.now.best) 0 self.now.lattice.now.nodes.now
            self.now.lattice.now.on_best.now) out.old.items out.new.items) }
        ensures unchanged { take (vec_len out.old) out.new.items ≡ out.old.items }
    {
        for number in 0..self.lattice.nodes.len() {
            append_within(self.format, &self.lattice.node(number), field, out)?;
        }
        Ok(())
    }
}

/// Appends the text before the nodes. On an error a part of it may remain in `out`.
fn append_head(form: LatticeForm, text: &str, out: &mut Vec<u8>) -> Result<(), AllocError>
    ensures appended { OnOk result (out.new.items ≡ out.old.items ++ head form text.now) }
    ensures unchanged { take (vec_len out.old) out.new.items ≡ out.old.items }
{
    match form {
        LatticeForm::Tsv => out.extend_from_slice(tsv_heading()),
        LatticeForm::Dot => append_dot_head(text, out),
    }
}

/// Appends a node unless the format leaves it out. On an error a part of it may remain in `out`.
fn append_within(
    format: LatticeFormat,
    marked: &MarkedNode<'_>,
    field: &mut Vec<u8>,
    out: &mut Vec<u8>,
) -> Result<(), AllocError>
    requires { IsPrintable marked.now }
    ensures appended { OnOk result (GrowsBy (PrintsWithin format (overlay_in marked.now)
        marked.now.text.now marked.now.best (marked_of marked.now)) out.old.items out.new.items) }
    ensures unchanged { take (vec_len out.old) out.new.items ≡ out.old.items }
{
    if !marked.is_within(format.within) {
        return Ok(());
    }
    match format.form {
        LatticeForm::Tsv => append_row(marked, out),
        LatticeForm::Dot => append_word(marked, field, out),
    }
}

/// Appends the text after the nodes. On an error a part of it may remain in `out`.
fn append_tail(form: LatticeForm, out: &mut Vec<u8>) -> Result<(), AllocError>
    ensures appended { OnOk result (out.new.items ≡ out.old.items ++ tail form) }
    ensures unchanged { take (vec_len out.old) out.new.items ≡ out.old.items }
{
    match form {
        LatticeForm::Tsv => out.extend_from_slice(b"\n"),
        LatticeForm::Dot => out.extend_from_slice(b"}\n"),
    }
}
