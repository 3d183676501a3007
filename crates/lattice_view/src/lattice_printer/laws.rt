//! Laws of printed lattices, which hold for all lines.

ghost use Rattle.lattice_view.specs.LatticePrinter.OneLattice.{HasOneLattice};

/// A line prints exactly one text as its lattice in each format: nodes, order, costs and marks are
/// determined.
pub fn one_lattice()
    ensures { HasOneLattice }
{}
