//! Laws of printed tables, which hold for all lines.

ghost use Rattle.lattice_view.specs.WhyPrinter.OneLoss.{HasOneLoss};

/// Whether a word has a rival, and by how much the rival lost, is determined.
pub fn one_loss()
    ensures { HasOneLoss }
{}
