//! Prints the lattice of each line.

use crate::lattice_printer::format::LatticeFormat;
use crate::lattice_printer::formatted_lattice::{FormattedLattice, LineLattice};
use lattice::{LineBuffers, MarkedLattice, marked_lattice};
use line_stream::{Appended, LinePrinter};
use std::alloc::Global;
use word_lookup::Dictionaries;

/// The buffers of a line's search and of a field, which are reused for the next line.
#[derive(Debug, Drop)]
pub struct LatticeBuffers {
    pub line: LineBuffers,
    pub field: Vec<u8>,
}

impl LatticeBuffers {
    /// Returns empty buffers. Does not allocate.
    pub fn new(alloc: Global) -> LatticeBuffers {
        LatticeBuffers {
            line: LineBuffers::new(alloc),
            field: Vec::new(alloc),
        }
    }
}

/// A `LinePrinter` that prints the lattice of each line: the dictionaries that segment it, and the
/// format. Each lattice allocates memory linear in its nodes and the line's bytes.
#[derive(Drop)]
pub struct LatticePrinter<'d> {
    pub alloc: Global,
    pub dictionaries: Dictionaries<'d>,
    pub format: LatticeFormat,
}

impl<'d> LinePrinter for LatticePrinter<'d> {
    ghost use Rattle.lattice_view.specs.LatticePrinter.PrintedLattices.{LatticeLineResult};
    ghost use Rattle.word_lookup.specs.Overlays.{overlay_of};

    type Buffers = LatticeBuffers;

    ghost line_result = { λ p. LatticeLineResult p.format (overlay_of p.dictionaries) };

    fn append_line(&self, buffers: &mut LatticeBuffers, text: &str, out: &mut Vec<u8>) -> Appended {
        let dictionaries = &self.dictionaries;
        buffers
            .line
            .lattice
            .fill_best(dictionaries, text, &mut buffers.line.path)?;
        let MarkedLattice { nodes, on_best } = marked_lattice(
            self.alloc,
            dictionaries,
            text,
            &buffers.line.path.words,
        )?;
        let lattice = LineLattice {
            dictionaries,
            text,
            best: buffers.line.path.total,
            nodes: &nodes,
            on_best: &on_best,
        };
        let sheet = FormattedLattice {
            format: self.format,
            lattice: &lattice,
        };
        sheet.append(&mut buffers.field, out)
    }

    ghost too_long = { λ p line h. h };

    ghost not_utf8 = { λ p line h. h };
}
