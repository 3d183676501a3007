//! Buffers that are reused from line to line.

use crate::lattice::Lattice;
use mj_model::paths::Path;
use std::alloc::Global;

/// The lattice and the path of one line, whose memory is reused for the next line.
#[derive(Debug, Drop)]
pub struct LineBuffers {
    pub lattice: Lattice,
    pub path: Path,
}

impl LineBuffers {
    /// Returns empty buffers. Does not allocate.
    pub fn new(alloc: Global) -> LineBuffers {
        let path = Path {
            words: Vec::new(alloc),
            total: 0,
        };
        LineBuffers {
            lattice: Lattice::new(alloc),
            path,
        }
    }
}
