//! Builds the parts of a format piece by piece.

ghost use Rattle.std.specs.Prelude.{◌≡◌, ◌++◌, ◌∷◌, [], IfOk, OnOk};
ghost use Rattle.out_format.specs.Pieces.{piece_of, pieces_of};
ghost use Rattle.out_format.specs.Building.{pieces_so_far};

use crate::first_piece::NextPiece;
use crate::part::Part;
use std::alloc::{AllocError, Global};
use std::mem;

/// The parts so far, and the run of bytes after the last of them.
#[derive(Drop)]
pub struct PartsBuilder {
    parts: Vec<Part>,
    run: Vec<u8>,
    alloc: Global,
}

impl PartsBuilder {
    /// Returns a builder without parts.
    pub fn new(alloc: Global) -> PartsBuilder
        ensures { pieces_so_far result ≡ [] }
    {
        PartsBuilder {
            parts: Vec::new(alloc),
            run: Vec::new(alloc),
            alloc,
        }
    }

    /// Appends a piece.
    pub fn push(&mut self, piece: NextPiece) -> Result<(), AllocError>
        ensures { OnOk result (pieces_so_far self.new
            ≡ pieces_so_far self.old ++ piece_of piece ∷ []) }
    {
        match piece {
            NextPiece::Byte(byte) => self.run.push(byte)?,
            NextPiece::Item(item) => {
                self.end_run()?;
                self.parts.push(Part::Item(item))?;
            }
        }
        Ok(())
    }

    /// Makes a part of the bytes after the last part.
    fn end_run(&mut self) -> Result<(), AllocError>
        ensures parts { OnOk result (pieces_of self.new.parts.items ≡ pieces_so_far self.old) }
        ensures run { OnOk result (self.new.run.items ≡ []) }
    {
        if !self.run.is_empty() {
            let run = mem::replace(&mut self.run, Vec::new(self.alloc));
            self.parts.push(Part::Bytes(run))?;
        }
        Ok(())
    }

    /// Returns all parts.
    pub fn finish(mut self) -> Result<Vec<Part>, AllocError>
        ensures { IfOk result (λ parts. pieces_of parts.items ≡ pieces_so_far self) }
    {
        self.end_run()?;
        Ok(self.parts)
    }
}
