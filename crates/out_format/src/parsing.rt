//! Parses one text of a format into parts.

ghost use Rattle.std.specs.Prelude.{MatchResult};
ghost use Rattle.out_format.specs.Formats.{Reads};
ghost use Rattle.out_format.specs.FirstItems.{IsFaultOf};
ghost use Rattle.out_format.specs.Pieces.{pieces_of};

use crate::building::PartsBuilder;
use crate::first_piece::first_piece;
use crate::part::Part;
use mj_model::{FormatFault, FormatPart};
use std::alloc::Global;

/// Parses the text of `part`. An error holds the offset, in bytes, of the first invalid piece.
pub fn parse_part(alloc: Global, text: &str, part: FormatPart) -> Result<Vec<Part>, FormatFault>
    ensures { MatchResult result (λ parts. Reads part (pieces_of parts.items) text.now)
        (IsFaultOf part text.now) }
{
    let mut parts = PartsBuilder::new(alloc);
    let mut rest = text.as_bytes();
    while !rest.is_empty() {
        let at = text.len() - rest.len();
        let first = first_piece(rest, part).map_err(|kind| FormatFault::Bad { part, at, kind })?;
        parts.push(first.piece)?;
        rest = first.rest;
    }
    Ok(parts.finish()?)
}
