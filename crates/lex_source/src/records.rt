//! Lines in the form of a lexicon line.
ghost use Rattle.lex_source.specs.Results.{IsRecordResult};

use crate::outcome::record_of;
use crate::parts::split_line;
use mj_model::{Record, SourceKind};
use std::alloc::Global;

/// Returns the record of a line in the form of a lexicon line, or `None` if the line is blank. Any
/// surface is accepted. `number` is the line number. (MeCab, dic-detail)
pub fn read_record(
    alloc: Global,
    number: u64,
    line: &[u8],
) -> Result<Option<Record<'_>>, SourceKind>
    ensures { IsRecordResult number line.now result }
{
    match split_line(line)? {
        Some(parts) => Ok(Some(record_of(alloc, number, parts)?)),
        None => Ok(None),
    }
}
