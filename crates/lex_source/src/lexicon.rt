//! Reading of lexicons.
ghost use Rattle.std.specs.Prelude.{◌≡◌, length, take, IfOk, IfErr, OnErr, Ok, Err};
ghost use Rattle.mj_model.specs.FirstFault.{IsMemoryOr};
ghost use Rattle.mj_model.specs.Lexicon.{IsLexicon};
ghost use Rattle.lex_source.specs.Results.{IsLexiconResult, AppendsLexicon, AppendsLine, IsLineError};

use crate::outcome::{LineOutcome, read_line};
use crate::source_lines::lines;
use mj_model::{ENTRIES_MAX, Record, SourceFault, SourceKind};
use std::alloc::Global;

/// Appends the accepted lines of a lexicon to `out`, and returns how many were skipped because
/// their surface is empty.
///
/// `file` is the lexicon's file number in an error. On an error `out` is unchanged. (MeCab,
/// dic-detail)
pub fn read_lexicon<'a>(
    alloc: Global,
    bytes: &'a [u8],
    file: u32,
    out: &mut Vec<Record<'a>>,
) -> Result<u64, SourceFault>
    ensures accepted { IfOk result (AppendsLexicon file bytes.now out.old.items out.new.items) }
    ensures rejected { IfErr result (λ fault. IsMemoryOr fault
        (IsLexicon file (length out.old.items) bytes.now (Err fault))) }
    ensures unchanged { OnErr result (out.new.items ≡ out.old.items) }
{
    let held = out.len();
    let read = append_lines(alloc, bytes, file, out);
    if read.is_err() {
        out.truncate(held);
    }
    read
}

/// Appends the accepted lines up to the first rejected one.
fn append_lines<'a>(
    alloc: Global,
    bytes: &'a [u8],
    file: u32,
    out: &mut Vec<Record<'a>>,
) -> Result<u64, SourceFault>
    ensures begins { take (length out.old.items) out.new.items ≡ out.old.items }
    ensures read { IsLexiconResult file bytes.now out.old.items out.new.items result }
{
    let mut skipped = 0;
    for (number, line) in lines(bytes) {
        match append_line(alloc, number, line, out) {
            Ok(counts) => skipped += u64::from(counts),
            Err(kind) => return Err(kind.at(file, number)),
        }
    }
    Ok(skipped)
}

/// Appends the record of a line, if it is accepted, and returns whether the line counts as skipped.
fn append_line<'a>(
    alloc: Global,
    number: u64,
    line: &'a [u8],
    out: &mut Vec<Record<'a>>,
) -> Result<bool, SourceKind>
    ensures taken { IfOk result (AppendsLine number line.now out.old.items out.new.items) }
    ensures rejected { IfErr result (IsLineError number line.now (length out.old.items)) }
    ensures unchanged { OnErr result (out.new.items ≡ out.old.items) }
{
    match read_line(alloc, number, line)? {
        LineOutcome::Blank => Ok(false),
        LineOutcome::Skipped => Ok(true),
        LineOutcome::Accepted(accepted) => {
            if out.len() >= ENTRIES_MAX {
                return Err(SourceKind::TooManyEntries);
            }
            out.push(accepted)?;
            Ok(false)
        }
    }
}
