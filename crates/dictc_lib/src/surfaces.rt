//! The longest surface of lexicons.

ghost use Rattle.std.specs.Prelude.{List, Err, IfErr, IfOk};
ghost use Rattle.dict_compile.specs.Results.{lexicons_of};
ghost use Rattle.mj_model.specs.FirstFault.{IsMemoryOr};
ghost use Rattle.mj_model.specs.Lexicon.{IsLexicon, rows_of};
ghost use Rattle.dictc_lib.specs.Surfaces.{HasSurfaces, HaveFirstFault, IsLongerOf, IsLongestIn, IsLongestOf, surfaces_of};
ghost use Rattle.dictc_lib.specs.declared.surfaces.Surface.{Surface as SurfaceOf};

use lex_source::read_lexicon;
use mj_model::{FIRST_LEXICON_FILE, Record, SourceFault};
use programs::{Reporter, Stage, WholeFile};
use std::alloc::Global;

/// The length of a surface in bytes, and its position in the lexicons.
#[derive(Clone, Copy, Debug, PartialEq, Eq, Drop)]
pub struct Surface {
    pub bytes: usize,
    /// Index of the lexicon, counted from 0.
    pub lexicon: usize,
    /// Number of the line, counted from 1.
    pub line: u64,
}

/// Returns the longest surface of lexicons, the first one if several are equally long; None if
/// there are no entries.
pub fn longest_surface(alloc: Global, lexicons: &[&[u8]]) -> Result<Option<Surface>, SourceFault>
    ensures longest { IfOk result (IsLongestOf (lexicons_of lexicons.now)) }
    ensures rejected { IfErr result (λ fault.
        IsMemoryOr fault (HaveFirstFault (lexicons_of lexicons.now) fault)) }
{
    let mut longest = None;
    let mut file = FIRST_LEXICON_FILE;
    for (number, lexicon) in lexicons.iter().enumerate() {
        let found = longest_in(alloc, lexicon, file, number)?;
        longest = longer_of(longest, found);
        file = file.saturating_add(1);
    }
    Ok(longest)
}

/// Returns the longest surface of the lexicon with index `number`. `file` is its number in a
/// `SourceFault`.
fn longest_in(
    alloc: Global,
    lexicon: &[u8],
    file: u32,
    number: usize,
) -> Result<Option<Surface>, SourceFault>
    ensures longest { IfOk result (λ longest. (surfaces : List SurfaceOf)
        × HasSurfaces number lexicon.now surfaces × IsLongestIn surfaces longest) }
    ensures rejected { IfErr result (λ fault.
        IsMemoryOr fault (IsLexicon file 0 lexicon.now (Err fault))) }
{
    let mut records = Vec::new(alloc);
    let _skipped = read_lexicon(alloc, lexicon, file, &mut records)?;
    Ok(longest_among(&records, number))
}

/// Returns the longest surface of the entries of a lexicon with index `number`.
fn longest_among(records: &[Record<'_>], number: usize) -> Option<Surface>
    ensures { IsLongestIn (surfaces_of number (rows_of records.now)) result }
{
    let mut longest = None;
    for record in records {
        let surface = Surface {
            bytes: record.surface.len(),
            lexicon: number,
            line: record.line,
        };
        longest = longer_of(longest, Some(surface));
    }
    longest
}

/// Returns the longer of two surfaces, or the first if they are equally long. A missing one is
/// ignored.
fn longer_of(first: Option<Surface>, second: Option<Surface>) -> Option<Surface>
    ensures { IsLongerOf first second result }
{
    match (first, second) {
        (Some(one), Some(two)) if one.bytes < two.bytes => second,
        (Some(_), _) => first,
        (None, _) => second,
    }
}

/// Logs the longest surface of lexicons that were compiled, if log messages are enabled. Logs
/// nothing if an allocation fails.
pub(crate) fn log_longest(
    alloc: Global,
    reporter: &Reporter<'_>,
    files: &[WholeFile],
    lexicons: &[&[u8]],
) {
    if !reporter.is_verbose() {
        return;
    }
    let Ok(Some(longest)) = longest_surface(alloc, lexicons) else {
        return;
    };
    if let Some(file) = files.get(longest.lexicon) {
        reporter.log(Stage::LongestSurface {
            bytes: longest.bytes,
            path: file.path.as_str(),
            line: longest.line,
        });
    }
}
