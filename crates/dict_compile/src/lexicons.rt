//! Reading of the lexicons of a dictionary.

ghost use Rattle.std.specs.Prelude.{◌≡◌, ◌+◌, ◌≤◌, ◌^◌, [], Ok, Err, IfOk, IfErr};
ghost use Rattle.mj_model.specs.Dictionary.{AreLexicons, next_file};
ghost use Rattle.mj_model.specs.FirstFault.{IsMemoryOr};
ghost use Rattle.mj_model.specs.Lexicon.{SkipLines};
ghost use Rattle.mj_model.specs.declared.source_fault.TheConstants.{FIRST_LEXICON_FILE as FirstFile};
ghost use Rattle.dict_compile.specs.Results.{lexicons_of};
ghost use Rattle.dict_compile.specs.Steps.{AreLexiconSteps, ReportsSteps};

use crate::watch::{CompileStep, Watch};
use lex_source::SourceLexicon;
use mj_model::{FIRST_LEXICON_FILE, LAST_LEXICON_FILE, MatrixSizes, SourceFault};
use std::alloc::Global;

fn file_after(file: u32) -> u32
    ensures { result ≡ next_file file }
{
    if file < LAST_LEXICON_FILE {
        file + 1
    } else {
        LAST_LEXICON_FILE
    }
}

/// The entries of some lexicons in source order, and the number of skipped lines.
#[derive(Drop)]
pub(crate) struct LexiconsRead<'a> {
    pub(crate) lexicon: SourceLexicon<'a>,
    pub(crate) skipped: u128,
}

fn with_more(skipped: u128, more: u64) -> u128
    requires { skipped + 2 ^ 64 ≤ 2 ^ 128 }
    ensures sum { result ≡ skipped + more }
    ensures bound { result ≤ skipped + 2 ^ 64 }
{
    skipped + u128::from(more)
}

/// Reads the lexicons in order, up to the first error. Reports each one to `watch`.
pub(crate) fn read_lexicons<'a, W: Watch>(
    alloc: Global,
    lexicons: &[&'a [u8]],
    sizes: MatrixSizes,
    watch: &mut W,
) -> Result<LexiconsRead<'a>, SourceFault>
    ensures sizes { IfOk result (λ read. read.lexicon.sizes ≡ sizes) }
    ensures accepted { IfOk result (λ read. AreLexicons sizes FirstFile []
        (lexicons_of lexicons.now) (Ok read.lexicon.rows)) }
    ensures skipped { IfOk result (λ read. SkipLines (lexicons_of lexicons.now) read.skipped) }
    ensures rejected { IfErr result (λ fault. IsMemoryOr fault
        (AreLexicons sizes FirstFile [] (lexicons_of lexicons.now) (Err fault))) }
    ensures steps { ReportsSteps (W.reported watch.old) (W.reported watch.new)
        (λ _. AreLexiconSteps sizes (lexicons_of lexicons.now)) result }
{
    let mut lexicon = SourceLexicon::new(alloc, sizes);
    let mut skipped = 0;
    let mut file = FIRST_LEXICON_FILE;
    for bytes in lexicons {
        let more = lexicon.add(alloc, bytes, file)?;
        skipped = with_more(skipped, more);
        file = file_after(file);
        watch.done(CompileStep::LexiconRead {
            entries: lexicon.len() as u64,
        });
    }
    Ok(LexiconsRead { lexicon, skipped })
}
