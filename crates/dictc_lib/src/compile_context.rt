//! The context in which lexicons are compiled: the definitions of a system dictionary, or the
//! system dictionary of a user dictionary.

ghost use Rattle.std.specs.Prelude.{◌≡◌, ◌-◌, ◌≤◌, ◌<◌, None, IfSome};
ghost use Rattle.image_format.specs.ImageMeaning.{image_tables};
ghost use Rattle.mj_model.specs.FirstFault.{IsMemoryOr};
ghost use Rattle.mj_model.specs.declared.source_fault.TheConstants.{CHAR_FILE as CharFile, FIRST_LEXICON_FILE as FirstLexiconFile, MATRIX_FILE as MatrixFile, NO_FILE as NoFile, UNK_FILE as UnkFile};
ghost use Rattle.programs.specs.Paths.{IsFound, IsLexiconPath, IsPathOf};
ghost use Rattle.dict_compile.specs.Results.{lexicons_of};
ghost use Rattle.dict_compile.specs.Compilation.{IsCompilationCause, IsCompilationFault, IsUserCause, IsUserFault};
ghost use Rattle.dictc_lib.specs.CompileContext.{HaveNoFaultIn, IsCauseInContext, NoFaultIs};
ghost use Rattle.dictc_lib.specs.Rejections.{IsPathIn};

use dict_compile::{CompileUserFault, compile, compile_user};
use dict_image::Dict;
use mj_model::{CHAR_FILE, FIRST_LEXICON_FILE, MATRIX_FILE, SourceFault, Sources, UNK_FILE};
use programs::{WholeFile, lexicon_path};
use std::alloc::Global;

/// The context in which lexicons are compiled.
#[derive(Clone, Copy)]
pub(crate) enum CompileContext<'a> {
    /// The definitions of a system dictionary. `matrix` is the path of `matrix.def`. `header` lists
    /// its sizes without costs, because costs cause no error in a lexicon.
    Definitions {
        matrix: &'a str,
        header: &'a [u8],
        chars: &'a WholeFile,
        unk: &'a WholeFile,
    },
    /// The system dictionary of a user dictionary.
    System(&'a Dict),
}

impl<'a> CompileContext<'a> {
    /// Returns the first error of `lexicons`, or the error of an allocation or of a full double
    /// array; None if they compile.
    pub(crate) fn first_fault(self, alloc: Global, lexicons: &[&[u8]]) -> Option<SourceFault>
        ensures cause { IfSome result (λ fault.
            IsMemoryOr fault (IsCauseInContext self.entry (lexicons_of lexicons.now) fault)) }
        ensures none { result ≡ None → HaveNoFaultIn self.entry (lexicons_of lexicons.now) }
    {
        match self {
            CompileContext::Definitions {
                header,
                chars,
                unk,
                ..
            } => {
                let sources = Sources {
                    matrix: header,
                    chars: &chars.bytes,
                    unk: &unk.bytes,
                    lexicons,
                };
                fault_of_sources(alloc, &sources)
            }
            CompileContext::System(dict) => fault_for_system(alloc, dict, lexicons),
        }
    }

    /// Returns the path of the file with this number in a `SourceFault`; None if there is no such
    /// file.
    pub(crate) fn path(self, lexicons: &'a [WholeFile], number: u32) -> Option<&'a str>
        ensures { IsPathIn self.entry lexicons.now number result }
    {
        match self {
            CompileContext::Definitions {
                matrix,
                chars,
                unk,
                ..
            } => source_path(matrix, chars, unk, lexicons, number),
            CompileContext::System(_) => lexicon_path(lexicons, number),
        }
    }

    /// Returns the file with this number in a `SourceFault`, if its lines have the fields of an
    /// entry.
    pub(crate) fn entries(self, lexicons: &'a [WholeFile], number: u32) -> Option<&'a WholeFile> {
        match self {
            CompileContext::Definitions { unk, .. } if number == UNK_FILE => Some(unk),
            _ => lexicons.get(number.checked_sub(FIRST_LEXICON_FILE)? as usize),
        }
    }
}
/// Returns the path of the file with this number among the sources of a system dictionary; None if
/// there is no such file.
fn source_path<'a>(
    matrix: &'a str,
    chars: &'a WholeFile,
    unk: &'a WholeFile,
    lexicons: &'a [WholeFile],
    number: u32,
) -> Option<&'a str>
    ensures matrix { number ≡ MatrixFile → IsFound matrix.now result }
    ensures chars { number ≡ CharFile → IsPathOf chars.now result }
    ensures unk { number ≡ UnkFile → IsPathOf unk.now result }
    ensures lexicon { FirstLexiconFile ≤ number → number < NoFile
        → IsLexiconPath lexicons.now (number - FirstLexiconFile) result }
    ensures no_file { number ≡ NoFile → result ≡ None }
{
    match number {
        MATRIX_FILE => Some(matrix),
        CHAR_FILE => Some(chars.path.as_str()),
        UNK_FILE => Some(unk.path.as_str()),
        lexicon => lexicon_path(lexicons, lexicon),
    }
}

/// Returns the first error of a system dictionary's sources; None if they compile.
fn fault_of_sources(alloc: Global, sources: &Sources<'_>) -> Option<SourceFault>
    ensures cause { IfSome result
        (λ fault. IsMemoryOr fault (IsCompilationCause sources.now fault)) }
    ensures none { result ≡ None → NoFaultIs (IsCompilationFault sources.now) }
{
    match compile(alloc, sources) {
        Ok(_compiled) => None,
        Err(fault) => Some(fault),
    }
}

/// Returns the first error of user lexicons for a system dictionary; None if they compile, or if
/// `system` is not a system dictionary.
fn fault_for_system(alloc: Global, system: &Dict, lexicons: &[&[u8]]) -> Option<SourceFault>
    ensures cause { IfSome result (λ fault. IsMemoryOr fault
        (IsUserCause (image_tables system.now) (lexicons_of lexicons.now) fault)) }
    ensures none { result ≡ None
        → NoFaultIs (IsUserFault (image_tables system.now) (lexicons_of lexicons.now)) }
{
    let fault = match compile_user(alloc, system, lexicons) {
        Ok(_compiled) => return None,
        Err(fault) => fault,
    };
    match fault {
        CompileUserFault::Source(fault) => Some(fault),
        CompileUserFault::NotSystem => None,
    }
}
