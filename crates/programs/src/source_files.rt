//! The source files of a dictionary.

ghost use Rattle.std.specs.Prelude.{◌≡◌, ◌⊎◌, ◌-◌, ◌≤◌, ◌<◌, None, string_bytes};
ghost use Rattle.mj_model.specs.declared.source_fault.TheConstants.{CHAR_FILE as CharFile, FIRST_LEXICON_FILE as FirstLexiconFile, MATRIX_FILE as MatrixFile, NO_FILE as NoFile, UNK_FILE as UnkFile};
ghost use Rattle.programs.specs.Paths.{IsFound, IsLexiconPath, IsPathOf};

use crate::reporter::Reporter;
use crate::whole_file::WholeFile;
use mj_model::{CHAR_FILE, FIRST_LEXICON_FILE, MATRIX_FILE, NO_FILE, UNK_FILE};
use std::string::String;

/// The source files of a system dictionary: the path of `matrix.def`, which need not be held in
/// memory as a whole, and the contents of the other files. The lexicons are in the order in which
/// they are read.
#[derive(Drop)]
pub struct SourceFiles {
    pub matrix: String,
    pub chars: WholeFile,
    pub unk: WholeFile,
    pub lexicons: Vec<WholeFile>,
}

impl SourceFiles {
    /// Returns the path of the file with this number in a `SourceFault`; None if there is no such
    /// file.
    pub fn path(&self, number: u32) -> Option<&str>
        ensures matrix { number ≡ MatrixFile → IsFound (string_bytes self.now.matrix) result }
        ensures chars { number ≡ CharFile → IsPathOf self.now.chars result }
        ensures unk { number ≡ UnkFile → IsPathOf self.now.unk result }
        ensures lexicon { FirstLexiconFile ≤ number → number < NoFile
            → IsLexiconPath self.now.lexicons.items (number - FirstLexiconFile) result }
        ensures no_file { number ≡ NoFile → result ≡ None }
    {
        match number {
            MATRIX_FILE => Some(self.matrix.as_str()),
            CHAR_FILE => Some(self.chars.path.as_str()),
            UNK_FILE => Some(self.unk.path.as_str()),
            lexicon => lexicon_path(&self.lexicons, lexicon),
        }
    }

    /// Logs that each file was read. `bytes` is the size of `matrix.def` and `first` its first
    /// bytes.
    pub fn log(&self, reporter: &Reporter<'_>, bytes: usize, first: &[u8]) {
        reporter.log_read(self.matrix.as_str(), bytes, first);
        reporter.log_source(&self.chars);
        reporter.log_source(&self.unk);
        for lexicon in &self.lexicons {
            reporter.log_source(lexicon);
        }
    }
}

/// Returns the path of the lexicon with this file number, which starts at `FIRST_LEXICON_FILE`;
/// None if there is none.
pub fn lexicon_path(lexicons: &[WholeFile], number: u32) -> Option<&str>
    ensures lexicon { FirstLexiconFile ≤ number → number < NoFile
        → IsLexiconPath lexicons.now (number - FirstLexiconFile) result }
    ensures no_lexicon { (number < FirstLexiconFile) ⊎ (number ≡ NoFile) → result ≡ None }
{
    if number == NO_FILE {
        return None;
    }
    let lexicon = number.checked_sub(FIRST_LEXICON_FILE)?;
    Some(lexicons.get(lexicon as usize)?.path.as_str())
}
