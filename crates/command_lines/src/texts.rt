//! What a program prints about its command line and its errors. The crate `messages` has the texts
//! of `dictc` and `jseg`.

use crate::explanation::Explanation;

/// The texts of a program.
#[derive(Clone, Copy)]
pub struct Texts<'a> {
    /// Version of the program, and the layouts of the images that it reads and writes.
    pub version: &'static str,
    /// Help, each text after its key: the name of the program or of a subcommand, or the id of an
    /// option.
    pub help: &'static [(&'static str, &'static str)],
    /// Hints for invalid command lines, each text after its key: the id of a rejected option, or
    /// what is missing.
    pub hints: &'static [(&'static str, &'static str)],
    /// Explanations of error codes by subject, in the order in which they are listed.
    pub explanations: &'a [&'static [Explanation]],
}

impl Texts<'_> {
    /// Returns the help of `key`; empty if it has none.
    pub(crate) fn help_of(&self, key: &str) -> &'static str {
        text_of(self.help, key)
    }

    /// Returns the hint of `key`; empty if it has none.
    pub(crate) fn hint_of(&self, key: &str) -> &'static str {
        text_of(self.hints, key)
    }
}

/// Returns the first text with this key; empty if there is none.
fn text_of(texts: &[(&str, &'static str)], key: &str) -> &'static str {
    for (known, text) in texts {
        if *known == key {
            return *text;
        }
    }
    ""
}
