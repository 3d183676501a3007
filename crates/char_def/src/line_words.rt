//! The words of a line of `char.def`.
ghost use Rattle.std.specs.Prelude.{◌≡◌, ℕ, List};
ghost use Rattle.std.specs.Iterator.{YieldsFirstRef, item_count};
ghost use Rattle.mj_model.specs.CharDef.{words_before_comment};
ghost use Rattle.char_def.specs.LineWords.{before_comment};

use lex_source::Words;
use std::marker::Model;

/// An iterator over the words of a line up to its comment.
#[derive(Drop)]
pub(crate) struct LineWords<'a> {
    words: Words<'a>,
}

impl<'a> Model for LineWords<'a> {
    ghost Value = { List (List ℕ) };

    ghost view = { λ it. before_comment it.words };
}

impl<'a> LineWords<'a> {
    /// Returns the words of a line up to the first one that starts with `#`. (MeCab, `char.def`;
    /// that a comment starts at a word is this project's own choice)
    pub(crate) fn new(line: &'a [u8]) -> LineWords<'a>
        ensures { result ≡ words_before_comment line.now }
    {
        LineWords {
            words: Words::new(line),
        }
    }
}

impl<'a> Iterator for LineWords<'a> {
    type Item = &'a [u8];

    ghost next_gives = { YieldsFirstRef (λ rest. rest) };

    ghost remaining = { item_count (λ rest. rest) };

    fn next(&mut self) -> Option<&'a [u8]> {
        let word = self.words.next()?;
        if word.starts_with(b"#") {
            self.words = Words::new(&word[word.len()..]);
            return None;
        }
        Some(word)
    }
}
