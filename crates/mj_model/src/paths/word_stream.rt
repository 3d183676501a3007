//! The words of a path, one after another.

ghost use Rattle.std.specs.Iterator.{YieldsFirst};

use crate::Word;

/// The words of a path, read one after another. They need not be in memory.
pub trait WordStream {
    /// The remaining words, in order.
    ghost use Rattle.std.specs.Prelude.{List};
    ghost use Rattle.mj_model.specs.declared.word.Word.{Word};

    ghost left: { Self → List Word };

    /// Reads the next word, or returns `None` if no word remains.
    fn next_word(&mut self) -> Option<Word>
        ensures { YieldsFirst left self.old result self.new };
}

/// A stream of words that are in memory.
#[derive(Drop)]
pub struct StoredWords<'a> {
    pub left: &'a [Word],
}

impl<'a> WordStream for StoredWords<'a> {
    ghost left = { λ words. words.left.now };

    #[inline(always)]
    fn next_word(&mut self) -> Option<Word> {
        let (first, others) = self.left.split_first()?;
        self.left = others;
        Some(*first)
    }
}
