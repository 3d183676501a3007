//! A source of words for tests: a list.

ghost use Rattle.std.specs.Prelude.{◌≡◌, ◌++◌, ◌∷◌, [], Some, IfOk, IsTrue, IsFalse};
ghost use Rattle.search_tests.specs.Sample.{lies_at, numbered, sample_connection, sample_surface, sample_words, surface_of, words_numbered};

use lattice::WordSource;
use mj_model::{Origin, Word};
use std::alloc::{AllocError, Global};
use word_lookup::{EntryList, Surface};

/// A text by its length in bytes and its words, which are numbered by their order.
#[derive(Drop)]
pub struct Sample {
    pub length: usize,
    pub words: Vec<Word>,
}

impl WordSource for Sample {
    type Words = Word;

    // Each surface has one word.
    ghost words_in = { λ word. word ∷ [] };

    ghost searched_text = { λ s. record {
      text_length = s.length;
      words = sample_words s.words.items 0 s.length;
      surface_words = words_numbered s.words.items;
      connection = sample_connection;
      is_place = λ p. Unit {0};
      is_pair = λ r l. Unit {0};
    } };

    // A search scans nothing of the text.
    type Cursor = ();

    ghost is_cursor = { λ s cursor. Unit {0} };

    ghost is_scanned = { λ s place cursor. Unit {0} };

    fn length(&self) -> usize {
        self.length
    }

    fn cursor(&self) {}

    fn surfaces_at(
        &self,
        place: usize,
        _cursor: &mut (),
        out: &mut Vec<Surface>,
    ) -> Result<(), AllocError> {
        let before = out.len();
        for number in 0..self.words.len() {
            if !add_sample(self.length, place, number, &self.words[number], out) {
                out.truncate(before);
                return Err(AllocError);
            }
        }
        Ok(())
    }

    fn words_of(&self, surface: &Surface) -> Word {
        let number = surface.first as usize;
        by_number(number, &self.words[number])
    }

    fn word(&self, words: &Word, _i: u32) -> Word {
        *words
    }

    fn single_word_surface(&self, surface: &Surface, _i: u32) -> Surface {
        *surface
    }

    // The left id is all that the costs depend on.
    type Costs = u16;

    ghost costs_in = { λ left right. Some (sample_connection right left) };

    fn costs_before(&self, left: u16) -> u16 {
        left
    }

    fn cost_after(&self, costs: &u16, right: usize) -> i16 {
        match (right, *costs) {
            (0, 0) => 0,
            (0, _) => 10,
            (_, 0) => 5,
            (_, _) => 7,
        }
    }
}

/// Returns whether the word starts at `place`, is not empty, ends within the text, and has a word
/// cost of at most three digits.
fn lies_here(length: usize, place: usize, word: &Word) -> bool
    ensures { result ≡ lies_at length place word.now }
{
    word.place == place
        && place < word.end
        && word.end <= length
        && -1000 < word.cost
        && word.cost < 1000
}

/// Returns `word` with the number `number` as its origin.
fn by_number(number: usize, word: &Word) -> Word
    ensures { result ≡ numbered number word.now }
{
    Word {
        origin: Origin::Known {
            dict: number,
            token: 0,
        },
        ..*word
    }
}

/// Appends the surface of the word if it lies at `place`. Returns false if an allocation failed or
/// `number` exceeds 32 bits.
fn add_sample(
    length: usize,
    place: usize,
    number: usize,
    word: &Word,
    out: &mut Vec<Surface>,
) -> bool
    ensures added { IsTrue result
        → out.new.items ≡ out.old.items ++ sample_surface number length place word.now }
    ensures unchanged { IsFalse result → out.new.items ≡ out.old.items }
{
    !lies_here(length, place, word) || add_surface(number, word, out)
}

/// Appends the surface of a word. Returns false if an allocation failed or `number` exceeds 32
/// bits.
fn add_surface(number: usize, word: &Word, out: &mut Vec<Surface>) -> bool
    ensures added { IsTrue result
        → out.new.items ≡ out.old.items ++ surface_of number word.now ∷ [] }
    ensures unchanged { IsFalse result → out.new.items ≡ out.old.items }
{
    let Ok(first) = u32::try_from(number) else {
        return false;
    };
    let surface = Surface {
        list: EntryList::Categories,
        first,
        count: 1,
        place: word.place,
        start: word.start,
        end: word.end,
    };
    out.push(surface).is_ok()
}

/// A word by the byte offsets of its start and end and by its word cost.
pub type WordRow = (usize, usize, i16);

pub const A: WordRow = (0, 1, 10);

pub const B: WordRow = (1, 2, 10);

pub const C: WordRow = (2, 3, 10);

pub const AB: WordRow = (0, 2, 27);

/// Returns a text whose words have left id 1 and right id 1.
pub fn sample_of(alloc: Global, length: u16, entries: &[WordRow]) -> Result<Sample, AllocError>
    ensures { IfOk result (λ s. s.length ≡ length) }
{
    let mut words = Vec::new(alloc);
    for (place, end, cost) in entries {
        words.push(Word {
            place: *place,
            start: *place,
            end: *end,
            left: 1,
            right: 1,
            cost: *cost,
            origin: Origin::Unknown { token: 0 },
        })?;
    }
    Ok(Sample {
        length: usize::from(length),
        words,
    })
}

/// Returns whether `word` has the number `number` in the list.
pub fn has_number(word: &Word, number: &usize) -> bool {
    match word.origin {
        Origin::Known { dict, token } => dict == *number && token == 0,
        Origin::Unknown { .. } => false,
    }
}
