//! Prints paths in a format.

ghost use Rattle.std.specs.Prelude.{◌≡◌, ◌≤◌, length, take, vec_len, pos, OnOk, OnErr, IsTrue};
ghost use Rattle.mj_model.specs.declared.limits.TheConstants.{SENTENCE_MAX};
ghost use Rattle.mj_model.specs.Lists.{GrowsBy};
ghost use Rattle.mj_model.specs.BestOver.{IsPathOver, cost_over};
ghost use Rattle.mj_model.specs.Connection.{is_pair};
ghost use Rattle.out_format.specs.PrintedPaths.{PrintsPath, PrintsWords, cost_with_word};
ghost use Rattle.out_format.specs.Followable.{AreFollowable, IsLow};
ghost use Rattle.out_format.specs.Plain.{HasPlainWords};
ghost use Rattle.word_lookup.specs.Overlays.{overlay_of};

use crate::format::Format;
use crate::item_printer::append_parts;
use crate::last_token::LastToken;
use crate::line::Line;
use crate::plain_word::PlainWord;
use crate::word_in_path::WordInPath;
use mj_model::Word;
use mj_model::paths::{Path, StoredWords, WordStream};
use std::alloc::{AllocError, Global};
use word_lookup::Dictionaries;

/// Appends the text of `path`, a path of `text`. `text` has at most `SENTENCE_MAX` bytes.
///
/// Only `out` allocates, as it grows. On an error `out` is unchanged.
pub fn print(
    _alloc: Global,
    format: &Format,
    dictionaries: &Dictionaries<'_>,
    text: &str,
    path: &Path,
    out: &mut Vec<u8>,
) -> Result<(), AllocError>
    requires short { length text.now ≤ SENTENCE_MAX }
    requires path { IsPathOver (overlay_of dictionaries.now) text.now path.now.words.items }
    requires total { path.now.total ≡ cost_over (overlay_of dictionaries.now) path.now.words.items }
    ensures appended { OnOk result (GrowsBy (PrintsPath (overlay_of dictionaries.now) format.now
        text.now path.now.words.items) out.old.items out.new.items) }
    ensures unchanged { OnErr result (out.new.items ≡ out.old.items) }
{
    let words = StoredWords { left: &path.words };
    print_words(format, dictionaries, text, words, path.total, out)
}

/// Appends the text of a path of `text` whose words are read from `words` one by one. `total` is
/// the cost of the path.
///
/// `text` has at most `SENTENCE_MAX` bytes. On an error `out` is unchanged.
pub fn print_words<W: WordStream + Drop>(
    format: &Format,
    dictionaries: &Dictionaries<'_>,
    text: &str,
    words: W,
    total: i64,
    out: &mut Vec<u8>,
) -> Result<(), AllocError>
    requires short { length text.now ≤ SENTENCE_MAX }
    requires path { IsPathOver (overlay_of dictionaries.now) text.now (W.left words) }
    requires total { total ≡ cost_over (overlay_of dictionaries.now) (W.left words) }
    ensures appended { OnOk result (GrowsBy (PrintsPath (overlay_of dictionaries.now) format.now
        text.now (W.left words)) out.old.items out.new.items) }
    ensures unchanged { OnErr result (out.new.items ≡ out.old.items) }
{
    let count = out.len();
    let appended = append_path(format, dictionaries, text, words, total, out);
    if appended.is_err() {
        out.truncate(count);
    }
    appended
}

/// Appends the part before the first word, the words, and the part after the last word.
fn append_path<'a, W: WordStream + Drop>(
    format: &Format,
    dictionaries: &'a Dictionaries<'a>,
    text: &'a str,
    words: W,
    total: i64,
    out: &mut Vec<u8>,
) -> Result<(), AllocError>
    requires words { AreFollowable (overlay_of dictionaries.now) text.now 0 (pos 0)
        (W.left words) }
    requires total { total ≡ cost_over (overlay_of dictionaries.now) (W.left words) }
    ensures appended { OnOk result (GrowsBy (PrintsPath (overlay_of dictionaries.now) format.now
        text.now (W.left words)) out.old.items out.new.items) }
    ensures unchanged { take (vec_len out.old) out.new.items ≡ out.old.items }
{
    append_parts(&Line { text, cost: 0 }, format.bos_parts(), out)?;
    append_words(format, dictionaries, text, words, out)?;
    append_parts(&Line { text, cost: total }, format.eos_parts(), out)
}

/// Appends the text of `words` in a format that uses only surfaces and features.
fn append_plain_words<'a, W: WordStream + Drop>(
    dictionaries: &'a Dictionaries<'a>,
    text: &'a str,
    words: W,
    format: &Format,
    out: &mut Vec<u8>,
) -> Result<(), AllocError>
    requires words { AreFollowable (overlay_of dictionaries.now) text.now 0 (pos 0) (W.left words) }
    requires plain { HasPlainWords format.now }
    ensures appended { OnOk result (GrowsBy (PrintsWords (overlay_of dictionaries.now) format.now
        text.now 0 (pos 0) (W.left words)) out.old.items out.new.items) }
    ensures unchanged { take (vec_len out.old) out.new.items ≡ out.old.items }
{
    let mut words = words;
    while let Some(word) = words.next_word() {
        let shown = PlainWord {
            dictionaries,
            text,
            word: &word,
        };
        append_parts(&shown, format.word_parts(word.origin), out)?;
    }
    Ok(())
}

/// Appends the text of `words`, the first of which follows BOS. Skips costs and fields if the
/// format doesn't use them.
fn append_words<'a, W: WordStream + Drop>(
    format: &Format,
    dictionaries: &'a Dictionaries<'a>,
    text: &'a str,
    words: W,
    out: &mut Vec<u8>,
) -> Result<(), AllocError>
    requires { AreFollowable (overlay_of dictionaries.now) text.now 0 (pos 0) (W.left words) }
    ensures appended { OnOk result (GrowsBy (PrintsWords (overlay_of dictionaries.now) format.now
        text.now 0 (pos 0) (W.left words)) out.old.items out.new.items) }
    ensures unchanged { take (vec_len out.old) out.new.items ≡ out.old.items }
{
    if format.has_plain_words() {
        return append_plain_words(dictionaries, text, words, format, out);
    }
    let mut words = words;
    let mut right_before: u16 = 0;
    let mut cost_so_far: i64 = 0;
    let mut last = LastToken::none();
    while let Some(word) = words.next_word() {
        cost_so_far = cost_with(dictionaries, right_before, cost_so_far, &word);
        let parts = format.word_parts(word.origin);
        last.switch_to(dictionaries, &word, parts);
        let in_path = WordInPath {
            dictionaries,
            line: Line {
                text,
                cost: cost_so_far,
            },
            word: &word,
            right_before,
            fields: &last.fields,
        };
        append_parts(&in_path, parts, out)?;
        right_before = word.right;
    }
    Ok(())
}

/// Returns the cost of a path extended by `word`: `cost_before`, the connection cost and the word
/// cost. `right_before` is the right id of the last word of the path.
pub fn cost_with(
    dictionaries: &Dictionaries<'_>,
    right_before: u16,
    cost_before: i64,
    word: &Word,
) -> i64
    requires pair { IsTrue (is_pair (overlay_of dictionaries.now).system.sizes right_before
        word.now.left) }
    requires low { IsLow cost_before }
    ensures { result ≡ cost_with_word (overlay_of dictionaries.now) right_before cost_before
        word.now }
{
    let connection = dictionaries.cost(right_before, word.left);
    cost_before + i64::from(connection) + i64::from(word.cost)
}
