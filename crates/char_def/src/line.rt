//! Lines of `char.def`.
ghost use Rattle.std.specs.Prelude.{◌≡◌, ◌∷◌, ◌<◌, ℕ, List, Some, None, true, false, length, MatchResult, option_map};
ghost use Rattle.char_def.specs.Results.{IsNameIn};
ghost use Rattle.std.specs.List.{list_all};
ghost use Rattle.mj_model.specs.CharDef.{Bad, Maps, is_name, flag as flag_of, category_of, category_from, mapping_line as mapping_of, char_line, words_before_comment};
ghost use Rattle.mj_model.specs.Numbers.{natural_in};
ghost use Rattle.char_def.specs.CharLines.{category_is, line_is, mapping_is};

use crate::code_range::CodeRange;
use crate::hexadecimal::starts_with_hex;
use crate::line_words::LineWords;
use crate::range::code_range;
use lex_source::number;
use mj_model::{CATEGORY_LENGTH_MAX, CATEGORY_NAME_MAX, Category, SourceKind};

/// The contents of a line.
#[derive(Drop)]
pub(crate) enum CharLine<'a> {
    /// A blank line, or only a comment.
    Nothing,
    Category(CategoryLine<'a>),
    Mapping(MappingLine<'a>),
}

/// A category with its name.
#[derive(Clone, Copy)]
pub(crate) struct CategoryLine<'a> {
    pub(crate) name: &'a str,
    pub(crate) category: Category,
}

/// A range of code points, the name of the category listed first, and the names of the others.
#[derive(Drop)]
pub(crate) struct MappingLine<'a> {
    pub(crate) range: CodeRange,
    pub(crate) first: &'a [u8],
    pub(crate) others: LineWords<'a>,
}

/// Reads a line, apart from all other lines.
pub(crate) fn read_line(line: &[u8]) -> Result<CharLine<'_>, SourceKind>
    ensures { MatchResult result (λ read. char_line line.now ≡ line_is read)
        (λ kind. char_line line.now ≡ Bad kind) }
{
    let mut words = LineWords::new(line);
    let Some(first) = words.next() else {
        return Ok(CharLine::Nothing);
    };
    if starts_with_hex(first) {
        let mapping = mapping_line(first, words, after_first(line))?;
        return Ok(CharLine::Mapping(mapping));
    }
    match category_line(first, words) {
        Some(category) => Ok(CharLine::Category(category)),
        None => Err(SourceKind::BadLine),
    }
}

/// Reads a mapping line. `range` is its first word, and `checked` and `names` are both the names
/// after it, which are read twice.
fn mapping_line<'a>(
    range: &[u8],
    checked: LineWords<'a>,
    names: LineWords<'a>,
) -> Result<MappingLine<'a>, SourceKind>
    requires { checked ≡ names }
    ensures { MatchResult result (λ mapping. mapping_of range.now names.entry
        ≡ Maps (mapping_is mapping)) (λ kind. mapping_of range.now names.entry ≡ Bad kind) }
{
    let mut others = names;
    let Some(first) = others.next() else {
        return Err(SourceKind::BadLine);
    };
    if !are_names(checked) {
        return Err(SourceKind::BadLine);
    }
    match code_range(range) {
        Some(range) => Ok(MappingLine {
            range,
            first,
            others,
        }),
        None => Err(SourceKind::BadRange),
    }
}

/// Returns the words of a line after the first one.
fn after_first(line: &[u8]) -> LineWords<'_>
    ensures { (word : List ℕ) (words : List (List ℕ))
        → words_before_comment line.now ≡ word ∷ words → result ≡ words }
{
    let mut words = LineWords::new(line);
    let _ = words.next();
    words
}

/// Returns whether each word is a valid name of a category.
fn are_names(words: LineWords) -> bool
    ensures { result ≡ list_all is_name words.entry }
{
    for word in words {
        if category_name(word).is_none() {
            return false;
        }
    }
    true
}

/// Returns `word` as the name of a category, if it is valid.
fn category_name(word: &[u8]) -> Option<&str>
    ensures { IsNameIn word.now result }
{
    if word.len() > CATEGORY_NAME_MAX {
        return None;
    }
    match simdutf8::compat::from_utf8(word) {
        Ok(name) => Some(name),
        Err(_) => None,
    }
}

/// Reads a category line, from its first word `name` and the words after it. (MeCab, `char.def`)
fn category_line<'a>(name: &'a [u8], numbers: LineWords<'a>) -> Option<CategoryLine<'a>>
    ensures { option_map category_is result ≡ category_from (name.now ∷ numbers.entry) }
{
    let mut numbers = numbers;
    let invoke = numbers.next()?;
    let group = numbers.next()?;
    let length = numbers.next()?;
    let name = category_name(name)?;
    let category = category(invoke, group, length)?;
    Some(CategoryLine { name, category })
}

fn category(invoke: &[u8], group: &[u8], length: &[u8]) -> Option<Category>
    ensures { result ≡ category_of invoke.now group.now length.now }
{
    Some(Category {
        invoke: flag(invoke)?,
        group: flag(group)?,
        length: natural(length, CATEGORY_LENGTH_MAX)?,
    })
}

fn flag(word: &[u8]) -> Option<bool>
    ensures { result ≡ flag_of word.now }
{
    Some(natural(word, 1)? == 1)
}

/// Returns the value of a number from 0 to `most`.
fn natural(word: &[u8], most: u8) -> Option<u8>
    ensures { result ≡ natural_in most word.now }
{
    let value = number(word)?;
    if value >= 0 && value <= i32::from(most) {
        Some(value as u8)
    } else {
        None
    }
}
