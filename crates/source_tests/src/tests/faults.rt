//! Errors of sources: categories, unknown entries and lexicons. Reading is retried once after an
//! allocation failure.

use super::of_char_def::samples::{TWELVE, chars_of, joined_again, unk_fault};
use super::of_lex_source::records::fault_after;
use File::{Chars, FirstLexicon, MoreChars, MoreUnk, Nineteenth, OtherLexicon};
use mj_model::SourceKind::{
    self, BadLine, BadNumber, BadRange, Memory, NoDefault, NoSpace, NoSuchCategory, NotUtf8,
    TooFewFields, TooManyCategories, Twice, UndefinedCategory,
};
use mj_model::{SourceFault, sample};
use std::alloc::{Alloc, Global};
use std::io::Eprint;
use std::process::Abort;
use std::test::Fail;
use test_support::again;

/// The source that a test case gives.
#[derive(Clone, Copy, PartialEq)]
pub enum File {
    /// A whole `char.def`.
    Chars,
    /// Lines after the 12 of the sample's `char.def`.
    MoreChars,
    /// A line after those 12 and 12 more categories, which give 18 categories.
    Nineteenth,
    /// Lines after the 6 of the sample's `unk.def`.
    MoreUnk,
    /// The first lexicon, read into a list that has a record.
    FirstLexicon,
    /// The second lexicon, read into a list that has a record.
    OtherLexicon,
}

/// The source, a label, its text, the line of its error and the kind of the error.
type Row = (File, &'static str, &'static [u8], u64, SourceKind);

/// Texts that are rejected.
#[rattlefmt::skip]
static REJECTED: [Row; 44] = [
    (Chars,        "no bytes",                     b"", 0, NoDefault),
    (Chars,        "no SPACE",                     b"DEFAULT 0 1 0\n", 0, NoSpace),
    (Chars,        "no DEFAULT",                   b"SPACE 0 1 0\n0x41 OTHER\n", 0, NoDefault),
    (MoreChars,    "LENGTH above 15",              b"SYMBOL 0 0 16", 13, BadLine),
    (MoreChars,    "LENGTH above 15, a second line of a name", b"KANJI 0 0 16", 13, BadLine),
    (MoreChars,    "INVOKE above 1",               b"SYMBOL 2 0 0", 13, BadLine),
    (MoreChars,    "too few words",                b"SYMBOL 0 0", 13, BadLine),
    (MoreChars,    "a comment in the numbers",     b"SYMBOL 0 0 #2", 13, BadLine),
    (MoreChars,    "no name",                      b"0x41", 13, BadLine),
    (MoreChars,    "no name, no digits",           b"0xZZ", 13, BadLine),
    (MoreChars,    "no digit",                     b"0x KANJI", 13, BadRange),
    (MoreChars,    "a wrong digit",                b"0x4G KANJI", 13, BadRange),
    (MoreChars,    "low above high",               b"0x9FFF..0x4E00 KANJI", 13, BadRange),
    (MoreChars,    "above Unicode",                b"0x110000 KANJI", 13, BadRange),
    (MoreChars,    "above 32 bits",                b"0x100000041 KANJI", 13, BadRange),
    (MoreChars,    "high end without 0x",          b"0x41..42 KANJI", 13, BadRange),
    (MoreChars,    "one full stop",                b"0x41.0x42 KANJI", 13, BadRange),
    (MoreChars,    "three ends",                   b"0x41..0x42..0x43 KANJI", 13, BadRange),
    (MoreChars,    "a second line of a name",      b"KANJI 0 0 2", 13, Twice),
    (MoreChars,    "no such category",             b"0x3007 OTHER", 13, UndefinedCategory),
    (MoreChars,    "blanks around the full stops", b"0x41 .. 0x42", 13, UndefinedCategory),
    (MoreChars,    "a bad line after",             b"0x3007 OTHER\nSYMBOL", 14, BadLine),
    (Nineteenth,   "a 19th category",              b"M 0 0 0\n", 25, TooManyCategories),
    (Nineteenth,   "a bad line for a 19th",        b"M 0 0 16\n", 25, BadLine),
    (Nineteenth,   "a second line for a 19th",     b"L 0 0 0\n", 25, Twice),
    (MoreUnk,      "too few fields",               b"KANJI,1,1,1\n", 7, TooFewFields),
    (MoreUnk,      "a bad number",                 b"OTHER,1,1,40000,Y\n", 7, BadNumber),
    (MoreUnk,      "no such category",             b"OTHER,1,1,1,Y\n", 7, NoSuchCategory),
    (MoreUnk,      "an empty name",                b",1,1,1,Y\n", 7, NoSuchCategory),
    (MoreUnk,      "an empty name and a bad number", b",x,1,1,Y\n", 7, BadNumber),
    (MoreUnk,      "the first bad line",           b"OTHER,1,1,1,Y\nKANJI\n", 7, NoSuchCategory),
    (MoreUnk,      "after a good line",            b"KANJI,1,1,1,Y\nKANJI\n", 8, TooFewFields),
    (OtherLexicon, "an open quote",                b"\"ab,1,1,10,X", 1, TooFewFields),
    (OtherLexicon, "not UTF-8",                    b"a,1,1,5,X\n\xff,1,1,5,X", 2, NotUtf8),
    (OtherLexicon, "four fields",                  b"a,1,1,5", 1, TooFewFields),
    (OtherLexicon, "the first of two",             b"a,1,1,5,X\n\nb,1,1,-32769,X\nc", 3, BadNumber),
    (OtherLexicon, "a high left id",               b"a,65536,1,5,X", 1, BadNumber),
    (OtherLexicon, "a negative right id",          b"a,1,-1,5,X", 1, BadNumber),
    (OtherLexicon, "no cost",                      b"a,1,1,,X", 1, BadNumber),
    (OtherLexicon, "a quote in a right id",        b"a,1,\"1\"\"\",5,X", 1, BadNumber),
    (FirstLexicon, "an open quote",                b"\"ab,1,1,10,X\n", 1, TooFewFields),
    (FirstLexicon, "one after a line",             b"\"a,b\",1,1,10,X\n\"ab,1,1,10,X\n", 2,
        TooFewFields),
    (FirstLexicon, "a low cost after it",          b"\"a\"\"b\",1,1,-32768,X\na,1,1,-32769,X\n", 2,
        BadNumber),
    (FirstLexicon, "not UTF-8 after it", b"\n,1,1,5,X\n\"a,b\",1,1,20,Y\r\n\xff,1,1,5,X", 4,
        NotUtf8),
];

/// Returns the test cases. A call keeps the table out of the caller's proof.
fn rows() -> &'static [Row] {
    &REJECTED
}

/// Returns the source number of `file`.
fn number_of(file: File) -> u32 {
    match file {
        Chars | MoreChars | Nineteenth => 1,
        MoreUnk => 2,
        FirstLexicon => 3,
        OtherLexicon => 4,
    }
}

/// The result of reading a source. The outer error is one of the test itself.
pub type Read<T> = Result<Result<T, SourceFault>, Fail>;

/// Reads a source with `read`, and once more after an allocation failure.
pub fn read_again<'a, T: Drop, F: Fn(Global, &'a [u8]) -> Result<T, SourceFault> + Drop>(
    rt: &(impl Alloc<A = Global> + Eprint),
    bytes: &'a [u8],
    read: F,
) -> Read<T>
    requires { F.IsAlwaysCallable read }
{
    Ok(again!(
        rt,
        Err(SourceFault { kind: Memory, .. }),
        read(rt.alloc(), bytes)
    ))
}

/// Returns the error of the sample's `char.def` followed by `others` and `text`.
fn fault_of_chars(
    rt: &(impl Alloc<A = Global> + Eprint),
    others: &[u8],
    text: &[u8],
) -> Result<Option<SourceFault>, Fail> {
    let start = joined_again(rt, sample().chars, others)?;
    Ok(chars_of(rt, &joined_again(rt, &start, text)?)?.err())
}

/// Returns the error of `text`, if it has one.
fn fault_of(
    rt: &(impl Abort + Alloc<A = Global> + Eprint),
    file: File,
    text: &[u8],
) -> Result<Option<SourceFault>, Fail> {
    match file {
        Chars => Ok(chars_of(rt, text)?.err()),
        MoreChars => fault_of_chars(rt, b"", text),
        Nineteenth => fault_of_chars(rt, TWELVE, text),
        MoreUnk => unk_fault(rt, &joined_again(rt, sample().unk, text)?),
        FirstLexicon | OtherLexicon => fault_after(rt, number_of(file), text),
    }
}

/// Checks the errors of the test cases for `wanted`.
pub fn expect_faults(
    rt: &(impl Abort + Alloc<A = Global> + Eprint),
    wanted: File,
) -> Result<(), Fail> {
    for (file, what, text, line, kind) in rows() {
        if *file == wanted {
            let expected = kind.at(number_of(*file), *line);
            assert_eq!(rt; fault_of(rt, *file, text)?, Some(expected), "{what}");
        }
    }
    Ok(())
}
