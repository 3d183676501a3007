//! Lexicons, fields and numbers.
mod out_of_memory;
pub mod records;
mod sorted;

use super::faults::{File, expect_faults};
use lex_source::{NonblankLines, Words, append_field, context_id, cost, field, lines, number};
use mj_model::SourceKind::SurfaceTooLong;
use mj_model::{Record, SourceFault};
use std::alloc::{AllocError, Global};
use std::process::Abort;
use std::string::String;
use std::test::Fail;

/// Sources and their lines.
#[rattlefmt::skip]
static LINES: [(&str, &str, &str, u64); 9] = [
    // (what, bytes, lines without their numbers, the last number)
    ("no bytes", "", "", 0),
    ("no line feed", "a", "a|", 1),
    ("a line feed at the end", "a\n", "a|", 1),
    ("a blank line between", "a\n\nb", "a||b|", 3),
    ("one line feed", "\n", "|", 1),
    ("CR LF", "a\r\nb\r\n", "a|b|", 2),
    ("a CR at the end of the file", "a\r", "a|", 1),
    ("one CR of two", "a\r\r\n", "a\r|", 1),
    ("a CR inside", "a\rb\n", "a\rb|", 1),
];

/// Returns the lines of a source, each followed by a bar, and the number of the last line.
fn marked_lines(alloc: Global, bytes: &[u8]) -> Result<(Vec<u8>, u64), AllocError> {
    let mut marked = Vec::new(alloc);
    let mut last_number = 0;
    for (line_number, line) in lines(bytes) {
        marked.extend_from_slice(line)?;
        marked.push(b'|')?;
        last_number = line_number;
    }
    Ok((marked, last_number))
}

/// Returns whether a source has the lines `expected`, and `last` as the number of the last line.
fn has_lines(alloc: Global, bytes: &str, expected: &str, last: u64) -> Result<bool, AllocError> {
    let (marked, last_number) = marked_lines(alloc, bytes.as_bytes())?;
    Ok(marked.as_slice() == expected.as_bytes() && last_number == last)
}

#[test]
fn source_lines(rt: HostRuntime) -> Result<(), Fail> {
    for (what, bytes, expected, last) in &LINES {
        assert!(rt; has_lines(rt.alloc(), bytes, expected, *last)?, "{what}");
    }
    Ok(())
}

/// Appends the words of `line`, each followed by a comma.
fn append_words(reported: &mut Vec<u8>, line: &[u8]) -> Result<(), AllocError> {
    for word in Words::new(line) {
        reported.extend_from_slice(word)?;
        reported.push(b',')?;
    }
    Ok(())
}

#[test]
fn filled_lines_and_words(rt: HostRuntime) -> Result<(), Fail> {
    let mut reported = Vec::new(rt.alloc());
    let mut last_number = 0;
    for (line_number, line) in NonblankLines::new(b"\n 2\t3 \r\n \t\n0 2  100\n") {
        append_words(&mut reported, line)?;
        last_number = line_number;
    }
    assert_eq!(rt; reported.as_slice(), b"2,3,0,2,100,".as_slice());
    assert_eq!(rt; last_number, 4);
    Ok(())
}

/// Returns whether `found` is `expected`.
pub fn is_text(found: &Option<String>, expected: Option<&str>) -> bool {
    match found {
        Some(text) => expected == Some(text.as_str()),
        None => expected == None,
    }
}

/// Fields of lines.
#[rattlefmt::skip]
static FIELDS: [(&str, usize, Option<&str>); 16] = [
    // (line, number of the field, field)
    ("x, \"y z\"w,*", 0, Some("x")),
    ("x, \"y z\"w,*", 1, Some("y z")),
    ("x, \"y z\"w,*", 2, Some("*")),
    ("x, \"y z\"w,*", 3, None),
    ("", 0, Some("")),
    ("", 1, None),
    ("a,", 1, Some("")),
    (" \ta ,b", 0, Some("a ")),
    ("\"a\"\"b\",c", 0, Some("a\"b")),
    ("\"a\"\"b\",c", 1, Some("c")),
    ("\"\"\"\",c", 0, Some("\"")),
    ("\"\",c", 0, Some("")),
    ("\"a,b", 0, Some("a,b")),
    ("\"a,b", 1, None),
    ("a\"b,c", 0, Some("a\"b")),
    ("名詞,\"も,も\"", 1, Some("も,も")),
];

#[test]
fn quoted_fields(rt: HostRuntime) -> Result<(), Fail> {
    for (line, n, expected) in &FIELDS {
        let found = field(rt.alloc(), line, *n)?;
        assert!(rt; is_text(&found, *expected), "{line} {n}");
    }
    Ok(())
}

/// Fields that are appended to an output.
#[rattlefmt::skip]
static APPENDED: [(&str, usize, bool, &str); 5] = [
    // (line, number of the field, whether it exists, the output)
    ("x, \"y \"\"z\"w,*", 0, true, ">x"),
    ("x, \"y \"\"z\"w,*", 1, true, ">y \"z"),
    ("x, \"y \"\"z\"w,*", 2, true, ">*"),
    ("x, \"y \"\"z\"w,*", 3, false, ">"),
    ("", 0, true, ">"),
];

/// Appends field `n` of `line` to `>`. Returns the output and whether the field exists.
fn appended(alloc: Global, line: &str, n: usize) -> Result<(Vec<u8>, bool), AllocError> {
    let mut out = Vec::from_slice(alloc, b">")?;
    let there = append_field(&mut out, line, n)?;
    Ok((out, there))
}

#[test]
fn appended_fields(rt: HostRuntime) -> Result<(), Fail> {
    for (line, n, there, expected) in &APPENDED {
        let (out, found) = appended(rt.alloc(), line, *n)?;
        let same = found == *there && out.as_slice() == expected.as_bytes();
        assert!(rt; same, "{line} {n}");
    }
    Ok(())
}

#[test]
fn bad_lexicon_lines(rt: HostRuntime) -> Result<(), Fail> {
    expect_faults(&rt, File::OtherLexicon)
}

/// Reads a lexicon of one line whose surface has `length` bytes.
fn read_long(alloc: Global, length: usize) -> Result<Result<u64, SourceFault>, AllocError> {
    let mut bytes = Vec::from_elem(alloc, b'a', length)?;
    bytes.extend_from_slice(b",1,1,5,X")?;
    let mut out: Vec<Record> = Vec::new(alloc);
    Ok(records::read(alloc, 3, &bytes, &mut out))
}

#[test]
fn longest_surface(rt: HostRuntime) -> Result<(), Fail> {
    assert_eq!(rt; read_long(rt.alloc(), 65_535)?, Ok(0));
    assert_eq!(rt;
        read_long(rt.alloc(), 65_536)?,
        Err(SurfaceTooLong.at(3, 1))
    );
    Ok(())
}

/// Texts of numbers.
#[rattlefmt::skip]
static NUMBERS: [(&str, Option<i32>); 18] = [
    // (text, number)
    ("0", Some(0)),
    ("-0", Some(0)),
    ("+1", Some(1)),
    ("5 ", Some(5)),
    ("5 \t", Some(5)),
    (" 5", None),
    ("", None),
    ("-", None),
    ("+-1", None),
    ("1 2", None),
    ("0x1", None),
    ("１", None),
    ("0000000000000000000000000000007", Some(7)),
    ("2147483647", Some(2_147_483_647)),
    ("2147483648", None),
    ("-2147483648", Some(-2_147_483_648)),
    ("-2147483649", None),
    ("99999999999999999999999999", None),
];

/// Texts of costs.
#[rattlefmt::skip]
static COSTS: [(&str, Option<i16>); 4] = [
    ("-32768", Some(-32_768)), ("-32769", None),
    ("32767",  Some(32_767)),  ("32768",  None),
];

/// Texts of context ids.
#[rattlefmt::skip]
static IDS: [(&str, Option<u16>); 4] = [
    ("65535", Some(65_535)), ("65536", None),
    ("-0",    Some(0)),      ("-1",    None),
];

/// Checks the number of each text.
fn expect_numbers(rt: &impl Abort, rows: &[(&str, Option<i32>)]) {
    for (text, expected) in rows {
        assert_eq!(rt; number(text.as_bytes()), *expected, "{text}");
    }
}

#[test]
fn number_ranges(rt: HostRuntime) {
    expect_numbers(&rt, &NUMBERS);
    for (text, expected) in &COSTS {
        assert_eq!(rt; cost(text.as_bytes()), *expected, "{text}");
    }
    for (text, expected) in &IDS {
        assert_eq!(rt; context_id(text.as_bytes()), *expected, "{text}");
    }
}
