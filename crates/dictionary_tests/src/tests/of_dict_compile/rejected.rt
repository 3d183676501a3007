//! Sources that are rejected.
use crate::tests::samples::compiled_of;
use lex_source::lines;
use mj_model::SourceKind::{
    self, BadHeader, BadNumber, BadRange, BadRow, IdOutside, MissingCategory, NoDefault, NoSpace,
    NoSuchCategory, PairOutside, TooFewFields, TooLarge, Twice, UndefinedCategory,
};
use mj_model::{SourceFault, Sources, sample};
use std::alloc::{AllocError, Global};
use std::test::Fail;

/// A connection matrix and two lexicons.
#[rattlefmt::skip]
static LEXICONS: [(&str, &str, &str, &str, u32, u64, SourceKind); 14] = [
    // (what, matrix, first lexicon, second lexicon, file, line, kind)
    ("asymmetric_matrix", "2 3", "も,1,2,20,X\n", "", 3, 1, IdOutside),
    ("a left id outside", "2 3", "も,2,1,20,X\nも,3,0,20,X\n", "", 3, 2, IdOutside),
    ("in the second lexicon", "2 3", "も,2,1,20,X\n", "も,1,2,20,X\n", 4, 1, IdOutside),
    ("in both lexicons", "2 3", "も,1,2,20,X\n", "も,1,x,20,X\n", 3, 1, IdOutside),
    ("a line before its ids", "2 2", "も,5,1,20,X\nも,1,1,x,X\n", "", 3, 2, BadNumber),
    ("cost too low", "2 2", "も,1,1,-32769,X\n", "", 3, 1, BadNumber),
    ("cost too high", "2 2", "", "も,1,1,32768,X\n", 4, 1, BadNumber),
    ("open quote", "2 2", "\"ab,1,1,10,X\n", "", 3, 1, TooFewFields),
    ("dear row", "2 2\n0 0 40000", "", "", 0, 2, BadRow),
    ("row outside", "2 2\n2 0 1", "", "", 0, 2, PairOutside),
    ("header of 0", "0 2", "", "", 0, 1, BadHeader),
    ("no header", "", "", "", 0, 0, BadHeader),
    ("too large", "65535 65535", "", "", 0, 1, TooLarge),
    ("matrix before lexicon", "0 2", "も,1,1,x,X\n", "", 0, 1, BadHeader),
];

/// Returns the error of `matrix` and two lexicons, with the sample's other sources.
fn fault_of_two(alloc: Global, matrix: &str, first: &str, second: &str) -> Option<SourceFault> {
    let sources = Sources {
        matrix: matrix.as_bytes(),
        lexicons: &[first.as_bytes(), second.as_bytes()],
        ..sample()
    };
    compiled_of(alloc, &sources).err()
}

#[test]
fn matrix_and_lexicons(rt: HostRuntime) {
    for (what, matrix, first, second, file, line, kind) in &LEXICONS {
        let fault = fault_of_two(rt.alloc(), matrix, first, second);
        assert!(rt; fault == Some(kind.at(*file, *line)), "{what}");
    }
}

/// Returns the lines of `source` that don't start with `without`, then `further`.
fn edited(
    alloc: Global,
    source: &[u8],
    without: &str,
    further: &str,
) -> Result<Vec<u8>, AllocError> {
    let mut kept = Vec::new(alloc);
    for (_, line) in lines(source) {
        if !line.starts_with(without.as_bytes()) {
            kept.extend_from_slice(line)?;
            kept.push(b'\n')?;
        }
    }
    kept.extend_from_slice(further.as_bytes())?;
    Ok(kept)
}

/// A prefix that no line has.
const ALL: &str = "none";

/// Sources without some lines.
#[rattlefmt::skip]
static MISSING: [(&str, &str, &str, u32, SourceKind); 4] = [
    // (what, the prefixes of the lines left out of char.def and of unk.def, file, kind)
    ("no SPACE",         "SPACE",   ALL,     1, NoSpace),
    ("no unknown KANJI", ALL,       "KANJI", 2, MissingCategory(4)),
    ("both",             "SPACE",   "KANJI", 1, NoSpace),
    ("no DEFAULT",       "DEFAULT", ALL,     1, NoDefault),
];

/// Returns the error of the sample without those lines.
fn fault_without(
    alloc: Global,
    no_chars: &str,
    no_unknown: &str,
) -> Result<Option<SourceFault>, AllocError> {
    let chars = edited(alloc, sample().chars, no_chars, "")?;
    let unk = edited(alloc, sample().unk, no_unknown, "")?;
    let sources = Sources {
        chars: &chars,
        unk: &unk,
        ..sample()
    };
    Ok(compiled_of(alloc, &sources).err())
}

#[test]
fn missing_categories(rt: HostRuntime) -> Result<(), Fail> {
    for (what, no_chars, no_unknown, file, kind) in &MISSING {
        let fault = fault_without(rt.alloc(), no_chars, no_unknown)?;
        assert!(rt; fault == Some(kind.at(*file, 0)), "{what}");
    }
    Ok(())
}

const BAD_COST: &str = "も,1,1,x,X\n";

const BAD_ID: &str = "KANJI,2,1,1000,X\n";

/// Errors in two files.
#[rattlefmt::skip]
static IN_TWO_FILES: [(&str, &str, &str, &str, &str, u32, u64, SourceKind); 8] = [
    // (what, matrix, a further line of char.def, one of unk.def, the lexicon, file, line, kind)
    ("matrix, char.def", "2 2 2", "0x4E00..0x9FFF\n", "", "", 0, 1, BadHeader),
    ("matrix, unk.def", "2 2\n0 2 0", "", BAD_ID, "", 0, 2, PairOutside),
    ("matrix, lexicon", "2 2\n0 0", "", "", BAD_COST, 0, 2, BadRow),
    ("char.def, unk.def", "2 2", "0x9FFF..0x4E00 KANJI\n", BAD_ID, "", 1, 13, BadRange),
    ("char.def, lexicon", "2 2", "KANJI 0 0 2\n", "", BAD_COST, 1, 13, Twice),
    ("a category, lexicon", "2 2", "0x3007 OTHER\n", "", BAD_COST, 1, 13, UndefinedCategory),
    ("an id of unk.def, lexicon", "2 2", "", BAD_ID, BAD_COST, 2, 7, IdOutside),
    ("a name, lexicon", "2 2", "", "OTHER,1,1,1,X\n", BAD_COST, 2, 7, NoSuchCategory),
];

/// Returns the error of `matrix` and `lexicon`, with further lines in the sample's `char.def` and
/// `unk.def`.
fn fault_with(
    alloc: Global,
    matrix: &str,
    further: &str,
    unknown: &str,
    lexicon: &str,
) -> Result<Option<SourceFault>, AllocError> {
    let chars = edited(alloc, sample().chars, ALL, further)?;
    let unk = edited(alloc, sample().unk, ALL, unknown)?;
    let sources = Sources {
        matrix: matrix.as_bytes(),
        chars: &chars,
        unk: &unk,
        lexicons: &[lexicon.as_bytes()],
    };
    Ok(compiled_of(alloc, &sources).err())
}

#[test]
fn faults_in_two_files(rt: HostRuntime) -> Result<(), Fail> {
    for (what, matrix, further, unknown, lexicon, file, line, kind) in &IN_TWO_FILES {
        let fault = fault_with(rt.alloc(), matrix, further, unknown, lexicon)?;
        assert!(rt; fault == Some(kind.at(*file, *line)), "{what}");
    }
    Ok(())
}
