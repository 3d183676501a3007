//! Compiled user dictionaries.
use crate::tests::samples::{
    Expected, NONE, are_entries, compiled_of, dict_of, sample_dict, user_of,
};
use dict_compile::CompileUserFault::{self, NotSystem, Source};
use dict_image::Dict;
use mj_model::SourceKind::{
    self, ArrayFull, BadNumber, FeaturesTooLarge, IdOutside, Memory, NotUtf8, TooFewFields,
};
use mj_model::{MatrixSizes, NO_FILE, SourceFault, Sources, sample};
use std::alloc::{Alloc, Global};
use std::process::Abort;
use std::test::Fail;
use test_support::text::{FaultRow, expect_printed};

const LINE: &str = "もも,1,1,1,名詞,ユーザ\n";

/// Compiles a user dictionary of two lexicons.
///
/// Returns the number of entries, the number of skipped lines, and whether it is a user dictionary
/// for the sizes of `system` that has `entries` at `key`.
fn compiled(
    alloc: Global,
    system: &Dict,
    first: &str,
    second: &str,
    key: &str,
    entries: &[Expected],
) -> Result<(u64, u128, bool), Fail> {
    let compiled = user_of(alloc, system, &[first.as_bytes(), second.as_bytes()])?;
    let (count, skipped) = (compiled.entries, compiled.skipped);
    let dict = dict_of(alloc, compiled.image)?;
    let same = dict.is_user()
        && dict.matrix_sizes() == system.matrix_sizes()
        && are_entries(&dict, key, entries);
    Ok((count, skipped, same))
}

/// Pairs of lexicons, and their dictionaries.
#[rattlefmt::skip]
static USERS: [(&str, &str, &str, u64, u128, &str, &[Expected]); 6] = [
    // (what, the two lexicons, number of entries, number of skipped lines, a key, its entries)
    ("user_dictionary", LINE, "", 1, 0, "もも", &[(0, 1, 1, 1, "名詞,ユーザ")]),
    ("no entry of the system", LINE, "", 1, 0, "も", NONE),
    ("one surface in each", "b,1,1,9,Z\na,0,1,30,Y\n", "a,1,0,-5,X\n", 3, 0, "a",
        &[(0, 0, 1, 30, "Y"), (1, 1, 0, -5, "X")]),
    ("empty lexicons", "", "", 0, 0, "もも", NONE),
    ("skipped lines in both", ",1,1,5,X\n,1,1,5,X\n", "a,1,1,5,X\n,1,1,5,X\n", 1, 3, "a",
        &[(0, 1, 1, 5, "X")]),
    ("a byte order mark is a surface's", "\u{feff}a,1,1,5,X\n", "", 1, 0, "a", NONE),
];

/// Checks the user dictionaries for `system`.
fn expect_users(rt: &(impl Abort + Alloc<A = Global>), system: &Dict) -> Result<(), Fail> {
    for (what, first, second, count, skipped, key, entries) in &USERS {
        let result = compiled(rt.alloc(), system, first, second, key, entries)?;
        assert!(rt; result == (*count, *skipped, true), "{what}");
    }
    Ok(())
}

#[test]
fn user_dictionary(rt: HostRuntime) -> Result<(), Fail> {
    expect_users(&rt, &sample_dict(rt.alloc())?)
}

const ACCEPTED: &str = "もも,2,1,1,X\n";

/// Pairs of lexicons that are rejected.
#[rattlefmt::skip]
static REJECTED: [(&str, &str, &str, u32, u64, SourceKind); 4] = [
    // (what, the two lexicons, file, line, kind)
    ("a right id outside",    "もも,1,2,1,X\n", "",                       3, 1, IdOutside),
    ("a left id outside",     ACCEPTED, "もも,1,1,1,X\nもも,3,1,1,X\n",   4, 2, IdOutside),
    ("a line before its ids", "もも,3,1,1,X\nもも,1,1,x,X\n", "",         3, 2, BadNumber),
    ("in both",               "もも,1,1,1\n", "もも,1,1,x,X\n",           3, 1, TooFewFields),
];

/// Returns the error of two lexicons for `system`, if there is one.
fn fault_of_two(
    alloc: Global,
    system: &Dict,
    first: &str,
    second: &str,
) -> Option<CompileUserFault> {
    user_of(alloc, system, &[first.as_bytes(), second.as_bytes()]).err()
}

/// Returns a system dictionary with 2 right ids and 3 left ids.
fn system_2_3(alloc: Global) -> Result<Dict, Fail> {
    let sources = Sources {
        matrix: b"2 3\n",
        ..sample()
    };
    Ok(dict_of(alloc, compiled_of(alloc, &sources)?.image)?)
}

/// Returns the user dictionary of `lexicon` for `system`.
fn user_dict(alloc: Global, system: &Dict, lexicon: &str) -> Result<Dict, Fail> {
    let compiled = user_of(alloc, system, &[lexicon.as_bytes()])?;
    Ok(dict_of(alloc, compiled.image)?)
}

/// Checks the errors of lexicons for `system`.
fn expect_rejected(rt: &(impl Abort + Alloc<A = Global>), system: &Dict) {
    for (what, first, second, file, line, kind) in &REJECTED {
        let fault = fault_of_two(rt.alloc(), system, first, second);
        assert!(rt; fault == Some(Source(kind.at(*file, *line))), "{what}");
    }
}

#[test]
fn invalid_lexicons(rt: HostRuntime) -> Result<(), Fail> {
    let system = system_2_3(rt.alloc())?;
    expect_rejected(&rt, &system);
    let sizes = user_dict(rt.alloc(), &system, ACCEPTED)?.matrix_sizes();
    assert!(rt; sizes == MatrixSizes { right: 2, left: 3 });
    Ok(())
}

/// Lexicons for a user dictionary in place of a system dictionary.
#[rattlefmt::skip]
static LEXICONS: [(&str, &str); 2] = [
    // (what, lexicon)
    ("an accepted line", LINE),
    ("a rejected line", "もも,1,1,x,X\n"),
];

#[test]
fn for_a_user_dictionary(rt: HostRuntime) -> Result<(), Fail> {
    let user = user_dict(rt.alloc(), &sample_dict(rt.alloc())?, LINE)?;
    for (what, lexicon) in &LEXICONS {
        let fault = fault_of_two(rt.alloc(), &user, lexicon, "");
        assert!(rt; fault == Some(NotSystem), "{what}");
    }
    Ok(())
}

/// Errors with their codes, names and texts.
#[rattlefmt::skip]
static FAULTS: [FaultRow<CompileUserFault>; 6] = [
    // (error, code, name, text)
    (NotSystem, "O1", "NotSystem", "O1 NotSystem"),
    (Source(SourceFault { file: 3, line: 1, kind: NotUtf8 }), "S1", "NotUtf8",
        "file 3, line 1: S1 NotUtf8"),
    (Source(SourceFault { file: 4, line: 7, kind: IdOutside }), "I1", "IdOutside",
        "file 4, line 7: I1 IdOutside"),
    (Source(OF_ARRAY), "I2", "ArrayFull", "file 4294967295, line 0: I2 ArrayFull"),
    (Source(OF_FEATURES), "I3", "FeaturesTooLarge", "file 4294967295, line 0: I3 FeaturesTooLarge"),
    (Source(SourceFault { file: 3, line: 1, kind: Memory }), "Memory", "Memory",
        "file 3, line 1: Memory"),
];

/// Errors of the lexicons as a whole, which belong to no file.
const OF_ARRAY: SourceFault = SourceFault {
    file: NO_FILE,
    line: 0,
    kind: ArrayFull,
};

const OF_FEATURES: SourceFault = SourceFault {
    kind: FeaturesTooLarge,
    ..OF_ARRAY
};

#[test]
fn codes_names_and_texts(rt: HostRuntime) -> Result<(), Fail> {
    expect_printed(rt.alloc(), &FAULTS)
}
