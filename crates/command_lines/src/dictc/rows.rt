//! The options of `dictc` and its subcommands.

use crate::about::{EXPLAIN, SKIP_DIGEST, VERBOSE};
use crate::row::Name::{Letter, Long, Words};
use crate::row::{FLAG, NEEDED, Row, VALUES, WORDS};

/// Returns the options without a subcommand.
pub(super) fn rows() -> &'static [Row] {
    &ROWS
}

/// Returns the options that both compiling subcommands have after their own, in the order of help.
pub(super) fn compiling_rows() -> &'static [Row] {
    &COMPILING_ROWS
}

/// Returns the options that only `dictc system` has, in the order of help.
pub(super) fn system_rows() -> &'static [Row] {
    &SYSTEM_ROWS
}

/// Returns the options that only `dictc user` has, in the order of help.
pub(super) fn user_rows() -> &'static [Row] {
    &USER_ROWS
}

/// Returns the options of `dictc ids`, in the order of help.
pub(super) fn ids_rows() -> &'static [Row] {
    &IDS_ROWS
}

#[rattlefmt::skip]
const OUT: Row = Row { id: "out", name: Long("out"), values: &["IMG"], ..NEEDED };

#[rattlefmt::skip]
const ALL_FAULTS: Row = Row { id: "all-faults", name: Long("all-faults"), ..FLAG };

#[rattlefmt::skip]
const LEXICONS: Row = Row { id: "lexicons", name: Words, values: &["LEX"], ..WORDS };

static ROWS: [Row; 1] = [EXPLAIN];

static COMPILING_ROWS: [Row; 4] = [OUT, ALL_FAULTS, VERBOSE, LEXICONS];

/// A required option whose value is the name of a source file.
const SOURCE: Row = Row {
    values: &["FILE"],
    ..NEEDED
};

#[rattlefmt::skip]
static SYSTEM_ROWS: [Row; 3] = [
    Row { id: "matrix", name: Long("matrix"), ..SOURCE },
    Row { id: "char", name: Long("char"), ..SOURCE },
    Row { id: "unk", name: Long("unk"), ..SOURCE },
];

#[rattlefmt::skip]
static USER_ROWS: [Row; 2] = [
    Row { id: "base", name: Long("dic"), values: &["IMG"], ..NEEDED },
    SKIP_DIGEST,
];

#[rattlefmt::skip]
static IDS_ROWS: [Row; 5] = [
    Row { id: "dic", name: Long("dic"), values: &["IMG"], ..NEEDED },
    Row { id: "users", name: Letter('u'), values: &["IMG"], ..VALUES },
    SKIP_DIGEST,
    VERBOSE,
    Row { id: "feature", name: Words, values: &["FEATURE"], ..NEEDED },
];
