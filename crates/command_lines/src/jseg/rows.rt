//! The options of `jseg`.

use crate::about::{EXPLAIN, SKIP_DIGEST, VERBOSE};
use crate::row::Name::{Letter, Long};
use crate::row::{FLAG, Row, TEXT, VALUE, VALUES};
use clap::builder::ValueParser;
use mj_model::GROUPING_MAX;

/// Ids of the options that choose the dictionary or list the images. Exactly one of them has to be
/// given.
pub(super) const INPUTS: [&str; 4] = ["dic", "sources", "sample", "dictionaries"];

/// Ids of the other options of a segmentation.
const OF_TEXTS: &[&str] = &[
    "users",
    "skip-digest",
    "grouping",
    "output",
    "node",
    "unk",
    "bos",
    "eos",
    "lattice",
    "within",
    "why",
];

/// Ids of the options that set how the words of the best path are printed.
const OF_WORDS: &[&str] = &["output", "node", "unk", "bos", "eos"];

/// Ids of the options of words, followed by those of lattices.
const OF_WORDS_AND_LATTICES: &[&str] = &[
    "output", "node", "unk", "bos", "eos", "lattice", "within",
];

/// The forms of a printed lattice.
pub(super) const FORMS: [&str; 2] = ["tsv", "dot"];

/// An option whose value is a format.
const FORMAT: Row = Row {
    values: &["FORMAT"],
    ..TEXT
};

/// Returns the options, in the order of help.
pub(super) fn rows() -> &'static [Row] {
    &ROWS
}

#[rattlefmt::skip]
static ROWS: [Row; 17] = [
    Row { id: "dic", name: Letter('d'), values: &["IMG"], ..VALUE },
    Row { id: "users", name: Letter('u'), values: &["IMG"], excluded: &["sources", "sample"], ..VALUES },
    Row { id: "sources", name: Long("sources"), values: &["DIR"], ..VALUE },
    Row { id: "sample", name: Long("sample"), ..FLAG },
    Row { excluded: &["sources", "sample"], ..SKIP_DIGEST },
    Row { id: "grouping", name: Letter('M'), values: &["N"], parser: ValueParser::Signed(0, GROUPING_MAX as i64), ..VALUE },
    Row { id: "output", name: Letter('O'), values: &["NAME"], ..VALUE },
    Row { id: "node", name: Letter('F'), ..FORMAT },
    Row { id: "unk", name: Letter('U'), ..FORMAT },
    Row { id: "bos", name: Letter('B'), ..FORMAT },
    Row { id: "eos", name: Letter('E'), ..FORMAT },
    Row { id: "lattice", name: Long("lattice"), values: &["FORM"], parser: ValueParser::Names(&FORMS), excluded: OF_WORDS, ..VALUE },
    Row { id: "within", name: Long("within"), values: &["N"], parser: ValueParser::Signed(0, i64::MAX), ..VALUE },
    Row { id: "why", name: Long("why"), excluded: OF_WORDS_AND_LATTICES, ..FLAG },
    Row { id: "dictionaries", name: Long("dictionaries"), excluded: OF_TEXTS, ..FLAG },
    VERBOSE,
    EXPLAIN,
];
