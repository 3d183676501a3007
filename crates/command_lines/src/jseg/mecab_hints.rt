//! Options of MeCab that `jseg` doesn't have. The id of each is the key of the hint for it.

use crate::row::Name::{Both, Long, Words};
use crate::row::{REJECTED, Row, id_of_given};
use clap::ArgMatches;

/// Returns the options that are accepted only to be rejected with a hint: words that are no
/// options, then MeCab's options.
pub(super) fn rejected_rows() -> &'static [Row] {
    &REJECTED_ROWS
}

#[rattlefmt::skip]
static REJECTED_ROWS: [Row; 24] = [
    Row { id: "words", name: Words, most: usize::MAX, ..REJECTED },
    Row { id: "nbest", name: Both('N', "nbest"), ..REJECTED },
    Row { id: "all-morphs", name: Both('a', "all-morphs"), ..REJECTED },
    Row { id: "lattice-level", name: Both('l', "lattice-level"), ..REJECTED },
    Row { id: "marginal", name: Both('m', "marginal"), ..REJECTED },
    Row { id: "theta", name: Both('t', "theta"), ..REJECTED },
    Row { id: "cost-factor", name: Both('c', "cost-factor"), ..REJECTED },
    Row { id: "partial", name: Both('p', "partial"), ..REJECTED },
    Row { id: "eon-format", name: Both('S', "eon-format"), ..REJECTED },
    Row { id: "unk-feature", name: Both('x', "unk-feature"), ..REJECTED },
    Row { id: "output-file", name: Both('o', "output"), ..REJECTED },
    Row { id: "rcfile", name: Both('r', "rcfile"), ..REJECTED },
    Row { id: "dictionary-info", name: Both('D', "dictionary-info"), ..REJECTED },
    Row { id: "dump-config", name: Both('P', "dump-config"), ..REJECTED },
    Row { id: "input-buffer-size", name: Both('b', "input-buffer-size"), ..REJECTED },
    Row { id: "allocate-sentence", name: Both('C', "allocate-sentence"), ..REJECTED },
    Row { id: "dicdir", name: Long("dicdir"), ..REJECTED },
    Row { id: "userdic", name: Long("userdic"), ..REJECTED },
    Row { id: "output-format-type", name: Long("output-format-type"), ..REJECTED },
    Row { id: "max-grouping-size", name: Long("max-grouping-size"), ..REJECTED },
    Row { id: "node-format", name: Long("node-format"), ..REJECTED },
    Row { id: "unk-format", name: Long("unk-format"), ..REJECTED },
    Row { id: "bos-format", name: Long("bos-format"), ..REJECTED },
    Row { id: "eos-format", name: Long("eos-format"), ..REJECTED },
];

/// The only output format that is chosen by name.
const WAKATI: &str = "wakati";

/// The output formats of IPADIC's dicrc, which are the keys of hints at the options that print the
/// same or nearly so.
static OUTPUTS: [&str; 3] = ["chasen", "yomi", "simple"];

/// Key of the hint for any other name of an output format.
const OTHER_OUTPUT: &str = "other output";

/// Returns the key of the hint for the first rejected option that was given, or for an unknown name
/// of an output format.
pub(super) fn hint_for(matches: &ArgMatches<'_>) -> Option<&'static str> {
    id_of_given(rejected_rows(), matches).or(matches.get_str("output").and_then(instead_of_output))
}

/// Returns the key of the hint for an unknown name of an output format; None if the name is known.
fn instead_of_output(name: &str) -> Option<&'static str> {
    if name == WAKATI {
        return None;
    }
    for known in &OUTPUTS {
        if *known == name {
            return Some(*known);
        }
    }
    Some(OTHER_OUTPUT)
}
