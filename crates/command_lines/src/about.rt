//! The options that both programs share, and the explanations of errors.

use crate::explanation::{codes, explained};
use crate::one_line::EscapedLine;
use crate::options_fault::OptionsFault;
use crate::row::{FLAG, MAY_HAVE_VALUE, Name, Row};
use crate::texts::Texts;
use clap::ArgMatches;
use std::alloc::{AllocError, Global};

/// Id of the option `--explain`.
const EXPLAIN_ID: &str = "explain";

/// The option `--explain CODE`.
pub(crate) const EXPLAIN: Row = Row {
    id: EXPLAIN_ID,
    name: Name::Long("explain"),
    values: &["CODE"],
    ..MAY_HAVE_VALUE
};

/// The option `-v`.
pub(crate) const VERBOSE: Row = Row {
    id: "verbose",
    name: Name::Letter('v'),
    ..FLAG
};

/// The option `--skip-digest`.
pub(crate) const SKIP_DIGEST: Row = Row {
    id: "skip-digest",
    name: Name::Long("skip-digest"),
    ..FLAG
};

/// Returns the text for `--explain` as an early end, if the option was given: the explanation of
/// its value, or all codes if it has none.
pub(crate) fn print_explanation(
    alloc: Global,
    program: &str,
    matches: &ArgMatches<'_>,
    texts: &Texts<'_>,
) -> Result<(), OptionsFault> {
    if !matches.contains_id(EXPLAIN_ID) {
        return Ok(());
    }
    match matches.get_str(EXPLAIN_ID) {
        Some(code_or_name) => Err(explanation_of(alloc, program, code_or_name, texts)?),
        None => Err(OptionsFault::Help(codes(alloc, texts.explanations)?)),
    }
}

/// Returns the explanation of `code_or_name`, or the error that there is none.
fn explanation_of(
    alloc: Global,
    program: &str,
    code_or_name: &str,
    texts: &Texts<'_>,
) -> Result<OptionsFault, AllocError> {
    let text = explained(alloc, texts.explanations, code_or_name)?;
    if !text.is_empty() {
        return Ok(OptionsFault::Help(text));
    }
    let code_or_name = EscapedLine(code_or_name);
    let reported = format!(in alloc; "no error has the code or name '{code_or_name}'")?;
    Ok(OptionsFault::usage_error(alloc, program, reported.as_str()))
}
