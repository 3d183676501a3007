//! Codes, names and texts of errors.

use crate::text::texts::printed;
use mj_model::NamedFault;
use std::alloc::Global;
use std::fmt::Display;
use std::test::Fail;

/// An error, its code, its name, and the text printed for it.
pub type FaultRow<F> = (F, &'static str, &'static str, &'static str);

/// Returns whether `fault` has this code and this name, and is printed as `text`.
pub fn is_printed_as<F: NamedFault + Display + Drop>(
    alloc: Global,
    fault: F,
    code: &str,
    name: &str,
    text: &str,
) -> Result<bool, Fail> {
    let same = fault.code() == code && fault.name() == name;
    Ok(same && printed(alloc, fault)?.as_str() == text)
}

/// Returns the text of the first row whose error has another code, name or text.
fn first_mismatch<F: NamedFault + Display + Copy + Drop>(
    alloc: Global,
    rows: &[FaultRow<F>],
) -> Result<Option<&'static str>, Fail> {
    for (fault, code, name, text) in rows {
        if !is_printed_as(alloc, *fault, code, name, text)? {
            return Ok(Some(*text));
        }
    }
    Ok(None)
}

/// Fails at the first row whose error has another code, name or text. The failure shows the row's
/// text.
pub fn expect_printed<F: NamedFault + Display + Copy + Drop>(
    alloc: Global,
    rows: &[FaultRow<F>],
) -> Result<(), Fail> {
    match first_mismatch(alloc, rows)? {
        Some(text) => Err(Fail::new(text)),
        None => Ok(()),
    }
}
