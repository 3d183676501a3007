//! The explanations of error codes.

ghost use Rattle.std.specs.Prelude.{◌↔◌, IsTrue};

use std::alloc::{AllocError, Global};
use std::fmt::{self, Display, Formatter, Write};
use std::string::String;

/// The meaning of an error, its usual cause, and what to do.
#[derive(Clone, Copy)]
pub struct Explanation {
    pub code: &'static str,
    pub name: &'static str,
    pub meaning: &'static str,
    pub cause: &'static str,
    pub cure: &'static str,
}

/// Returns the explanations of the errors with this code or name, in upper or lower case; empty if
/// there are none. Several errors may have the same name.
pub(crate) fn explained(
    alloc: Global,
    subjects: &[&[Explanation]],
    code_or_name: &str,
) -> Result<String, AllocError> {
    let mut text = String::new(alloc);
    for subject in subjects {
        explain(alloc, *subject, code_or_name, &mut text)?;
    }
    Ok(text)
}

/// Returns the codes and names of all errors, one error a line.
pub(crate) fn codes(alloc: Global, subjects: &[&[Explanation]]) -> Result<String, AllocError> {
    let mut text = String::new(alloc);
    for subject in subjects {
        list(alloc, *subject, &mut text)?;
    }
    Ok(text)
}

/// Appends the explanations of one subject that have this code or name, separated by blank lines.
fn explain(
    alloc: Global,
    subject: &[Explanation],
    code_or_name: &str,
    text: &mut String,
) -> Result<(), AllocError> {
    for one in subject {
        if !one.is_called(code_or_name) {
            continue;
        }
        if !text.is_empty() {
            text.push('\n')?;
        }
        text.push_str(format!(in alloc; "{one}")?.as_str())?;
    }
    Ok(())
}

/// Appends the codes and names of one subject.
fn list(alloc: Global, subject: &[Explanation], text: &mut String) -> Result<(), AllocError> {
    for one in subject {
        text.push_str(format!(in alloc; "{}\n", Heading(one))?.as_str())?;
    }
    Ok(())
}

impl Explanation {
    ghost use Rattle.command_lines.specs.Explanations.{IsCalled};

    /// Returns whether `code_or_name` is the code or the name, in upper or lower case.
    fn is_called(&self, code_or_name: &str) -> bool
        ensures { IsTrue result ↔ IsCalled self.now code_or_name.now }
    {
        self.code.eq_ignore_ascii_case(code_or_name) || self.name.eq_ignore_ascii_case(code_or_name)
    }
}

/// Displays the code of an error, and its name if that differs from the code.
#[derive(Drop)]
struct Heading<'a>(&'a Explanation);

impl Display for Heading<'_> {
    fn fmt<W: Write>(&self, f: &mut Formatter<W>) -> fmt::Result {
        let Heading(one) = self;
        f.write_str(one.code)?;
        if one.code == one.name {
            return Ok(());
        }
        f.write_char(' ')?;
        f.write_str(one.name)
    }
}

impl Display for Explanation {
    fn fmt<W: Write>(&self, f: &mut Formatter<W>) -> fmt::Result {
        Heading(self).fmt(f)?;
        f.write_char('\n')?;
        write_part(f, "Meaning: ", self.meaning)?;
        write_part(f, "Usual cause: ", self.cause)?;
        write_part(f, "What to do: ", self.cure)
    }
}

/// Writes a line of an explanation.
fn write_part<W: Write>(f: &mut Formatter<W>, label: &str, text: &str) -> fmt::Result {
    f.write_str(label)?;
    f.write_str(text)?;
    f.write_char('\n')
}
