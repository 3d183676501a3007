//! The line on standard error that ends a failed program, and its exit status.

ghost use Rattle.std.specs.Prelude.{◌≡◌};
ghost use Rattle.programs.specs.Statuses.{status_of};

use crate::fault::{Fault, belongs_to_a_file};
use crate::output::TextWriter;
use command_lines::EscapedLine;
use mj_model::{FormatFault, ImageFault, NamedFault, RunFault, SourceFault, SourceKind};
use std::alloc::Global;
use std::fmt::{self, Display, Formatter, Write};
use std::io;
use std::string::String;

/// Prints the error in one line and returns the exit status.
///
/// The line is written in one call if it can be allocated. A failed write is ignored.
pub fn report<W: io::Write>(alloc: Global, program: &str, fault: &Fault, err: &mut W) -> u8
    ensures status { result ≡ status_of fault.now }
{
    let mut err = TextWriter(err);
    let _ = match format!(in alloc; "{program}: {fault}\n") {
        Ok(line) => err.write_str(line.as_str()),
        Err(_) => writeln!(err, "{program}: {fault}"),
    };
    status(fault)
}

/// Displays the line after the program's name. The path is left out if the error belongs to no
/// file.
impl Display for Fault {
    fn fmt<W: Write>(&self, f: &mut Formatter<W>) -> fmt::Result {
        match self {
            Fault::File(path) => {
                write_path(f, path)?;
                write_code_and_name(f, self)
            }
            Fault::Source(path, SourceFault { line, kind, .. }) if belongs_to_a_file(*kind) => {
                write!(f, "{}:{line}: {kind}", EscapedLine(path.as_str()))
            }
            Fault::Source(_, SourceFault { kind, .. }) | Fault::Sources(SourceFault { kind, .. }) =>
                { kind.fmt(f) }
            Fault::Image(_, ImageFault::Memory) | Fault::Memory => f.write_str(self.name()),
            Fault::Image(path, fault) => {
                write_path(f, path)?;
                fault.fmt(f)
            }
            Fault::Overlay(path, fault) => {
                write_path(f, path)?;
                fault.fmt(f)
            }
            Fault::Format(fault) => fault.fmt(f),
            Fault::Run(fault) => fault.fmt(f),
            Fault::Output => write_code_and_name(f, self),
        }
    }
}

/// Writes the path that precedes the description of an error.
fn write_path<W: Write>(f: &mut Formatter<W>, path: &String) -> fmt::Result {
    EscapedLine(path.as_str()).fmt(f)?;
    f.write_str(": ")
}

/// Writes the code and the name of an error.
fn write_code_and_name<W: Write>(f: &mut Formatter<W>, fault: &Fault) -> fmt::Result {
    f.write_str(fault.code())?;
    f.write_char(' ')?;
    f.write_str(fault.name())
}

/// Returns the exit status: 1 for a rejected source, image, overlay or text, 2 for a rejected
/// format, 3 for a file or device, 4 for memory.
fn status(fault: &Fault) -> u8
    ensures { result ≡ status_of fault.now }
{
    match fault {
        Fault::Source(_, fault) | Fault::Sources(fault) => match fault.kind {
            SourceKind::Memory => 4,
            _ => 1,
        },
        Fault::Image(_, ImageFault::Memory) | Fault::Memory => 4,
        Fault::Image(..) | Fault::Overlay(..) => 1,
        Fault::Format(FormatFault::Memory) => 4,
        Fault::Format(_) => 2,
        Fault::File(_) | Fault::Output => 3,
        Fault::Run(RunFault::Read(_) | RunFault::Write(_)) => 3,
        Fault::Run(RunFault::Memory(_)) => 4,
        Fault::Run(_) => 1,
    }
}
