//! Log messages, warnings and hints on standard error.

use crate::fault::Fault;
use crate::file_error::{FileError, reason_of};
use crate::output::write_whole;
use crate::stage::Stage;
use crate::whole_file::WholeFile;
use command_lines::EscapedLine;
use mj_model::{FormatFault, FormatPart, NamedFault, SourceKind};
use std::alloc::{AllocError, Global};
use std::fmt::Display;
use std::io::{self, ErrorKind, IsTerminal};
use std::string::String;
use std::time::{Duration, Instant};

/// UTF-8 encoding of U+FEFF, the byte order mark.
const BYTE_ORDER_MARK: &[u8] = b"\xef\xbb\xbf";

/// Hint for sources that are not UTF-8.
const CONVERTER: &str =
    "kumquatsieve-import converts sources that are not UTF-8: pass it their directory, or lexicons with --user";

/// First character that is assumed to take two columns of a terminal: Hangul, kana, kanji and most
/// others from here on do.
const WIDE_FROM: char = '\u{1100}';

/// Writes lines to standard error while a program runs. A failed write is ignored.
#[derive(Clone, Copy)]
pub struct Reporter<'a> {
    rt: &'a HostRuntime,
    program: &'a str,
    /// When the program started; None if log messages are disabled.
    began: Option<Instant>,
}

impl<'a> Reporter<'a> {
    /// Creates the reporter of a program. Log messages need `is_verbose` and a clock.
    pub fn new(rt: &'a HostRuntime, program: &'a str, is_verbose: bool) -> Reporter<'a> {
        let began = if is_verbose {
            Instant::now(rt).ok()
        } else {
            None
        };
        Reporter { rt, program, began }
    }

    /// Returns the name of the program.
    pub fn program(&self) -> &str {
        self.program
    }

    /// Returns whether log messages are enabled.
    pub fn is_verbose(&self) -> bool {
        self.began.is_some()
    }

    /// Returns whether hints are printed beside an error: if log messages are enabled, or if
    /// standard error is a terminal.
    pub fn is_interactive(&self) -> bool {
        self.is_verbose() || self.rt.stderr().is_terminal()
    }

    /// Prints a log message with the seconds since the start, if log messages are enabled.
    pub fn log(&self, stage: Stage<'_>) {
        let Some(began) = self.began else {
            return;
        };
        let spent = began.elapsed(self.rt).unwrap_or(Duration::ZERO);
        let (seconds, hundredths) = (spent.as_secs(), spent.subsec_millis() / 10);
        let line = format!(in self.rt.alloc(); "{seconds}.{hundredths:02} s: {stage}");
        if let Ok(line) = line {
            self.print_line(&line);
        }
    }

    /// Prints a log message as `log` does. If log messages are disabled but standard error is a
    /// terminal, prints it without a time.
    pub fn log_always(&self, stage: Stage<'_>) {
        if self.began.is_some() {
            self.log(stage);
        } else if self.rt.stderr().is_terminal() {
            self.print_line(&stage);
        }
    }

    /// Logs that a source was read, and warns if it begins with a byte order mark.
    pub fn log_source(&self, file: &WholeFile) {
        self.log_read(file.path.as_str(), file.bytes.len(), &file.bytes);
    }

    /// Logs that the file at `path`, of size `bytes`, was read, and warns if its first bytes are a
    /// byte order mark.
    pub fn log_read(&self, path: &str, bytes: usize, first: &[u8]) {
        self.log(Stage::Read { path, bytes });
        if first.starts_with(BYTE_ORDER_MARK) {
            self.log_always(Stage::ByteOrderMark { path });
        }
    }

    /// Prints a hint on the cause of an error: why a file can't be read, which option has an
    /// invalid format, or how to convert a source that is not UTF-8.
    pub fn log_cause(&self, fault: &Fault) {
        if !self.is_interactive() {
            return;
        }
        let line = match fault {
            Fault::File(path) => {
                let path = path.as_str();
                let cause = FileError::of(self.rt, path);
                line_of(self.rt.alloc(), path, cause.text(self.rt.alloc()))
            }
            Fault::Format(FormatFault::Bad { part, .. }) => {
                let option = option_of(*part);
                format!(in self.rt.alloc(); "the error is in the format of {option}")
            }
            Fault::Source(_, fault) if fault.kind == SourceKind::NotUtf8 => {
                String::from_str(self.rt.alloc(), CONVERTER)
            }
            _ => return,
        };
        if let Ok(line) = line {
            self.print_line(&line);
        }
    }

    /// Prints the system's reason why the file at `path` can't be written.
    pub(crate) fn print_reason(&self, path: &str, error: &io::Error) {
        if !self.is_interactive() || error.kind() == ErrorKind::OutOfMemory {
            return;
        }
        let alloc = self.rt.alloc();
        if let Ok(line) = line_of(alloc, path, reason_of(alloc, error)) {
            self.print_line(&line);
        }
    }

    /// Prints an invalid text in one line, and a mark below the byte `at`.
    pub fn log_mark(&self, text: &str, at: usize) {
        if self.is_interactive() {
            if let Ok(mark) = mark_under(self.rt.alloc(), text, at) {
                self.print_line(&EscapedLine(text));
                self.print_line(&mark);
            }
        }
    }

    /// Prints how to get the explanation of an error.
    pub fn log_explanation(&self, fault: &Fault) {
        if !self.is_interactive() {
            return;
        }
        let line = format!(in self.rt.alloc();
            "'{} --explain {}' explains this error",
            self.program,
            fault.code()
        );
        if let Ok(line) = line {
            self.print_line(&line);
        }
    }

    /// Prints the program's name and a line, in one write.
    pub fn print_line<T: Display>(&self, line: &T) {
        if let Ok(text) = format!(in self.rt.alloc(); "{}: {line}\n", self.program) {
            let _ = write_whole(&mut self.rt.stderr(), text.as_bytes());
        }
    }
}

/// Returns the path, escaped to one line, and a reason.
fn line_of(
    alloc: Global,
    path: &str,
    reason: Result<String, AllocError>,
) -> Result<String, AllocError> {
    let reason = reason?;
    format!(in alloc; "{}: {reason}", EscapedLine(path))
}

/// Returns a line with a mark below the byte `at` of a text that is printed in one line.
fn mark_under(alloc: Global, text: &str, at: usize) -> Result<String, AllocError> {
    let before = format!(in alloc; "{}", EscapedLine(text.get(..at).unwrap_or("")))?;
    let mut mark = String::new(alloc);
    for character in before.chars() {
        mark.push_str(if character < WIDE_FROM { " " } else { "  " })?;
    }
    mark.push_str("^")?;
    Ok(mark)
}

/// Returns the option that sets a part of the format.
fn option_of(part: FormatPart) -> &'static str {
    match part {
        FormatPart::Node => "-F",
        FormatPart::Unk => "-U",
        FormatPart::Bos => "-B",
        FormatPart::Eos => "-E",
    }
}
