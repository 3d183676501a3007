//! Reporting all invalid lines of lexicons (`--all-faults`). After each error the lexicons are
//! compiled again as if its line were empty.

ghost use Rattle.std.specs.Prelude.{◌≡◌, true, false};
ghost use Rattle.dictc_lib.specs.Rejections.{IsOfALine};

use crate::bad_number::print_bad_number;
use crate::compile_context::CompileContext;
use crate::file_line::FileLine;
use mj_model::{FIRST_LEXICON_FILE, NO_FILE, NamedFault, SourceFault, SourceKind};
use programs::{
    Excerpt, Fault, Reporter, Termination, WholeFile, lexicon_path, texts, write_whole,
};
use std::alloc::{AllocError, Global};
use std::string::String;

/// Maximum number of errors that are reported. (This project's own choice)
const FAULTS_MAX: u32 = 20;

/// Maximum number of characters of a line that are printed.
const CHARACTERS_MAX: usize = 200;

/// Returns whether an error belongs to a line of a lexicon, so that compilation can continue
/// without the line. Too many entries are not an error of a line.
pub(crate) fn is_of_a_line(fault: SourceFault) -> bool
    ensures yes { result ≡ true → IsOfALine fault }
    ensures no { result ≡ false → IsOfALine fault → ⊥ }
{
    let is_of_lexicon = FIRST_LEXICON_FILE <= fault.file && fault.file != NO_FILE;
    let is_of_whole = matches!(fault.kind, SourceKind::TooManyEntries | SourceKind::Memory);
    is_of_lexicon && fault.line > 0 && !is_of_whole
}

/// Reports errors from `first` on, up to 20. Each further one is the first error after the lines of
/// the earlier ones are emptied. An error that belongs to no line ends the list. Then the hints for
/// the errors are printed, once for each error code.
pub(crate) fn print_faults(
    rt: &HostRuntime,
    reporter: &Reporter<'_>,
    lexicons: &mut [WholeFile],
    context: CompileContext<'_>,
    first: SourceFault,
) {
    let mut reported = Vec::new(rt.alloc());
    print_each(rt, reporter, context, lexicons, first, &mut reported);
    for fault in &reported {
        reporter.log_cause(fault);
    }
    for fault in &reported {
        reporter.log_explanation(fault);
    }
}

/// Reports the errors, and appends the first one of each code to `reported`.
fn print_each(
    rt: &HostRuntime,
    reporter: &Reporter<'_>,
    context: CompileContext<'_>,
    lexicons: &mut [WholeFile],
    first: SourceFault,
    reported: &mut Vec<Fault>,
) {
    let mut fault = first;
    for _printed in 1..FAULTS_MAX {
        push_if_new(reported, print_fault(rt, reporter, lexicons, fault));
        match fault_without(rt.alloc(), context, lexicons, fault) {
            Ok(Some(next)) => fault = next,
            Ok(None) => return,
            Err(AllocError) => {
                Fault::Memory.print(rt, reporter.program());
                push_if_new(reported, Fault::Memory);
                return;
            }
        }
    }
    push_if_new(reported, print_fault(rt, reporter, lexicons, fault));
    if is_of_a_line(fault) {
        print_more(rt, reporter.program());
    }
}

/// Appends an error if its code is new. If that allocation fails, the error is left out, because it
/// has been reported.
fn push_if_new(reported: &mut Vec<Fault>, fault: Fault) {
    if reported.iter().all(|kept| kept.code() != fault.code()) {
        let _ = reported.push(fault);
    }
}

/// Prints that there may be more errors than were reported.
fn print_more(rt: &HostRuntime, program: &str) {
    let line = format!(in rt.alloc();
        "{program}: {} errors were reported; there may be more\n",
        FAULTS_MAX
    );
    if let Ok(line) = line {
        let _ = write_whole(&mut rt.stderr(), line.as_bytes());
    }
}

/// Reports an error, the text of its line, and the field of the line that is not a valid number.
fn print_fault(
    rt: &HostRuntime,
    reporter: &Reporter<'_>,
    lexicons: &[WholeFile],
    fault: SourceFault,
) -> Fault {
    let path = lexicon_path(lexicons, fault.file);
    let reported = Fault::of_source(rt.alloc(), path, fault);
    reported.print(rt, reporter.program());
    if let Some(cut) = line_of(lexicons, fault) {
        if let Ok(line) = printed_line(rt.alloc(), cut.line) {
            let _ = write_whole(&mut rt.stderr(), line.as_bytes());
        }
        print_bad_number(rt.alloc(), reporter, path.unwrap_or(""), cut.line, fault);
    }
    reported
}

/// Returns the line of an error; None if the error belongs to no line.
fn line_of(lexicons: &[WholeFile], fault: SourceFault) -> Option<FileLine<'_>> {
    if !is_of_a_line(fault) {
        return None;
    }
    let file = lexicons.get(lexicon_number(fault))?;
    FileLine::find(&file.bytes, fault.line)
}

/// Returns the index of the error's lexicon, counted from 0.
fn lexicon_number(fault: SourceFault) -> usize {
    fault.file.saturating_sub(FIRST_LEXICON_FILE) as usize
}

/// Returns the first characters of a line as they are printed, with U+FFFD in place of bytes that
/// are not UTF-8.
fn printed_line(alloc: Global, line: &[u8]) -> Result<String, AllocError> {
    let line = line.strip_suffix(b"\r").unwrap_or(line);
    // A character has at most 4 bytes.
    let bytes = 4 * (CHARACTERS_MAX + 1);
    let text = String::from_utf8_lossy(alloc, &line[..line.len().min(bytes)])?;
    let beginning = Excerpt {
        text: text.as_str(),
        most: CHARACTERS_MAX,
    };
    format!(in alloc; "  {beginning}\n")
}

/// Empties the line of an error and returns the first remaining error; None if the error belongs to
/// no line, or no error remains.
fn fault_without(
    alloc: Global,
    context: CompileContext<'_>,
    lexicons: &mut [WholeFile],
    fault: SourceFault,
) -> Result<Option<SourceFault>, AllocError> {
    if !empty_line(alloc, lexicons, fault)? {
        return Ok(None);
    }
    let texts = texts(alloc, lexicons)?;
    Ok(context.first_fault(alloc, &texts))
}

/// Empties the line of an error. Returns false if the error belongs to no line.
fn empty_line(
    alloc: Global,
    lexicons: &mut [WholeFile],
    fault: SourceFault,
) -> Result<bool, AllocError> {
    let Some(cut) = line_of(lexicons, fault) else {
        return Ok(false);
    };
    let kept = cut.without(alloc)?;
    if let Some(file) = lexicons.get_mut(lexicon_number(fault)) {
        file.bytes = kept;
    }
    Ok(true)
}
