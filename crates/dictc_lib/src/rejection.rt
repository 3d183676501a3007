//! Reporting the error of a compilation.

ghost use Rattle.std.specs.Prelude.{◌≡◌, true, false};
ghost use Rattle.dictc_lib.specs.Rejections.{IsOfALine, IsPathIn, IsRejection};

use crate::all_faults::{is_of_a_line, print_faults};
use crate::bad_number::print_bad_number;
use crate::compile_context::CompileContext;
use crate::compile_error::CompileError;
use crate::file_line::FileLine;
use mj_model::SourceFault;
use programs::{Fault, Reporter, WholeFile};

/// Returns the error of lexicons that are compiled in a context, with the path of its file, and
/// prints a hint if a field is not a valid number. If all errors are requested and this one belongs
/// to a line of a lexicon, prints it and those of the other lines instead.
pub(crate) fn rejection(
    rt: &HostRuntime,
    reporter: &Reporter<'_>,
    context: CompileContext<'_>,
    lexicons: &mut [WholeFile],
    fault: SourceFault,
    all_faults: bool,
) -> CompileError
    ensures { IsRejection (IsPathIn context.entry lexicons.old fault.file) all_faults fault result }
{
    if are_all_reported(all_faults, fault) {
        print_faults(rt, reporter, lexicons, context, fault);
        return CompileError::Reported;
    }
    if let Some(file) = context.entries(lexicons, fault.file) {
        print_number_of(rt, reporter, file, fault);
    }
    CompileError::Fault(Fault::of_source(rt.alloc(), context.path(lexicons, fault.file), fault))
}

/// Returns whether the errors of all lines are reported in place of this one.
fn are_all_reported(all_faults: bool, fault: SourceFault) -> bool
    ensures yes { result ≡ true → (all_faults ≡ true) × IsOfALine fault }
    ensures no { result ≡ false → all_faults ≡ true → IsOfALine fault → ⊥ }
{
    all_faults && is_of_a_line(fault)
}

/// Prints which field of the error's line is not a valid number.
fn print_number_of(
    rt: &HostRuntime,
    reporter: &Reporter<'_>,
    file: &WholeFile,
    fault: SourceFault,
) {
    if let Some(cut) = FileLine::find(&file.bytes, fault.line) {
        print_bad_number(rt.alloc(), reporter, file.path.as_str(), cut.line, fault);
    }
}
