//! The line on standard output after a successful compilation.

ghost use Rattle.std.specs.Prelude.{◌≡◌, IfErr};
ghost use Rattle.programs.specs.declared.fault.Fault.TheVariants.{Output};

use dict_compile::Compiled;
use programs::{Fault, TextWriter};
use std::fmt::Write;
use std::io;

/// Prints the number of compiled entries and the number of skipped lines.
pub fn print_counts<W: io::Write>(compiled: &Compiled, out: &mut W) -> Result<(), Fault>
    ensures fault { IfErr result (λ fault. fault ≡ Output) }
{
    let Compiled {
        entries,
        skipped,
        ..
    } = compiled;
    writeln!(TextWriter(out), "{entries} entries, {skipped} skipped").map_err(|_| Fault::Output)?;
    out.flush().map_err(|_| Fault::Output)
}
