//! Errors with codes and names.

ghost use Rattle.std.specs.Prelude.{◌≡◌};
ghost use Rattle.mj_model.specs.FaultWords.{Words};

use std::fmt::{self, Display, Formatter, Write};

/// An error with a short code and a name. Codes and names are this project's own choice.
pub trait NamedFault: Copy {
    /// The code and the name of an error.
    ghost words_of: { Self → Words };

    /// Returns the code and the name. If the error carries another one, they are those of the
    /// carried error.
    fn words(self) -> (&'static str, &'static str)
        ensures code { result.0.now ≡ (words_of self).code }
        ensures name { result.1.now ≡ (words_of self).name };

    /// Returns the short code, such as `S1`.
    fn code(self) -> &'static str
        ensures { result.now ≡ (words_of self).code }
    {
        self.words().0
    }

    /// Returns the name, such as `NotUtf8`.
    fn name(self) -> &'static str
        ensures { result.now ≡ (words_of self).name }
    {
        self.words().1
    }
}

/// Writes the code and the name of `fault`, or the name alone if both are equal, as after a failed
/// allocation.
pub fn write_code_and_name<T: NamedFault, W: Write>(fault: T, f: &mut Formatter<W>) -> fmt::Result {
    let (code, name) = fault.words();
    if code != name {
        f.write_str(code)?;
        f.write_str(" ")?;
    }
    f.write_str(name)
}

/// Writes the code and the name of `fault`, and then `number`.
pub fn write_numbered<T: NamedFault, N: Display + Drop, W: Write>(
    fault: T,
    number: N,
    f: &mut Formatter<W>,
) -> fmt::Result {
    write_code_and_name(fault, f)?;
    write!(f, " {number}")
}
