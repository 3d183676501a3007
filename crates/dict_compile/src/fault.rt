//! The errors of a compilation.

ghost use Rattle.std.specs.Prelude.{◌≡◌};
ghost use Rattle.dict_compile.specs.Faults.{fault_of_image, user_words};
ghost use Rattle.dict_compile.specs.declared.fault.CompileUserFault.TheVariants.{Source};

use mj_model::{NO_FILE, NamedFault, SourceFault, SourceKind, write_code_and_name};
use std::fmt::{self, Display, Formatter, Write};
use thiserror::Error;

/// An error of the compilation of a user dictionary.
#[derive(Clone, Copy, Debug, PartialEq, Eq, Drop, Error)]
pub enum CompileUserFault {
    /// The dictionary that it was compiled for is a user dictionary itself.
    NotSystem,
    /// The lexicons are invalid or too large, or an allocation failed.
    Source(SourceFault),
}

impl From<SourceFault> for CompileUserFault {
    ghost from_gives = { λ fault result. result ≡ Source fault };

    fn from(fault: SourceFault) -> CompileUserFault {
        CompileUserFault::Source(fault)
    }
}

impl NamedFault for CompileUserFault {
    ghost words_of = { user_words };

    fn words(self) -> (&'static str, &'static str) {
        match self {
            CompileUserFault::NotSystem => ("O1", "NotSystem"),
            CompileUserFault::Source(fault) => fault.words(),
        }
    }
}

impl Display for CompileUserFault {
    fn fmt<W: Write>(&self, f: &mut Formatter<W>) -> fmt::Result {
        match *self {
            CompileUserFault::NotSystem => write_code_and_name(*self, f),
            CompileUserFault::Source(fault) => fault.fmt(f),
        }
    }
}

/// Returns an error of the image as a whole, which belongs to no file.
pub(crate) fn of_image(kind: SourceKind) -> SourceFault
    ensures { result ≡ fault_of_image kind }
{
    kind.at(NO_FILE, 0)
}
