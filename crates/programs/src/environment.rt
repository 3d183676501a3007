//! The environment that determines the image directories.

ghost use Rattle.std.specs.Prelude.{◌≡◌, option_copied};
ghost use Rattle.programs.specs.ImageDirs.{prefix_of};

use std::alloc::AllocError;
use std::env::{self, VarError};
use std::io::ErrorKind;
use std::path::Path;
use std::string::String;

/// The values that determine the image directories. A value is None if the system doesn't report it
/// or if it is not UTF-8.
#[derive(Drop)]
pub struct Environment {
    /// The installation prefix: PREFIX if the program is `PREFIX/bin/jseg`. It is empty for
    /// `/bin/jseg`.
    pub prefix: Option<String>,
    /// `XDG_DATA_HOME`.
    pub data_home: Option<String>,
    /// `HOME`.
    pub home: Option<String>,
}

impl Environment {
    /// Returns the environment of this process.
    pub fn here(rt: &HostRuntime) -> Result<Environment, AllocError> {
        Ok(Environment {
            prefix: prefix_here(rt)?,
            data_home: variable(rt, "XDG_DATA_HOME")?,
            home: variable(rt, "HOME")?,
        })
    }
}

/// Returns the installation prefix of this program, if the system reports the program's path.
fn prefix_here(rt: &HostRuntime) -> Result<Option<String>, AllocError> {
    match env::current_exe(rt) {
        Ok(program) => match prefix_of(program.as_str()) {
            Some(prefix) => Ok(Some(String::from_str(rt.alloc(), prefix)?)),
            None => Ok(None),
        },
        Err(error) if error.kind() == ErrorKind::OutOfMemory => Err(AllocError),
        Err(_) => Ok(None),
    }
}

/// Returns the installation prefix of a program path: PREFIX for any path of the form
/// `PREFIX/bin/jseg`.
pub fn prefix_of(program: &str) -> Option<&str>
    ensures { option_copied result ≡ prefix_of program.now }
{
    let folder = Path::new(program).parent()?;
    let prefix = folder.parent()?.as_str();
    Some(if prefix == "/" { "" } else { prefix })
}

/// Returns an environment variable, if it is set and UTF-8.
fn variable(rt: &HostRuntime, name: &str) -> Result<Option<String>, AllocError> {
    match env::var(rt, name) {
        Ok(text) => Ok(Some(text)),
        Err(VarError::OutOfMemory) => Err(AllocError),
        Err(_) => Ok(None),
    }
}
