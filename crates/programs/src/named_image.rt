//! Images by name.

ghost use Rattle.std.specs.Prelude.{◌≡◌, Decides, IfOk, string_bytes, true};
ghost use Rattle.programs.specs.ImageDirs.{IsBare, IsPathFor};

use crate::environment::Environment;
use crate::image_dirs::image_in;
use std::alloc::AllocError;
use std::fs;
use std::string::String;

/// Returns the path of the image that an option names.
///
/// If `name` is bare and no file has it, this is the first image of that name in the image
/// directories. If there is none, `name` is returned unchanged.
pub fn image_path(rt: &HostRuntime, name: &str) -> Result<String, AllocError>
    ensures path { IfOk result (λ path. IsPathFor name.now (string_bytes path)) }
    ensures bare { IfOk result
        (λ path. (IsBare name.now → ⊥) → string_bytes path ≡ name.now) }
{
    if is_searched_for(rt, name) {
        let here = Environment::here(rt)?;
        let image_dirs = here.image_dirs(rt.alloc())?;
        for dir in &image_dirs {
            let path = image_in(rt.alloc(), dir.as_str(), name)?;
            if is_file(rt, path.as_str()) {
                return Ok(path);
            }
        }
    }
    String::from_str(rt.alloc(), name)
}

/// Returns whether the image directories are searched for a name: it is bare, and no file has it.
pub(crate) fn is_searched_for(rt: &HostRuntime, name: &str) -> bool
    ensures bare { result ≡ true → IsBare name.now }
{
    is_bare(name) && !is_there(rt, name)
}

/// Returns whether a name is bare: not empty and without a slash.
pub(crate) fn is_bare(name: &str) -> bool
    ensures { Decides result (IsBare name.now) }
{
    !name.is_empty() && !name.contains('/')
}

/// Returns whether there is a regular file at `path`. A pipe in an image directory, for example, is
/// not an image.
pub(crate) fn is_file(rt: &HostRuntime, path: &str) -> bool {
    fs::metadata(rt, path).is_ok_and(|found| found.is_file())
}

/// Returns whether there is anything but a directory at `path`.
fn is_there(rt: &HostRuntime, path: &str) -> bool {
    fs::metadata(rt, path).is_ok_and(|found| !found.is_dir())
}
