//! Image directories: the directories that are searched for the image of a bare name.

ghost use Rattle.std.specs.Prelude.{◌≡◌, ◌++◌, IfOk, OnOk, map, option_copied, option_map, option_to_list, string_bytes};
ghost use Rattle.programs.specs.ImageDirs.{absolute, image_dirs_of, image_in, user_image_dir, local_image_dir, with_image_dir, with_system};

use crate::environment::Environment;
use std::alloc::{AllocError, Global};
use std::path::Path;
use std::string::String;

impl Environment {
    /// Returns the image directories in search order, without duplicates: the user's directory, the
    /// directory of images built on this system, and that of images installed with the program.
    /// (XDG Base Directory Specification; Filesystem Hierarchy Standard)
    pub fn image_dirs(&self, alloc: Global) -> Result<Vec<String>, AllocError>
        ensures { IfOk result (λ image_dirs.
            map (λ dir. string_bytes dir) image_dirs.items ≡ image_dirs_of self.now) }
    {
        let own = self.user_image_dirs(alloc)?;
        with_system(alloc, own, &self.prefix)
    }

    /// Returns the user's image directory, if there is one, as a list.
    fn user_image_dirs(&self, alloc: Global) -> Result<Vec<String>, AllocError>
        ensures { IfOk result (λ image_dirs.
            map (λ dir. string_bytes dir) image_dirs.items
            ≡ option_to_list (user_image_dir self.now)) }
    {
        let mut image_dirs = Vec::new(alloc);
        let Some(dir) = self.user_image_dir(alloc)? else {
            return Ok(image_dirs);
        };
        image_dirs.push(dir)?;
        Ok(image_dirs)
    }

    /// Returns the user's image directory. A variable that is not an absolute path is ignored. (XDG
    /// Base Directory Specification)
    fn user_image_dir(&self, alloc: Global) -> Result<Option<String>, AllocError>
        ensures { IfOk result (λ found.
            option_map (λ dir. string_bytes dir) found ≡ user_image_dir self.now) }
    {
        if let Some(share) = absolute(&self.data_home) {
            return Ok(Some(joined(alloc, share, "/kumquatsieve")?));
        }
        match absolute(&self.home) {
            Some(home) => Ok(Some(joined(alloc, home, "/.local/share/kumquatsieve")?)),
            None => Ok(None),
        }
    }
}

/// Appends the image directories of the system to `own`, if the prefix is known.
fn with_system(
    alloc: Global,
    own: Vec<String>,
    prefix: &Option<String>,
) -> Result<Vec<String>, AllocError>
    ensures { IfOk result (λ image_dirs. map (λ dir. string_bytes dir) image_dirs.items
        ≡ with_system prefix.now (map (λ dir. string_bytes dir) own.items)) }
{
    let mut image_dirs = own;
    let Some(prefix) = prefix else {
        return Ok(image_dirs);
    };
    let made = local_image_dir(alloc, prefix.as_str())?;
    let shared = joined(alloc, prefix.as_str(), "/share/kumquatsieve")?;
    add_image_dir(&mut image_dirs, made)?;
    add_image_dir(&mut image_dirs, shared)?;
    Ok(image_dirs)
}

/// Returns `path` if it is known and absolute.
fn absolute(path: &Option<String>) -> Option<&str>
    ensures { option_copied result ≡ absolute path.now }
{
    match path {
        Some(path) if Path::new(path.as_str()).is_absolute() => Some(path.as_str()),
        _ => None,
    }
}

/// Returns the directory of images built on this system, for a program installed under `prefix`. It
/// lies in `/var` if the prefix is `/usr`.
fn local_image_dir(alloc: Global, prefix: &str) -> Result<String, AllocError>
    ensures { IfOk result (λ dir. string_bytes dir ≡ local_image_dir prefix.now) }
{
    let root = if prefix == "/usr" { "" } else { prefix };
    joined(alloc, root, "/var/lib/kumquatsieve")
}

/// Appends `dir` to the directories unless it is among them.
fn add_image_dir(image_dirs: &mut Vec<String>, dir: String) -> Result<(), AllocError>
    ensures { OnOk result (map (λ dir. string_bytes dir) image_dirs.new.items
        ≡ with_image_dir (map (λ dir. string_bytes dir) image_dirs.old.items)
        (string_bytes dir)) }
{
    if image_dirs.contains(&dir) {
        return Ok(());
    }
    image_dirs.push(dir)?;
    Ok(())
}

/// Returns the path of the image `name` in `folder`.
pub fn image_in(alloc: Global, folder: &str, name: &str) -> Result<String, AllocError>
    ensures { IfOk result (λ path. string_bytes path ≡ image_in folder.now name.now) }
{
    let mut path = joined(alloc, folder, "/")?;
    path.push_str(name)?;
    path.push_str(".img")?;
    Ok(path)
}

/// Returns `text` followed by `following`.
fn joined(alloc: Global, text: &str, following: &str) -> Result<String, AllocError>
    ensures { IfOk result (λ joined. string_bytes joined ≡ text.now ++ following.now) }
{
    let mut joined = String::from_str(alloc, text)?;
    joined.push_str(following)?;
    Ok(joined)
}
