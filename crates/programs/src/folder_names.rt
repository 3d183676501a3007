//! The names of the images in a directory.

ghost use Rattle.std.specs.Prelude.{◌≡◌, IfOk, IsPermutation, IsSorted, OnOk, string_cmp, true};
ghost use Rattle.programs.specs.ImageDirs.{AreBare, IsBare};

use crate::image_dirs::image_in;
use crate::named_image::{is_bare, is_file};
use std::alloc::AllocError;
use std::io::ErrorKind;
use std::string::String;
use std::{fs, io};

/// Returns the name of each regular file `NAME.img` in `folder`, in byte order. A directory that
/// can't be read has none. Names that are not UTF-8 are left out, because a program can't take them
/// as arguments.
pub fn image_names(rt: &HostRuntime, folder: &str) -> Result<Vec<String>, AllocError>
    ensures named { IfOk result (λ names. AreBare names.items) }
    ensures order { IfOk result (λ names. IsSorted string_cmp names.items) }
{
    match names_in(rt, folder) {
        Ok(names) => in_byte_order(names),
        Err(error) if error.kind() == ErrorKind::OutOfMemory => Err(AllocError),
        Err(_) => Ok(Vec::new(rt.alloc())),
    }
}

/// Sorts names in byte order.
pub fn in_byte_order(mut names: Vec<String>) -> Result<Vec<String>, AllocError>
    ensures same { IfOk result (λ ordered. IsPermutation names.items ordered.items) }
    ensures order { IfOk result (λ ordered. IsSorted string_cmp ordered.items) }
{
    names.sort()?;
    Ok(names)
}

/// Returns the names of the images in `folder`, in no particular order.
fn names_in(rt: &HostRuntime, folder: &str) -> io::Result<Vec<String>>
    ensures named { IfOk result (λ names. AreBare names.items) }
{
    let mut names = Vec::new(rt.alloc());
    for entry in fs::read_dir(rt, folder)? {
        match entry {
            Ok(entry) => add_name(rt, folder, entry.file_name(), &mut names)?,
            Err(error) if error.kind() == ErrorKind::OutOfMemory => return Err(error),
            Err(_) => {}
        }
    }
    Ok(names)
}

/// Appends the name of the image in `folder/file`, if the file is an image.
fn add_name(
    rt: &HostRuntime,
    folder: &str,
    file: &str,
    names: &mut Vec<String>,
) -> Result<(), AllocError>
    ensures named { OnOk result (AreBare names.old.items → AreBare names.new.items) }
{
    let Some(name) = file.strip_suffix(".img") else {
        return Ok(());
    };
    if !has_image(rt, folder, name)? {
        return Ok(());
    }
    names.push(String::from_str(rt.alloc(), name)?)?;
    Ok(())
}

/// Returns whether `folder` contains an image named `name`, which must be bare.
fn has_image(rt: &HostRuntime, folder: &str, name: &str) -> Result<bool, AllocError>
    ensures bare { IfOk result (λ has. has ≡ true → IsBare name.now) }
{
    let path = image_in(rt.alloc(), folder, name)?;
    Ok(is_bare(name) && is_file(rt, path.as_str()))
}
