//! Hints for an image name that was not found.

use crate::environment::Environment;
use crate::fault::Fault;
use crate::folder_names::{image_names, in_byte_order};
use crate::named_image::is_searched_for;
use crate::reporter::Reporter;
use command_lines::EscapedLine;
use std::alloc::{AllocError, Global};
use std::fmt::{self, Display, Formatter, Write};
use std::string::String;

/// Maximum number of names in a list of images.
const NAMES_MAX: usize = 20;

/// Prints the image directories and the names of the images in them, if `fault` is a bare image
/// name that was not found.
pub fn log_image_dirs(rt: &HostRuntime, reporter: &Reporter<'_>, fault: &Fault) {
    let Fault::File(name) = fault else {
        return;
    };
    if reporter.is_interactive() && is_searched_for(rt, name.as_str()) {
        // Lines are left out if they can't be allocated.
        let _ = log_dirs(rt, reporter);
    }
}

fn log_dirs(rt: &HostRuntime, reporter: &Reporter<'_>) -> Result<(), AllocError> {
    let image_dirs = Environment::here(rt)?.image_dirs(rt.alloc())?;
    for dir in &image_dirs {
        reporter.print_line(&SearchedDir(dir.as_str()));
    }
    let names = names_there(rt, &image_dirs)?;
    reporter.print_line(&AvailableNames(&names));
    Ok(())
}

/// Returns the names of the images in `folders` in byte order, without duplicates.
fn names_there(rt: &HostRuntime, folders: &[String]) -> Result<Vec<String>, AllocError> {
    let mut names = Vec::new(rt.alloc());
    for folder in folders {
        let mut there = image_names(rt, folder.as_str())?;
        names.append(&mut there)?;
    }
    let mut names = in_byte_order(names)?;
    names.dedup();
    Ok(names)
}

/// Returns the line that lists `names`.
pub fn name_list(alloc: Global, names: &[String]) -> Result<String, AllocError> {
    format!(in alloc; "{}", AvailableNames(names))
}

/// Displays an image directory that was searched.
#[derive(Clone, Copy)]
struct SearchedDir<'a>(&'a str);

impl Display for SearchedDir<'_> {
    fn fmt<W: Write>(&self, f: &mut Formatter<W>) -> fmt::Result {
        f.write_str("searched ")?;
        EscapedLine(self.0).fmt(f)
    }
}

/// Displays a list of image names.
#[derive(Clone, Copy)]
struct AvailableNames<'a>(&'a [String]);

impl Display for AvailableNames<'_> {
    fn fmt<W: Write>(&self, f: &mut Formatter<W>) -> fmt::Result {
        f.write_str("available images: ")?;
        match self.0.split_first() {
            Some((first, others)) => {
                EscapedLine(first.as_str()).fmt(f)?;
                write_others(f, others)
            }
            None => f.write_str("none; install one with kumquatsieve-import"),
        }
    }
}

/// Writes the names after the first one, and the number of names that are left out.
fn write_others<W: Write>(f: &mut Formatter<W>, names: &[String]) -> fmt::Result {
    for name in names.iter().take(NAMES_MAX - 1) {
        f.write_str(", ")?;
        EscapedLine(name.as_str()).fmt(f)?;
    }
    match names.len().saturating_sub(NAMES_MAX - 1) {
        0 => Ok(()),
        more => write!(f, " and {more} more"),
    }
}
