//! The list of the images that bare names may find.

ghost use Rattle.std.specs.Prelude.{◌≡◌, ◌⊎◌, ◌≤◌, IfErr, IfOk, OnOk, length};
ghost use Rattle.image_format.specs.ImageBytes.{header_length, header_of};
ghost use Rattle.image_format.specs.ImageFaults.{IsImageFault, IsWellFormed};
ghost use Rattle.image_format.specs.declared.digest_test.DigestTest.TheVariants.{Skipped};
ghost use Rattle.dict_image.specs.Validation.BeforeMemory.{ReachKeys};
ghost use Rattle.mj_model.specs.declared.image_fault.ImageFault.TheVariants.{Memory};

use dict_image::{DigestTest, load_without_digest};
use image_format::{HEADER_LENGTH, read_header};
use mj_model::{ImageFault, NamedFault};
use programs::{
    Environment, EscapedLine, Fault, ImageFile, Progress, Reporter, Stage, image_at, image_in,
    image_names, image_row, write_whole,
};
use std::alloc::{AllocError, Global};
use std::fs;
use std::string::String;

/// Prints a row for each image: the image directories in search order, and the images of each in
/// byte order of their names.
pub fn list_images(rt: &HostRuntime, reporter: &Reporter<'_>) -> Result<(), Fault> {
    let image_dirs = Environment::here(rt)?.image_dirs(rt.alloc())?;
    for dir in &image_dirs {
        list_image_dir(rt, dir.as_str(), reporter)?;
    }
    Ok(())
}

/// Prints the rows of one image directory, each as soon as its image is loaded.
fn list_image_dir(rt: &HostRuntime, dir: &str, reporter: &Reporter<'_>) -> Result<(), Fault> {
    let names = image_names(rt, dir)?;
    for name in &names {
        let path = image_in(rt.alloc(), dir, name.as_str())?;
        let row = row_of(rt, name.as_str(), path.as_str(), reporter)?;
        write_whole(&mut rt.stdout(), row.as_bytes()).map_err(|_| Fault::Output)?;
    }
    Ok(())
}

/// Returns the row of the image `name` at `path`.
fn row_of(
    rt: &HostRuntime,
    name: &str,
    path: &str,
    reporter: &Reporter<'_>,
) -> Result<String, AllocError> {
    let alloc = rt.alloc();
    let bytes = match fs::metadata(rt, path) {
        Ok(found) => found.len(),
        Err(_) => 0,
    };
    let entries = entries_or_error(rt, path, reporter)?;
    let name = format!(in alloc; "{}", EscapedLine(name))?;
    let path = format!(in alloc; "{}", EscapedLine(path))?;
    image_row(alloc, name.as_str(), bytes, entries.as_str(), path.as_str())
}

/// Returns the number of entries of an image, or the code and the name of its error. An allocation
/// failure is not an error of the image.
fn entries_or_error(
    rt: &HostRuntime,
    path: &str,
    reporter: &Reporter<'_>,
) -> Result<String, AllocError> {
    match &entries_at(rt, path) {
        Ok(entries) => {
            reporter.log(Stage::Loaded { path });
            format!(in rt.alloc(); "{entries}")
        }
        Err(Fault::Memory | Fault::Image(_, ImageFault::Memory)) => Err(AllocError),
        Err(Fault::Image(_, fault)) => format!(in rt.alloc(); "{fault}"),
        Err(fault) => format!(in rt.alloc(); "{} {}", fault.code(), fault.name()),
    }
}

/// Returns the number of entries of the image at `path`, without its unknown words.
fn entries_at(rt: &HostRuntime, path: &str) -> Result<u32, Fault> {
    let progress = Progress::new(rt);
    let read = image_at(rt, path, DigestTest::Skipped, &progress);
    progress.erase();
    let ImageFile { path, image } = read?;
    entries_of(rt.alloc(), image.bytes).map_err(|fault| Fault::Image(path, fault))
}

/// Returns the number of entries of an image, or the error of its bytes. The checksum is not
/// tested.
fn entries_of(alloc: Global, bytes: Vec<u8>) -> Result<u32, ImageFault>
    ensures formed { OnOk result (IsWellFormed bytes.items) }
    ensures entries { IfOk result (λ entries. header_length ≤ length bytes.items
        → entries ≡ (header_of bytes.items).tokens) }
    ensures rejected { IfErr result
        (λ fault. (fault ≡ Memory) ⊎ IsImageFault Skipped bytes.items fault) }
    // An allocation fails only after the bytes have passed the tests that precede those of the
    // keys.
    ensures out_of_memory { IfErr result
        (λ fault. fault ≡ Memory → ReachKeys Skipped bytes.items) }
{
    let entries = entries_in(&bytes);
    match load_without_digest(alloc, bytes) {
        Ok(_dict) => Ok(entries),
        Err(fault) => Err(fault),
    }
}

/// Returns the number of entries in the header of an image, or 0 if the bytes are shorter than a
/// header.
fn entries_in(image: &[u8]) -> u32
    ensures { header_length ≤ length image.now → result ≡ (header_of image.now).tokens }
{
    if image.len() < HEADER_LENGTH {
        return 0;
    }
    read_header(image).tokens
}
