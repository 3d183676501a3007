//! The row of an image in a list of images.

ghost use Rattle.std.specs.Prelude.{◌≡◌, IfOk, string_bytes};
ghost use Rattle.programs.specs.ImageRows.{row_of};

use itoa::Buffer;
use std::alloc::{AllocError, Global};
use std::string::String;

/// Returns the row of an image, its fields separated by tabs: name, size in bytes, number of
/// entries or error, and path.
pub fn image_row(
    alloc: Global,
    name: &str,
    bytes: u64,
    entries: &str,
    path: &str,
) -> Result<String, AllocError>
    ensures { IfOk result (λ row.
        string_bytes row ≡ row_of name.now bytes entries.now path.now) }
{
    let mut number = Buffer::new();
    let mut row = String::from_str(alloc, name)?;
    row.push_str("\t")?;
    row.push_str(number.format(bytes))?;
    row.push_str("\t")?;
    row.push_str(entries)?;
    row.push_str("\t")?;
    row.push_str(path)?;
    row.push_str("\n")?;
    Ok(row)
}
