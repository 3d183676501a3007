//! Section 2: character categories.
ghost use Rattle.std.specs.Prelude.{◌≡◌, ◌<◌, ◌++◌, length, IfOk, OnOk};
ghost use Rattle.image_format.specs.ImageSections.{category_bytes};
ghost use Rattle.image_writer.specs.StoredTables.{AreCategoriesOf};

use char_def::CharTable;
use mj_model::Category;
use std::alloc::{AllocError, Global};

/// Returns the bytes of all categories: INVOKE, GROUP, LENGTH, the length of the name, and the name
/// of each. Fails only if an allocation fails.
pub(crate) fn write_categories(alloc: Global, chars: &CharTable) -> Result<Vec<u8>, AllocError>
    ensures { IfOk result (λ bytes. AreCategoriesOf chars.now bytes.items) }
{
    let mut bytes = Vec::new(alloc);
    for i in 0..chars.count() {
        append_category(chars.category(i), chars.name(i), &mut bytes)?;
    }
    Ok(bytes)
}

/// Appends the bytes of a category with this name.
fn append_category(category: Category, name: &str, bytes: &mut Vec<u8>) -> Result<(), AllocError>
    requires { length name.now < 256 }
    ensures { OnOk result (bytes.new.items ≡ bytes.old.items
        ++ category_bytes (record { name = name.now; category = category })) }
{
    bytes.extend_from_slice(&[
        u8::from(category.invoke),
        u8::from(category.group),
        category.length,
        name.len() as u8,
    ])?;
    bytes.extend_from_slice(name.as_bytes())
}
