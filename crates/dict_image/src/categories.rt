//! Access to the section of character categories.
ghost use Rattle.std.specs.Prelude.{◌≡◌, ◌+◌, length, IfOk, IsUtf8};
ghost use Rattle.image_format.specs.ImageSections.{first_category};
ghost use Rattle.dict_image.specs.Categories.{HasFirst, HasCategoriesFirst, bytes_from, listed_categories};
ghost use Rattle.dict_image.specs.Validation.CheckedCategories.{after_first_category};

use crate::entry_ref::text;
use mj_model::Category;
use std::alloc::{AllocError, Global};

/// Returns the first `count` categories of a section. Allocates 3 bytes for each.
pub(crate) fn categories_of(
    alloc: Global,
    categories: &[u8],
    count: u32,
) -> Result<Vec<Category>, AllocError>
    requires { HasCategoriesFirst count categories.now }
    ensures { IfOk result (λ list. list.items ≡ listed_categories count categories.now) }
{
    let mut list = Vec::with_capacity(alloc, count as usize)?;
    let mut rest = categories;
    for _ in 0..count {
        list.push(category_of(rest))?;
        rest = after_category(rest);
    }
    Ok(list)
}

/// Returns the bytes of a section from category `i` on.
pub(crate) fn from_category(categories: &[u8], i: usize) -> &[u8]
    requires { HasCategoriesFirst i categories.now }
    ensures { result.now ≡ bytes_from i categories.now }
{
    let mut rest = categories;
    for _ in 0..i {
        rest = after_category(rest);
    }
    rest
}

/// Returns the category at the start of the bytes.
pub(crate) fn category_of(categories: &[u8]) -> Category
    requires { HasFirst categories.now }
    ensures { result ≡ (first_category categories.now).category }
{
    Category {
        invoke: categories[0] == 1,
        group: categories[1] == 1,
        length: categories[2],
    }
}

/// Returns the name of the category at the start of the bytes.
pub(crate) fn name_of(categories: &[u8]) -> &str
    requires first { HasFirst categories.now }
    requires text { IsUtf8 (first_category categories.now).name }
    ensures { result.now ≡ (first_category categories.now).name }
{
    let length = categories[3] as usize;
    text(&categories[4..4 + length])
}

/// Returns the bytes after the category at the start.
fn after_category(categories: &[u8]) -> &[u8]
    requires { HasFirst categories.now }
    ensures { result.now ≡ after_first_category categories.now }
{
    let name = categories[3] as usize;
    &categories[4 + name..]
}
