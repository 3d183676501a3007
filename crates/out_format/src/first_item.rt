//! Reads the item at the start of a format's text.

ghost use Rattle.std.specs.Prelude.{◌∷◌};
ghost use Rattle.out_format.specs.Results.{IsFirstItem, IsFirstField};

use crate::index::first_index;
use crate::items::{AllowedIn, item_rows};
use mj_model::{FormatItem, FormatPart};

/// An item, and the text after it.
#[derive(Clone, Copy)]
pub struct FirstItem<'a> {
    pub item: FormatItem,
    pub rest: &'a [u8],
}

/// Returns the item at the start of a text of `part`. `following` is the text after the percent sign.
pub fn first_item(part: FormatPart, following: &[u8]) -> Option<FirstItem<'_>>
    ensures { IsFirstItem part (37 ∷ following.now) result }
{
    for (letters, item, texts) in item_rows() {
        if texts.includes(part) && following.starts_with(letters) {
            return Some(FirstItem {
                item: *item,
                rest: &following[letters.len()..],
            });
        }
    }
    first_field(part, following)
}

/// Returns the field `f[n]` at the start of a text of `part`. `following` is the text after the
/// percent sign.
fn first_field(part: FormatPart, following: &[u8]) -> Option<FirstItem<'_>>
    ensures { IsFirstField part (37 ∷ following.now) result }
{
    if !AllowedIn::Words.includes(part) {
        return None;
    }
    let inside = following.strip_prefix(b"f")?;
    let index = first_index(inside)?;
    Some(FirstItem {
        item: FormatItem::Field(index.number),
        rest: index.rest,
    })
}
