//! Reads the piece at the start of a format's text: a byte, an escape or an item.

ghost use Rattle.std.specs.Prelude.{◌≡◌, ◌<◌, ◌∷◌, length};
ghost use Rattle.out_format.specs.Formats.{bad_item as bad_item_of};
ghost use Rattle.out_format.specs.Results.{IsFirstPiece};

use crate::bytes::first_byte;
use crate::escapes::escaped_byte;
use crate::first_item::first_item;
use crate::items::AllowedIn;
use mj_model::{FormatItem, FormatKind, FormatPart};

/// A piece of a format: a byte that is printed unchanged, or an item.
#[derive(Clone, Copy)]
pub enum NextPiece {
    Byte(u8),
    Item(FormatItem),
}

/// A piece, and the text after it.
#[derive(Clone, Copy)]
pub struct FirstPiece<'a> {
    pub piece: NextPiece,
    pub rest: &'a [u8],
}

/// Returns the piece at the start of `text`, or the reason why no piece of `part` starts there.
pub fn first_piece(text: &[u8], part: FormatPart) -> Result<FirstPiece<'_>, FormatKind>
    requires { 0 < length text.now }
    ensures { IsFirstPiece part text.now result }
{
    let Some((first, rest)) = first_byte(text) else {
        unreachable!();
    };
    if first == b'\\' {
        escape_of_part(rest, part)
    } else if first == b'%' {
        item_of_part(rest, part)
    } else {
        Ok(FirstPiece {
            piece: NextPiece::Byte(first),
            rest,
        })
    }
}

/// Returns the byte of an escape, which any part may contain. `following` is the text after the
/// backslash.
fn escape_of_part(following: &[u8], part: FormatPart) -> Result<FirstPiece<'_>, FormatKind>
    ensures { IsFirstPiece part (92 ∷ following.now) result }
{
    let Some((character, rest)) = first_byte(following) else {
        return Err(FormatKind::BadEscape);
    };
    match escaped_byte(character) {
        Some(byte) => Ok(FirstPiece {
            piece: NextPiece::Byte(byte),
            rest,
        }),
        None => Err(FormatKind::BadEscape),
    }
}

/// Returns the item at the start of a text of `part`. `following` is the text after the percent sign.
fn item_of_part(following: &[u8], part: FormatPart) -> Result<FirstPiece<'_>, FormatKind>
    ensures { IsFirstPiece part (37 ∷ following.now) result }
{
    match first_item(part, following) {
        Some(first) => Ok(FirstPiece {
            piece: NextPiece::Item(first.item),
            rest: first.rest,
        }),
        None => Err(bad_item(part, following)),
    }
}

/// Returns the error if no item of `part` follows a percent sign: the index is invalid after `%f`,
/// otherwise the item.
fn bad_item(part: FormatPart, following: &[u8]) -> FormatKind
    ensures { result ≡ bad_item_of part following.now }
{
    if following.first() == Some(&b'f') && AllowedIn::Words.includes(part) {
        FormatKind::BadIndex
    } else {
        FormatKind::BadItem
    }
}
