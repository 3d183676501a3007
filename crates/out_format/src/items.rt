//! The items of formats, except for fields: their letters, and the parts that may use them. (MeCab,
//! format.html)

ghost use Rattle.std.specs.Prelude.{◌≡◌, map};
ghost use Rattle.out_format.specs.Formats.{includes as includes_part};
ghost use Rattle.out_format.specs.Results.{row_of};

use mj_model::{FormatItem, FormatPart};

/// The parts of a format that may use an item.
#[derive(Clone, Copy, Debug, PartialEq, Eq, Drop)]
pub enum AllowedIn {
    /// All parts.
    EveryText,
    /// The parts for words and the part after the last word.
    WordsAndEnd,
    /// The parts for known and for unknown words.
    Words,
}

impl AllowedIn {
    /// Returns whether `part` may use the item.
    pub fn includes(self, part: FormatPart) -> bool
        ensures { result ≡ includes_part self part }
    {
        match part {
            FormatPart::Node | FormatPart::Unk => true,
            FormatPart::Bos => self == AllowedIn::EveryText,
            FormatPart::Eos => self != AllowedIn::Words,
        }
    }
}

/// The table of items: the letters after the percent sign, the item, and the parts that may use it.
/// No row's letters are a prefix of another row's.
///
/// To add an item, add a row here, its meaning in `PrintedPaths`, and its printing in `WordInPath`
/// or `Line`.
#[rattlefmt::skip]
pub const ITEMS: [(&[u8], FormatItem, AllowedIn); 19] = [
    (b"m", FormatItem::Surface, AllowedIn::Words),
    (b"M", FormatItem::SurfaceWithBlanks, AllowedIn::Words),
    (b"pS", FormatItem::Blanks, AllowedIn::Words),
    (b"H", FormatItem::Feature, AllowedIn::Words),
    (b"c", FormatItem::WordCost, AllowedIn::Words),
    (b"s", FormatItem::IsUnknown, AllowedIn::Words),
    (b"S", FormatItem::Sentence, AllowedIn::EveryText),
    (b"L", FormatItem::SentenceLength, AllowedIn::EveryText),
    (b"phl", FormatItem::LeftId, AllowedIn::Words),
    (b"phr", FormatItem::RightId, AllowedIn::Words),
    (b"pC", FormatItem::ConnectionCost, AllowedIn::Words),
    (b"pn", FormatItem::CostHere, AllowedIn::Words),
    (b"pc", FormatItem::CostSoFar, AllowedIn::WordsAndEnd),
    (b"pl", FormatItem::SurfaceLength, AllowedIn::Words),
    (b"pL", FormatItem::LengthWithBlanks, AllowedIn::Words),
    (b"ps", FormatItem::Start, AllowedIn::Words),
    (b"pe", FormatItem::End, AllowedIn::Words),
    (b"t", FormatItem::CharacterCategory, AllowedIn::Words),
    (b"%", FormatItem::Percent, AllowedIn::EveryText),
];

/// Returns the rows of the table.
pub fn item_rows() -> &'static [(&'static [u8], FormatItem, AllowedIn)]
    ensures { map row_of result.now ≡ ITEMS }
{
    &ITEMS
}
