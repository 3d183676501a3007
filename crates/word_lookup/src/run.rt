//! Runs of characters, each of which shares a category with the one before it.

ghost use Rattle.std.specs.Prelude.{◌≡◌, ◌+◌, min, chars, take, drop};
ghost use Rattle.mj_model.specs.Run.{run, bytes_of, sharing_with};
ghost use Rattle.image_format.specs.ImageMeaning.{image_tables};
ghost use Rattle.mj_model.specs.Tables.{System};

use dict_image::Dict;
use mj_model::CharInfo;

/// A run of characters: their number, and their length in bytes.
#[derive(Clone, Copy, Debug, Drop)]
pub struct Run {
    pub characters: usize,
    pub bytes: usize,
}

/// The part of a run at the start of a text that was scanned: its number of characters, its length
/// in bytes, and the categories of its last character, from which the run continues.
#[derive(Clone, Copy, Debug, Drop)]
pub struct ScannedRun {
    pub characters: usize,
    pub bytes: usize,
    pub last: CharInfo,
}

/// Scans the run at the start of `text` that follows a character with the categories `entry`, up to
/// `limit` characters.
///
/// `range` is a hint: the index of the code point range that was found last. Any value is valid.
#[inline(always)]
pub fn run_up_to(
    system: &Dict,
    entry: CharInfo,
    text: &str,
    limit: usize,
    range: &mut usize,
) -> ScannedRun
    requires { (image_tables system.now).kind ≡ System }
    ensures characters { result.characters
        ≡ min limit (run (image_tables system.now).info entry (chars text.now)) }
    ensures bytes { result.bytes ≡ bytes_of result.characters (chars text.now) }
    ensures goes_on { run (image_tables system.now).info entry (chars text.now)
        ≡ result.characters + run (image_tables system.now).info result.last
        (drop result.characters (chars text.now)) }
{
    let mut last = entry;
    let mut left = text.chars();
    for characters in 0..limit {
        let bytes = text.len() - left.as_str().len();
        let Some(c) = left.next() else {
            return ScannedRun {
                characters,
                bytes,
                last,
            };
        };
        let next = system.info_with_hint(c, range);
        if !last.shares(next) {
            return ScannedRun {
                characters,
                bytes,
                last,
            };
        }
        last = next;
    }
    ScannedRun {
        characters: limit,
        bytes: text.len() - left.as_str().len(),
        last,
    }
}

/// Returns how many characters at the start of `text` share a category with `first`, up to `limit`.
#[inline(always)]
pub fn sharing_up_to(system: &Dict, first: CharInfo, text: &str, limit: usize) -> usize
    requires { (image_tables system.now).kind ≡ System }
    ensures { result ≡ sharing_with first (image_tables system.now).info
        (take limit (chars text.now)) }
{
    text.chars()
        .take(limit)
        .take_while(|c| first.shares(system.info(*c)))
        .count()
}
