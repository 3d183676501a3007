//! The iterator over the surfaces that are prefixes of a text.
ghost use Rattle.std.specs.Prelude.{◌≡◌, ◌+◌, ◌*◌, ◌<◌, ◌≤◌, [], length, map, option_map};
ghost use Rattle.mj_model.specs.Reads.{walk_reads};
ghost use Rattle.mj_model.specs.Walking.{walked_to};
ghost use Rattle.dict_image.specs.ImageKeys.{AreHitsIn, cells_of_keys};
ghost use Rattle.dict_image.specs.KeyHits.{hits_view};
ghost use Rattle.dict_image.specs.Prefixes.{prefix_in, prefixes_in};
ghost use Rattle.image_format.specs.ImageMeaning.{image_tables, lexicon_sections};
ghost use Rattle.std.specs.Iterator.{YieldsFirstBy, item_count};

use crate::dict::Dict;
use crate::entries::Entries;
use crate::key_hits::KeyHits;
use std::marker::Model;

/// An iterator over the surfaces that are prefixes of a text, the shortest first: their lengths in
/// bytes, and their entries.
///
/// Contracts describe it by the remaining surfaces, the cells of the double array, the text, and
/// the number of bytes that were walked.
#[derive(Drop)]
pub struct Prefixes<'a> {
    dict: &'a Dict,
    hits: KeyHits<'a>,
}

impl<'a> Model for Prefixes<'a> {
    ghost use Rattle.std.specs.Prelude.{map};
    ghost use Rattle.dict_image.specs.ImageKeys.{AreHitsIn};
    ghost use Rattle.dict_image.specs.KeyHits.{hits_view};
    ghost use Rattle.dict_image.specs.Prefixes.{PrefixesView, prefix_in};
    ghost use Rattle.image_format.specs.ImageMeaning.{lexicon_sections};

    ghost Value = { PrefixesView };

    ghost view = { λ it. record {
      prefixes = map (prefix_in (lexicon_sections it.dict.now)) (hits_view it.hits).hits;
      cells = (hits_view it.hits).cells;
      text = (hits_view it.hits).text;
      walked = (hits_view it.hits).walked;
    } };

    ghost invariant = { λ it. AreHitsIn it.dict.now (hits_view it.hits).hits };
}

impl<'a> Prefixes<'a> {
    /// Returns the surfaces of `dict` that are prefixes of `text`.
    #[inline(always)]
    pub(crate) fn new(dict: &'a Dict, text: &'a [u8]) -> Prefixes<'a>
        ensures prefixes { result.prefixes ≡ prefixes_in text.now (image_tables dict.now).lexicon }
        ensures cells { result.cells ≡ cells_of_keys dict.now }
        ensures text { result.text ≡ text.now }
        ensures walked { result.walked ≡ 0 }
    {
        Prefixes {
            dict,
            hits: dict.hits(text),
        }
    }

    /// Returns the number of cells read so far. It is 0 if keys are listed.
    pub fn reads(&self) -> u64
        ensures reads { result ≡ walk_reads self.now.cells self.now.text self.now.walked }
        ensures few { result ≤ 2 * length self.now.text + 1 }
        ensures none { self.now.cells ≡ [] → result ≡ 0 }
    {
        self.hits.reads()
    }
}

impl<'a> Iterator for Prefixes<'a> {
    type Item = (usize, Entries<'a>);

    ghost next_gives = { λ old found new.
        YieldsFirstBy (λ prefix. (prefix.0, prefix.1)) (λ it. it.prefixes) old found new
        × (new.cells ≡ old.cells) × (new.text ≡ old.text)
        × (new.walked ≡ walked_to old.text (option_map (λ prefix. prefix.0) found)) };

    ghost remaining = { item_count (λ it. it.prefixes) };

    #[inline(always)]
    fn next(&mut self) -> Option<(usize, Entries<'a>)> {
        next_prefix(self.dict, &mut self.hits)
    }
}

/// Returns the length in bytes and the entries of the next surface.
#[inline(always)]
fn next_prefix<'a>(dict: &'a Dict, hits: &mut KeyHits<'a>) -> Option<(usize, Entries<'a>)>
    requires groups { AreHitsIn dict.now (hits_view hits.old).hits }
    ensures groups { AreHitsIn dict.now (hits_view hits.new).hits }
    ensures prefixes { YieldsFirstBy (λ prefix. (prefix.0, prefix.1))
        (λ it. map (prefix_in (lexicon_sections dict.now)) (hits_view it).hits)
        hits.old result hits.new }
    ensures cells { (hits_view hits.new).cells ≡ (hits_view hits.old).cells }
    ensures text { (hits_view hits.new).text ≡ (hits_view hits.old).text }
    ensures walked { (hits_view hits.new).walked
        ≡ walked_to (hits_view hits.old).text (option_map (λ prefix. prefix.0) result) }
{
    let hit = hits.next_hit()?;
    Some((hit.length, dict.group(hit.value)))
}
