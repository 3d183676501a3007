//! The dictionaries that words are looked up in.

ghost use Rattle.std.specs.Prelude.{◌≡◌, ◌<◌, ◌≤◌, [], length, map, IsTrue, IfOk, OnOk, IfErr, Some, None, slice_get, slice_index_or};
ghost use Rattle.mj_model.specs.Connection.{is_pair};
ghost use Rattle.image_format.specs.ImageMeaning.{image_tables};
ghost use Rattle.mj_model.specs.Printed.{feature_of};
ghost use Rattle.word_lookup.specs.Fitting.{AreOfSpace, IsOverlay};
ghost use Rattle.mj_model.specs.Tables.{lexicons};
ghost use Rattle.word_lookup.specs.Props.{IsOverlay-prop};
ghost use Rattle.dict_image.specs.CostRows.{AreCostsBefore};
ghost use Rattle.dict_image.specs.Fitting.{AreFitting};
ghost use Rattle.std.proofs.Props.{props};

use crate::overlay::check_users;
use dict_image::{CostsBefore, Dict, EntryRef};
use mj_model::{CharInfo, GROUPING_DEFAULT, Origin, OverlayFault, Word};
use std::alloc::{AllocError, Global};

/// A system dictionary, the user dictionaries laid over it, and the maximum number of characters
/// that follow the first one of a grouped unknown word.
#[derive(Clone, Copy, Drop)]
pub struct Dictionaries<'a> {
    pub(crate) system: &'a Dict,
    pub(crate) users: &'a [Dict],
    pub(crate) grouping: u16,
    /// The categories of U+0020. Characters that share one of them start blanks.
    pub(crate) space: CharInfo,
    ghost fitting: { IsOverlay (image_tables system.now) (map image_tables users.now) } by { IsOverlay-prop (image_tables system.now) (map image_tables users.now) },
    ghost space_is: { AreOfSpace (image_tables system.now) space } by { Prim.hlevel props },
}

impl<'a> Dictionaries<'a> {
    ghost use Rattle.word_lookup.specs.EntryWords.{feature_in_entry};
    ghost use Rattle.word_lookup.specs.Overlays.{fault_of_images, lexicon_in, overlay_by_default, overlay_of};
    ghost use Rattle.word_lookup.specs.Surfaces.{all_tables};

    /// Lays user dictionaries over a system dictionary, with a grouping of 24 characters. Does not
    /// allocate.
    ///
    /// Returns `NotSystem`, `NotUser` or `OtherSizes` if the dictionaries don't fit together.
    #[tactic(auto, unfolding(crate::specs::Overlays::overlay_of))]
    pub fn new(system: &'a Dict, users: &'a [Dict]) -> Result<Dictionaries<'a>, OverlayFault>
        ensures overlay { IfOk result (λ d. overlay_of d
            ≡ overlay_by_default system.now users.now) }
        ensures accepted { OnOk result (fault_of_images system.now users.now ≡ None) }
        ensures fitting { OnOk result
            (IsOverlay (image_tables system.now) (map image_tables users.now)) }
        ensures rejected { IfErr result (λ fault. fault_of_images system.now users.now
            ≡ Some fault) }
    {
        if system.is_user() {
            return Err(OverlayFault::NotSystem);
        }
        check_users(users, system.matrix_sizes())?;
        Ok(Dictionaries::over(system, users))
    }

    /// Lays user dictionaries over a system dictionary. They were checked before and are not
    /// checked again.
    #[tactic(auto, unfolding(crate::specs::Overlays::overlay_of))]
    pub fn over(system: &'a Dict, users: &'a [Dict]) -> Dictionaries<'a>
        requires { IsOverlay (image_tables system.now) (map image_tables users.now) }
        ensures { overlay_of result ≡ overlay_by_default system.now users.now }
    {
        Dictionaries {
            system,
            users,
            grouping: GROUPING_DEFAULT,
            space: system.info(' '),
        }
    }

    /// Returns these dictionaries with another grouping, of at most 1,000 characters.
    #[tactic(auto, unfolding(crate::specs::Overlays::overlay_of))]
    pub fn with_grouping(self, grouping: u16) -> Dictionaries<'a>
        requires { grouping ≤ 1000 }
        ensures { overlay_of result ≡ record (overlay_of self.entry) { grouping = grouping } }
    {
        Dictionaries {
            system: self.system,
            users: self.users,
            grouping,
            space: self.space,
        }
    }

    /// Returns the feature of a word's entry, or an empty string if no entry has its number.
    #[tactic(auto, unfolding(crate::specs::Overlays::overlay_of))]
    pub fn feature(&self, word: &Word) -> &str
        ensures { result.now ≡ feature_of (overlay_of self.now) word.now.origin }
    {
        self.entry_of(word.origin).map_or("", |entry| entry.feature)
    }

    /// Returns the entry that a word comes from.
    fn entry_of(&self, origin: Origin) -> Option<EntryRef<'_>>
        ensures { feature_in_entry result ≡ feature_of (overlay_of self.now) origin }
    {
        match origin {
            Origin::Known { dict, token } => self.dictionary(dict)?.known_token(token),
            Origin::Unknown { token } => self.system.unknown_token(token),
        }
    }

    /// Returns dictionary `number`: the system dictionary is 0, and user dictionaries follow.
    #[tactic(auto, unfolding(crate::specs::Overlays::overlay_of))]
    fn dictionary(&self, number: usize) -> Option<&Dict>
        ensures { lexicon_in result ≡ slice_index_or (lexicons (overlay_of self.now)) number [] }
    {
        if number == 0 {
            Some(self.system)
        } else {
            self.users.get(number - 1)
        }
    }

    /// Returns dictionary `number`, which must exist.
    #[tactic(auto, unfolding(crate::specs::Overlays::overlay_of))]
    #[inline(always)]
    pub(crate) fn numbered(&self, number: usize) -> &'a Dict
        requires { number ≤ length self.now.users.now }
        ensures tables { slice_get (all_tables (overlay_of self.now)) number
            ≡ Some (image_tables result.now) }
        ensures fits { AreFitting (image_tables result.now) }
    {
        if number == 0 {
            self.system
        } else {
            &self.users[number - 1]
        }
    }

    /// Returns the connection cost of a word with right id `prev_right` and a following word with
    /// left id `next_left`.
    #[tactic(auto, unfolding(crate::specs::Overlays::overlay_of))]
    pub fn cost(&self, prev_right: u16, next_left: u16) -> i16
        requires { IsTrue (is_pair (overlay_of self.now).system.sizes prev_right next_left) }
        ensures { result ≡ (overlay_of self.now).system.connection prev_right next_left }
    {
        self.system.cost(prev_right, next_left)
    }

    /// Returns the connection costs before words with left id `left`. Their location is looked up
    /// once for all right ids.
    #[tactic(auto, unfolding(crate::specs::Overlays::overlay_of))]
    #[inline(always)]
    pub fn costs_before(&self, left: u16) -> CostsBefore<'a>
        requires { left < (overlay_of self.now).system.sizes.left }
        ensures { AreCostsBefore (overlay_of self.now).system left result }
    {
        self.system.costs_before(left)
    }

    /// Returns the categories of a character.
    #[tactic(auto, unfolding(crate::specs::Overlays::overlay_of))]
    pub fn info(&self, c: char) -> CharInfo
        ensures { result ≡ (overlay_of self.now).system.info c }
    {
        self.system.info(c)
    }
}
