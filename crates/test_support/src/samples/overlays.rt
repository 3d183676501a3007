//! Dictionaries over a system dictionary, for tests that need no contracts about their contents.

use crate::samples::rejected::{dict_again, letters_again};
use dict_image::Dict;
use mj_model::{OverlayFault, sample};
use std::alloc::{Alloc, Global};
use std::io::Eprint;
use std::test::Fail;
use word_lookup::Dictionaries;

/// Combines `system` with the user dictionaries `users`.
pub fn overlay<'a>(system: &'a Dict, users: &'a [Dict]) -> Result<Dictionaries<'a>, OverlayFault> {
    Dictionaries::new(system, users)
}

/// The dictionary that a test case uses.
#[derive(Clone, Copy)]
pub enum TestDictionary {
    Sample,
    Letters,
}

/// The sample's dictionary, and a dictionary of the words `a`, `b` and `ab`.
#[derive(Drop)]
pub struct TwoDicts {
    sample: Dict,
    letters: Dict,
}

impl TwoDicts {
    /// Loads both, with one retry each.
    pub fn again(rt: &(impl Alloc<A = Global> + Eprint)) -> Result<TwoDicts, Fail> {
        let sample = dict_again(rt, sample().lexicons)?;
        let letters = letters_again(rt)?;
        Ok(TwoDicts { sample, letters })
    }

    /// Returns the dictionary that a test case names.
    pub fn of(&self, requested: TestDictionary) -> &Dict {
        match requested {
            TestDictionary::Sample => &self.sample,
            TestDictionary::Letters => &self.letters,
        }
    }
}
