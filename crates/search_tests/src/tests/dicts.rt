//! The sample's dictionary with changes.

use dict_image::Dict;
use mj_model::{Sources, sample};
use std::alloc::Global;
use std::test::Fail;
use test_support::samples::{system, system_dict};

/// A further line of `char.def`, and a lexicon in place of the sample's.
pub type Changes<'a> = (&'a str, Option<&'a str>);

/// Returns the sample's dictionary with these changes.
pub fn sample_with(alloc: Global, (line, lexicon): Changes<'_>) -> Result<Dict, Fail> {
    match lexicon {
        Some(lexicon) => system(alloc, line, &[lexicon.as_bytes()]),
        None => system(alloc, line, sample().lexicons),
    }
}

/// Returns a dictionary with two right ids and three left ids.
pub fn asymmetric(alloc: Global) -> Result<Dict, Fail> {
    let sources = Sources {
        matrix: b"2 3\n0 2 100\n1 0 9\n",
        lexicons: &["も,2,1,20,X\n".as_bytes()],
        ..sample()
    };
    system_dict(alloc, &sources)
}
