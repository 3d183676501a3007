//! The cache of connection costs between the ids of a text's words.

ghost use Rattle.std.specs.Prelude.{IfOk};
ghost use Rattle.dict_image.specs.ContextIds.{AreOfSizes};

use crate::tests::dicts::asymmetric;
use crate::tests::of_lattice::sample_paths::{path_over, sums_of};
use dict_image::{ContextIds, Dict, NUMBERED_MAX, NumberedIds};
use mj_model::MatrixSizes;
use std::alloc::Global;
use std::test::Fail;
use test_support::samples::{overlay, system};

/// Returns the ids of the words of `text`, found with a dictionary of these sizes.
fn ids_of(alloc: Global, dict: &Dict, sizes: MatrixSizes, text: &str) -> Result<ContextIds, Fail>
    ensures { IfOk result (AreOfSizes sizes) }
{
    let mut ids = ContextIds::new(alloc, sizes)?;
    overlay(dict, &[])?.collect_context_ids(alloc, text, &mut ids)?;
    Ok(ids)
}

#[rattlefmt::skip]
static TEXTS: [(&str, &[u16], &[u16]); 6] = [
    // (text, the left ids of its words, their right ids)
    ("",      &[],     &[]),
    ("も",    &[2],    &[1]),
    ("ア",    &[1],    &[1]),
    ("アも",  &[1, 2], &[1]),
    ("もア",  &[2, 1], &[1]),
    ("も も", &[2],    &[1]),
];

#[test]
fn ids_of_texts(rt: HostRuntime) -> Result<(), Fail> {
    let dict = asymmetric(rt.alloc())?;
    for (text, lefts, rights) in &TEXTS {
        let ids = ids_of(rt.alloc(), &dict, dict.matrix_sizes(), text)?;
        assert_eq!(rt; ids.lefts.ids(), *lefts, "{text}");
        assert_eq!(rt; ids.rights.ids(), *rights, "{text}");
    }
    Ok(())
}

/// Returns how many words of `text` are collected if the lexicon has a word `count` times.
fn collected_count(alloc: Global, count: usize, text: &str) -> Result<usize, Fail> {
    let mut lexicon = Vec::new(alloc);
    for _line in 0..count {
        lexicon.extend_from_slice("も,1,1,20,X\n".as_bytes())?;
    }
    let dict = system(alloc, "", &[lexicon.as_slice()])?;
    let mut ids = ContextIds::new(alloc, dict.matrix_sizes())?;
    Ok(overlay(&dict, &[])?.collect_context_ids(alloc, text, &mut ids)?)
}

#[rattlefmt::skip]
static COLLECTED_WORDS: [(&str, usize, &str, usize); 5] = [
    // (what, how often the lexicon has a word, text, how many words are collected)
    ("no text",                    3,    "",       0),
    ("all at each place",          3,    "ももも", 9),
    ("as many as may be",          128,  "もも",   256),
    ("one more",                   129,  "もも",   256),
    ("many more",                  2000, "もも",   256),
];

#[test]
fn collected_words(rt: HostRuntime) -> Result<(), Fail> {
    for (what, count, text, expected) in &COLLECTED_WORDS {
        assert_eq!(rt;
            collected_count(rt.alloc(), *count, text)?,
            *expected,
            "{what}"
        );
    }
    Ok(())
}

/// Returns the total cost of the best path of `もも` and the number of its words, after the costs
/// between the ids of `text` were cached.
fn sums_near(alloc: Global, text: &str) -> Result<Option<(i64, usize)>, Fail> {
    let mut dict = asymmetric(alloc)?;
    if dict.is_user() {
        return Ok(None);
    }
    let sizes = dict.matrix_sizes();
    let ids = ids_of(alloc, &dict, sizes, text)?;
    dict.cache_costs(alloc, ids)?;
    let path = path_over(alloc, &overlay(&dict, &[])?, "もも")?;
    Ok(sums_of(&path))
}

#[test]
fn costs_stay(rt: HostRuntime) -> Result<(), Fail> {
    for (text, _lefts, _rights) in &TEXTS {
        assert!(rt; sums_near(rt.alloc(), text)? == Some((149, 2)), "{text}");
    }
    Ok(())
}

#[test]
fn few_costs_are_not_far(rt: HostRuntime) -> Result<(), Fail> {
    assert!(rt; !asymmetric(rt.alloc())?.is_large_matrix());
    Ok(())
}

#[rattlefmt::skip]
static COLLECTED_IDS: [(&str, u32, &[u16], &[u16]); 4] = [
    // (what, the number of ids, the ids that are added, the ids in the order of their numbers)
    ("none",          3, &[],              &[]),
    ("each once",     3, &[2, 0, 2, 0],    &[2, 0]),
    ("beyond a size", 3, &[3, 1, 65_535],  &[1]),
    ("of no ids",     0, &[0],             &[]),
];

#[test]
fn collected_ids(rt: HostRuntime) -> Result<(), Fail> {
    for (what, size, added, expected) in &COLLECTED_IDS {
        let mut ids = NumberedIds::new(rt.alloc(), *size)?;
        for id in *added {
            ids.add(*id)?;
        }
        assert_eq!(rt; ids.ids(), *expected, "{what}");
    }
    Ok(())
}

#[test]
fn no_more_numbers_than_may_be(rt: HostRuntime) -> Result<(), Fail> {
    let mut ids = NumberedIds::new(rt.alloc(), 3_000)?;
    for id in 0..3_000 {
        ids.add(id)?;
    }
    assert_eq!(rt; ids.ids().len(), NUMBERED_MAX);
    Ok(())
}
