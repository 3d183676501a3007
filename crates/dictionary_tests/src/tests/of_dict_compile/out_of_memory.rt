//! Allocation failures.
//!
//! Allocations fail under `tests/out_of_memory/run.py`, which expects the line `refused` on
//! standard error.
use crate::tests::samples::{Expected, NONE, are_entries, compiled_of, dict_of, user_of};
use dict_compile::{CompileUserFault, Compiled};
use dict_image::Dict;
use mj_model::SourceKind::Memory;
use mj_model::{ImageFault, SourceFault, sample};
use std::process::Abort;
use std::test::Fail;
use test_support::again;

/// Compiles a user dictionary for `system`, or the sample if there is none.
fn compiled(rt: &HostRuntime, system: Option<&Dict>) -> Result<Compiled, CompileUserFault> {
    match system {
        None => Ok(compiled_of(rt.alloc(), &sample())?),
        Some(system) => user_of(rt.alloc(), system, &["もも,1,1,1,X\n".as_bytes()]),
    }
}

/// Compiles a user dictionary for `system`, or the sample if there is none, with one retry.
fn compiled_again(rt: &HostRuntime, system: Option<&Dict>) -> Result<Compiled, Fail> {
    Ok(again!(
        rt,
        Err(CompileUserFault::Source(SourceFault { kind: Memory, .. })),
        compiled(rt, system)
    )?)
}

/// Compiles and loads a dictionary, with one retry. A failed load drops the image, so the retry
/// compiles again.
fn dict_again(rt: &HostRuntime, system: Option<&Dict>) -> Result<Dict, Fail> {
    Ok(again!(
        rt,
        Err(ImageFault::Memory),
        dict_of(rt.alloc(), compiled_again(rt, system)?.image)
    )?)
}

/// Keys of the sample's dictionary and their entries.
#[rattlefmt::skip]
static ENTRIES: [(&str, &[Expected]); 3] = [
    // (key, its entries)
    ("すもも", &[(0, 1, 1, 100, "名詞,すもも")]),
    ("も",     &[(1, 1, 1, 20, "助詞,も")]),
    ("もも",   &[(2, 1, 1, 30, "名詞,もも")]),
];

/// Checks the entries of the sample's dictionary.
fn expect_entries(rt: &impl Abort, dict: &Dict) {
    assert!(rt; !dict.is_user());
    for (key, entries) in &ENTRIES {
        assert!(rt; are_entries(dict, key, entries), "{key}");
    }
}

#[test]
fn system_dictionary_out_of_memory(rt: HostRuntime) -> Result<(), Fail> {
    expect_entries(&rt, &dict_again(&rt, None)?);
    Ok(())
}

/// Returns the number of entries and of skipped lines of a user dictionary for `system`.
fn user_counts(rt: &HostRuntime, system: &Dict) -> Result<(u64, u128), Fail> {
    let compiled = compiled_again(rt, Some(system))?;
    Ok((compiled.entries, compiled.skipped))
}

/// Returns whether the user dictionary for `system` has its only entry.
fn has_user(rt: &HostRuntime, system: &Dict) -> Result<bool, Fail> {
    let user = dict_again(rt, Some(system))?;
    let has_one = are_entries(&user, "もも", &[(0, 1, 1, 1, "X")]);
    Ok(user.is_user() && has_one && are_entries(&user, "も", NONE))
}

#[test]
fn user_dictionary_out_of_memory(rt: HostRuntime) -> Result<(), Fail> {
    let system = dict_again(&rt, None)?;
    assert!(rt; user_counts(&rt, &system)? == (1, 0));
    assert!(rt; has_user(&rt, &system)?);
    assert!(rt; are_entries(&system, "もも", &[(2, 1, 1, 30, "名詞,もも")]));
    Ok(())
}
