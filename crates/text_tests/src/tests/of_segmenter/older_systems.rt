//! User dictionaries compiled for system dictionaries in layouts 1 and 2.

use dict_compile::{CompileUserFault, compile_user};
use mj_model::{Sources, sample};
use std::alloc::Global;
use std::process::Abort;
use std::test::Fail;
use test_support::samples::{SURFACES, image, in_layout, loaded, loaded_in, user_image};

/// The user image of layout 1 of the line `もも,1,1,1,X`, for 2 right ids and 2 left ids.
const FIRST_LAYOUT: [u8; 137] =
    *b"MJDICT\r\n\x01\0\0\0\x01\0\0\0\x02\0\0\0\x02\0\0\0\0\0\0\0\x01\0\0\0\x01\0\0\0\0\0\0\0\
    \0\0\0\0\0\0\0\0\0\0\0\0\0\0\0\0\0\0\0\0\0\0\0\0\0\0\0\0\0\0\0\0\
    \x08\0\0\0\0\0\0\0\x08\0\0\0\0\0\0\0\x10\0\0\0\0\0\0\0\x01\0\0\0\0\0\0\0\
    \x06\0\xe3\x82\x82\xe3\x82\x82\0\0\0\0\x01\0\0\0\x01\0\x01\0\x01\0\0\0\0\0\0\0\x01\0\0\0X";

/// Returns the image of the user lexicon `lexicon` for the dictionary of `sources` in layout
/// `layout`.
fn image_for(
    alloc: Global,
    sources: &Sources<'_>,
    layout: u32,
    lexicon: &str,
) -> Result<Vec<u8>, Fail> {
    let of_sources = image(alloc, sources)?;
    let system = loaded_in(alloc, layout, &of_sources, SURFACES)?;
    user_image(alloc, &system, lexicon)
}

/// Checks that the user image does not depend on the layout of the system image.
fn expect_same_user(
    rt: &(impl Abort + Alloc<A = Global>),
    matrix: &[u8],
    layout: u32,
) -> Result<(), Fail> {
    let lexicon = "もも,1,1,1,名詞,ユーザ\n";
    let sources = Sources { matrix, ..sample() };
    let for_older = image_for(rt.alloc(), &sources, layout, lexicon)?;
    let for_newest = image_for(rt.alloc(), &sources, 3, lexicon)?;
    assert!(rt;
        for_older.get(8..12) == Some(b"\x03\0\0\0".as_slice()),
        "{layout}"
    );
    assert!(rt; for_older.as_slice() == for_newest.as_slice(), "{layout}");
    Ok(())
}

#[test]
fn users_for_older_systems(rt: HostRuntime) -> Result<(), Fail> {
    for layout in [1, 2] {
        expect_same_user(&rt, sample().matrix, layout)?;
        expect_same_user(&rt, b"2 3\n", layout)?;
    }
    Ok(())
}

/// The line of `FIRST_LAYOUT`.
const LINE: &str = "もも,1,1,1,X\n";

/// Returns the image of `LINE` in layout 1.
fn first_layout(alloc: Global) -> Result<Vec<u8>, Fail> {
    let compiled = image_for(alloc, &sample(), 3, LINE)?;
    Ok(in_layout(alloc, &compiled, 1, &["もも"])?)
}

/// Returns the error of compiling a user dictionary for the user image `image`.
fn rejected_for(alloc: Global, image: Vec<u8>) -> Result<Option<CompileUserFault>, Fail> {
    let user = loaded(alloc, image)?;
    Ok(compile_user(alloc, &user, &[LINE.as_bytes()]).err())
}

#[test]
fn a_user_image_of_layout_1(rt: HostRuntime) -> Result<(), Fail> {
    let made = first_layout(rt.alloc())?;
    assert!(rt; made.as_slice() == FIRST_LAYOUT.as_slice());
    let fault = rejected_for(rt.alloc(), made)?;
    assert_eq!(rt; fault, Some(CompileUserFault::NotSystem));
    Ok(())
}
