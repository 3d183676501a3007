//! User dictionaries over the sample.

use dict_compile::compile_user;
use dict_image::Dict;
use mj_model::{RunFault, SourceFault, SourceKind, Sources, sample};
use out_format::Format;
use std::alloc::Global;
use std::process::Abort;
use std::test::Fail;
use test_support::samples::{loaded, overlay, run, run_in, segment_text, system_dict};

const USER: &str = "もも,1,1,1,名詞,ユーザ\n";

const MOMO: &str = "もも\n";

/// Checks the output of a run with user dictionaries in `format`.
fn expect_output(
    rt: &(impl Abort + Alloc<A = Global>),
    what: &str,
    format: &Format,
    users: &[&[&[u8]]],
    output: &str,
) {
    let outcome = run_in(rt.alloc(), format, &sample(), users, MOMO.as_bytes());
    assert!(rt; outcome.returned == Ok(1), "{what}");
    assert!(rt; outcome.written.as_slice() == output.as_bytes(), "{what}");
}

#[test]
fn users_words(rt: HostRuntime) -> Result<(), Fail> {
    let format = Format::default_of(rt.alloc())?;
    let user = USER.as_bytes();
    let cheap = "もも,1,1,1,A\n".as_bytes();
    let same = "もも,1,1,1,B\n".as_bytes();
    let dear = "もも,1,1,3000,C\n".as_bytes();
    let of_system = "もも\t名詞,もも\nEOS\n";
    let of_user = "もも\t名詞,ユーザ\nEOS\n";
    let a = "もも\tA\nEOS\n";
    let b = "もも\tB\nEOS\n";
    expect_output(&rt, "no user", &format, &[], of_system);
    expect_output(&rt, "user_dictionary", &format, &[&[user]], of_user);
    expect_output(&rt, "two users tie", &format, &[&[cheap], &[same]], a);
    expect_output(&rt, "tie the other way", &format, &[&[same], &[cheap]], b);
    expect_output(&rt, "a dear word", &format, &[&[dear]], of_system);
    expect_output(&rt, "two lexicons", &format, &[&[dear, user]], of_user);
    Ok(())
}

#[test]
fn costs_of_users_words(rt: HostRuntime) -> Result<(), Fail> {
    let format = Format::parse(rt.alloc(), "%m/%f[1]/%pc ", None, "", "%pc\\n")?;
    let user = USER.as_bytes();
    let same = "もも,1,1,1,名詞,B\n".as_bytes();
    let output = "もも/ユーザ/11 16\n";
    expect_output(&rt, "user_dictionary", &format, &[&[user]], output);
    expect_output(&rt, "equal users", &format, &[&[user], &[user]], output);
    expect_output(&rt, "two users tie", &format, &[&[user], &[same]], output);
    Ok(())
}

/// Checks that a run fails with an error in line 1 of a lexicon of user dictionary `user`, before
/// it reads or writes.
fn expect_rejection(
    rt: &(impl Abort + Alloc<A = Global>),
    what: &str,
    users: &[&[&[u8]]],
    user: usize,
    file: u32,
    kind: SourceKind,
) {
    let outcome = run(rt.alloc(), &sample(), users, MOMO.as_bytes());
    let fault = SourceFault {
        file,
        line: 1,
        kind,
    };
    assert!(rt;
        outcome.is_rejection(RunFault::UserSource(user, fault)),
        "{what}"
    );
}

#[test]
fn invalid_users(rt: HostRuntime) {
    let user = USER.as_bytes();
    let bad = "も,1,1,x,Z\n".as_bytes();
    let outside = "も,2,1,5,Z\n".as_bytes();
    let number = SourceKind::BadNumber;
    let id = SourceKind::IdOutside;
    expect_rejection(&rt, "the second user", &[&[user], &[bad]], 1, 3, number);
    expect_rejection(&rt, "both users", &[&[outside], &[bad]], 0, 3, id);
    expect_rejection(
        &rt,
        "a user's second lexicon",
        &[&[user, bad]],
        0,
        4,
        number,
    );
    expect_rejection(&rt, "an id outside", &[&[outside]], 0, 3, id);
}

#[test]
fn sources_before_users(rt: HostRuntime) {
    let sources = Sources {
        lexicons: &[b"a,1,1\n"],
        ..sample()
    };
    let users: [&[&[u8]]; 1] = [&["も,1,1,x,Z\n".as_bytes()]];
    let outcome = run(rt.alloc(), &sources, &users, MOMO.as_bytes());
    let fault = SourceFault {
        file: 3,
        line: 1,
        kind: SourceKind::TooFewFields,
    };
    assert!(rt; outcome.is_rejection(RunFault::Source(fault)));
}

/// Checks the output of a run over loaded dictionaries in `format`.
fn expect_segmented(
    rt: &(impl Abort + Alloc<A = Global>),
    what: &str,
    (system, users): (&Dict, &[Dict]),
    format: &Format,
    output: &str,
) -> Result<(), Fail> {
    let dictionaries = overlay(system, users)?;
    let mut written = Vec::new(rt.alloc());
    let text = "すもももも\n".as_bytes();
    let got = segment_text(rt.alloc(), &dictionaries, format, text, &mut written);
    assert!(rt; got == Ok(1), "{what}");
    assert!(rt; written.as_slice() == output.as_bytes(), "{what}");
    Ok(())
}

/// Returns a user dictionary of one entry.
fn one_user(rt: &(impl Abort + Alloc<A = Global>), system: &Dict) -> Result<[Dict; 1], Fail> {
    let compiled = compile_user(rt.alloc(), system, &[USER.as_bytes()])?;
    assert_eq!(rt; compiled.entries, 1);
    Ok([loaded(rt.alloc(), compiled.image)?])
}

#[test]
fn segment_over_images(rt: HostRuntime) -> Result<(), Fail> {
    let words = Format::default_of(rt.alloc())?;
    let costs = Format::parse(rt.alloc(), "%m/%f[1]/%pc ", None, "", "%pc\\n")?;
    let system = system_dict(rt.alloc(), &sample())?;
    let output = "すもも\t名詞,すもも\nもも\t名詞,もも\nEOS\n";
    expect_segmented(&rt, "sumomo", (&system, &[]), &words, output)?;
    let output = "すもも/すもも/110 もも/もも/147 152\n";
    expect_segmented(&rt, "costs of sumomo", (&system, &[]), &costs, output)?;
    let users = one_user(&rt, &system)?;
    let output = "すもも/すもも/110 もも/ユーザ/118 123\n";
    expect_segmented(&rt, "with a user", (&system, &users), &costs, output)
}
