//! Allocation failures of formats and of output.
//!
//! Allocations fail under `tests/out_of_memory/run.py`, which expects the line `refused` on
//! standard error.

use dict_image::Dict;
use lattice::best_path;
use mj_model::{SENTENCE_MAX, sample};
use out_format::{Format, print};
use std::alloc::Global;
use std::io::Eprint;
use std::process::Abort;
use std::test::Fail;
use test_support::again;
use test_support::samples::{dict_again, letters_again};
use word_lookup::Dictionaries;

/// The sample's line with blanks.
const SPACED: &str = " すもも  もも ";

/// Parses the format of the texts `node` and `eos`, with one retry.
fn format_again(
    rt: &(impl Alloc<A = Global> + Eprint),
    node: &str,
    eos: &str,
) -> Result<Format, Fail> {
    Ok(again!(rt, Err(_), Format::parse(rt.alloc(), node, None, "", eos))?)
}

/// Returns the default format, with one retry.
fn tabs_again(rt: &(impl Alloc<A = Global> + Eprint)) -> Result<Format, Fail> {
    Ok(again!(rt, Err(_), Format::default_of(rt.alloc()))?)
}

fn wakati_again(rt: &(impl Alloc<A = Global> + Eprint)) -> Result<Format, Fail> {
    Ok(again!(rt, Err(_), Format::wakati(rt.alloc()))?)
}

/// Appends the output for the best path of `text` to other bytes, with one retry. An allocation
/// failure must keep the other bytes alone.
fn expect_print(
    rt: &(impl Abort + Alloc<A = Global> + Eprint),
    format: &Format,
    dict: &Dict,
    text: &str,
    printed: &str,
) -> Result<(), Fail> {
    assert!(rt; text.len() <= SENTENCE_MAX);
    let dictionaries = Dictionaries::new(dict, &[])?;
    let mut out = again!(rt, Err(_), Vec::from_slice(rt.alloc(), b">"))?;
    let Ok(path) = best_path(rt.alloc(), &dictionaries, text) else {
        rt.eprintln("refused")?;
        return Ok(());
    };
    if print(rt.alloc(), format, &dictionaries, text, &path, &mut out).is_err() {
        rt.eprintln("refused")?;
        assert!(rt; out.as_slice() == b">".as_slice(), "{printed}");
        print(rt.alloc(), format, &dictionaries, text, &path, &mut out)?;
    }
    assert!(rt;
        out.strip_prefix(b">") == Some(printed.as_bytes()),
        "{printed}"
    );
    Ok(())
}

/// The format of a test case.
#[derive(Clone, Copy)]
enum TestFormat {
    /// A format of the texts of node and of eos.
    Texts(&'static str, &'static str),
    Tabs,
    Wakati,
}

fn test_format_again(
    rt: &(impl Alloc<A = Global> + Eprint),
    requested: TestFormat,
) -> Result<Format, Fail> {
    match requested {
        TestFormat::Texts(node, eos) => format_again(rt, node, eos),
        TestFormat::Tabs => tabs_again(rt),
        TestFormat::Wakati => wakati_again(rt),
    }
}

/// Appends the output for the best path of `text` in the format `requested`, with one retry.
fn expect_format(
    rt: &(impl Abort + Alloc<A = Global> + Eprint),
    requested: TestFormat,
    dict: &Dict,
    text: &str,
    printed: &str,
) -> Result<(), Fail> {
    let format = test_format_again(rt, requested)?;
    expect_print(rt, &format, dict, text, printed)
}

#[test]
fn formats_out_of_memory(rt: HostRuntime) -> Result<(), Fail> {
    const COSTS: TestFormat = TestFormat::Texts("%m/%f[0]/%c/%pn/%pc\\s", "%pc\\n");
    const PLACES: TestFormat = TestFormat::Texts("%M|%ps|%pe|%pl|%pL|%pS;", "%L\\n");
    let dict = dict_again(&rt, sample().lexicons)?;
    let letters = letters_again(&rt)?;
    #[rattlefmt::skip]
    let rows: [(TestFormat, &Dict, &str, &str); 6] = [
        // (format, dictionary, text, output)
        (COSTS,              &dict,    "すもももも", "すもも/名詞/100/110/110 もも/名詞/30/37/147 152\n"),
        (TestFormat::Tabs,   &dict,    "すもももも", "すもも\t名詞,すもも\nもも\t名詞,もも\nEOS\n"),
        (TestFormat::Wakati, &dict,    "すもももも", "すもも もも \n"),
        (TestFormat::Wakati, &dict,    SPACED,       "すもも もも \n"),
        (PLACES,             &dict,    SPACED,       " すもも|1|10|9|10| ;  もも|12|18|6|8|  ;19\n"),
        (TestFormat::Tabs,   &letters, "ab",         "a\tX\nb\tX\nEOS\n"),
    ];
    for (requested, dict, text, printed) in rows {
        expect_format(&rt, requested, dict, text, printed)?;
    }
    Ok(())
}
