//! Texts and their output, over the sample and over other sources.

use mj_model::{RunFault, SourceFault, SourceKind, Sources, sample};
use std::alloc::{AllocError, Global};
use std::process::Abort;
use std::test::Fail;
use test_support::samples::{chars_with, run};

/// Checks the result and the output of a run over `sources`.
fn expect_output(
    rt: &(impl Abort + Alloc<A = Global>),
    what: &str,
    sources: &Sources<'_>,
    text: &str,
    expected: Result<u64, RunFault>,
    output: &str,
) {
    let outcome = run(rt.alloc(), sources, &[], text.as_bytes());
    assert!(rt; outcome.returned == expected, "{what}");
    assert!(rt; outcome.written.as_slice() == output.as_bytes(), "{what}");
}

const WIDE: &str = "\u{3000}すもも\u{3000}\n";

const WIDE_WORDS: &str = "\u{3000}\t未知\nすもも\t名詞,すもも\n\u{3000}\t未知\nEOS\n";

const WITH_X: &str = "すもも\t名詞,すもも\nも\t助詞,も\nx\t未知\nEOS\n";

#[rattlefmt::skip]
static SAMPLE_LINES: [(&str, &str, Result<u64, RunFault>, &str); 11] = [
    // (what, text, result, output)
    ("sumomo", "すもももも\n", Ok(1), "すもも\t名詞,すもも\nもも\t名詞,もも\nEOS\n"),
    ("empty input", "", Ok(0), ""),
    ("empty line", "\n", Ok(1), "EOS\n"),
    ("last line without LF", "も", Ok(1), "も\t助詞,も\nEOS\n"),
    ("only_blanks", "   \n", Ok(1), "EOS\n"),
    ("blanks between words", " すもも  もも \n", Ok(1), "すもも\t名詞,すもも\nもも\t名詞,もも\nEOS\n"),
    ("two lines", "も\nもも", Ok(2), "も\t助詞,も\nEOS\nもも\t名詞,もも\nEOS\n"),
    ("an unknown word on line 2", "も\nx\n", Ok(2), "も\t助詞,も\nEOS\nx\t未知\nEOS\n"),
    ("an unknown word after known ones", "すもももx\n", Ok(1), WITH_X),
    ("an ideographic space is a character", WIDE, Ok(1), WIDE_WORDS),
    ("tokyo_tie", "東京都\n", Ok(1), "東京\t未知\n都\t未知\nEOS\n"),
];

#[test]
fn sample_lines(rt: HostRuntime) {
    for (what, text, expected, output) in &SAMPLE_LINES {
        expect_output(&rt, what, &sample(), text, *expected, output);
    }
}

#[rattlefmt::skip]
static LEXICONS: [(&str, &str, &str, &str); 6] = [
    // (what, lexicon, text, output)
    ("tie_later_place", "a,1,1,10,X\nb,1,1,10,X\nab,1,1,27,X\n", "ab", "a\tX\nb\tX\nEOS\n"),
    ("same_surface_twice", "a,1,1,10,X\na,1,1,10,Y\n", "a", "a\tX\nEOS\n"),
    ("ends_later", "も,1,1,20,助詞,も\nも ,1,1,500,Z\n", "も ", "も \tZ\nEOS\n"),
    ("quoted_fields", "\"a,b\",1,1,10,X\n", "a,b", "a,b\tX\nEOS\n"),
    ("quote in a surface", "\"a\"\"b\",1,1,10,Y\n", "a\"b", "a\"b\tY\nEOS\n"),
    ("lexicon_lines", "\n,1,1,5,X\nも,1,1,20,Y\r\n", "も", "も\tY\nEOS\n"),
];

#[test]
fn lexicons(rt: HostRuntime) {
    for (what, lexicon, text, output) in &LEXICONS {
        let sources = Sources {
            lexicons: &[lexicon.as_bytes()],
            ..sample()
        };
        expect_output(&rt, what, &sources, text, Ok(1), output);
    }
}

/// Checks the output of a run over the sample with `further` appended to `char.def`.
fn expect_output_of_chars(
    rt: &(impl Abort + Alloc<A = Global>),
    what: &str,
    further: &str,
    text: &str,
    output: &str,
) -> Result<(), AllocError> {
    let chars = chars_with(rt.alloc(), further)?;
    let sources = Sources {
        chars: &chars,
        ..sample()
    };
    expect_output(rt, what, &sources, text, Ok(1), output);
    Ok(())
}

#[rattlefmt::skip]
static BLANKS_OF_OTHER_KINDS: [(&str, &str, &str, &str); 2] = [
    // (what, further line of char.def, text, output)
    ("an ideographic space", "0x3000 SPACE\n", "\u{3000}すもも\u{3000}\n", "すもも\t名詞,すもも\nEOS\n"),
    ("the chain goes on over z", "0x0009 SPACE ALPHA\n", "\tzも\n", "も\t助詞,も\nEOS\n"),
];

#[test]
fn blanks_of_other_kinds(rt: HostRuntime) -> Result<(), Fail> {
    for (what, further, text, output) in &BLANKS_OF_OTHER_KINDS {
        expect_output_of_chars(&rt, what, further, text, output)?;
    }
    Ok(())
}

#[rattlefmt::skip]
static ACCEPTED_COSTS: [(&str, &str, &str); 3] = [
    // (what, matrix, lexicon)
    ("least cost", "2 2\n", "も,1,1,-32768,X\n"),
    ("negative connection", "2 2\n0 0 -434\n", "も,1,1,20,X\n"),
    ("asymmetric ids", "2 3\n0 2 100\n1 0 9\n", "も,2,1,20,X\n"),
];

#[test]
fn accepted_costs(rt: HostRuntime) {
    for (what, matrix, lexicon) in &ACCEPTED_COSTS {
        let sources = Sources {
            matrix: matrix.as_bytes(),
            lexicons: &[lexicon.as_bytes()],
            ..sample()
        };
        expect_output(&rt, what, &sources, "も\n", Ok(1), "も\tX\nEOS\n");
    }
}

#[test]
fn lexicons_in_the_order_given(rt: HostRuntime) {
    let first = "も,1,1,20,A\n";
    let second = "も,1,1,20,B\nもも,1,1,30,C\n";
    let sources = Sources {
        lexicons: &[first.as_bytes(), second.as_bytes()],
        ..sample()
    };
    let output = "も\tA\nEOS\nもも\tC\nEOS\n";
    expect_output(&rt, "accepted", &sources, "も\nもも\n", Ok(2), output);
    let bad = "も,1,1,20\n";
    let sources = Sources {
        lexicons: &[first.as_bytes(), bad.as_bytes()],
        ..sources
    };
    let fault = SourceFault {
        file: 4,
        line: 1,
        kind: SourceKind::TooFewFields,
    };
    let outcome = run(rt.alloc(), &sources, &[], b"");
    assert!(rt; outcome.is_rejection(RunFault::Source(fault)));
}
