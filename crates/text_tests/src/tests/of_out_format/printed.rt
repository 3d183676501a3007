//! Lines printed in formats.

use lattice::best_path;
use mj_model::{SENTENCE_MAX, Sources, sample};
use out_format::{Format, print};
use std::alloc::Global;
use std::process::Abort;
use std::test::Fail;
use test_support::samples::{Outcome, chars_with, letters, run_in, system_dict};
use word_lookup::Dictionaries;

/// Segments `text` with the sample's sources.
fn printed(alloc: Global, format: &Format, text: &str) -> Outcome {
    run_in(alloc, format, &sample(), &[], text.as_bytes())
}

/// Prints the costs of each word.
const COSTS: &str = "%m/%f[0]/%c/%pn/%pc\\s";

const COSTS_OF_SUMOMO: &str = "すもも/名詞/100/110/110 もも/名詞/30/37/147 152\n";

/// Prints the position of each word, with its blanks.
const PLACES: &str = "%M|%ps|%pe|%pl|%pL|%pS;";

const SPACED: &str = " すもも  もも \n";

const PLACES_OF_SPACED: &str = " すもも|1|10|9|10| ;  もも|12|18|6|8|  ;19\n";

const MARK: &str = "0x30FC KATAKANA HIRAGANA\n";

const IDS: &str = "1,1,10;1,1,7;EOS\n";

/// A line of `char.def`, and the texts of node, unk, bos and eos.
type Texts = (
    &'static str,
    &'static str,
    Option<&'static str>,
    &'static str,
    &'static str,
);

/// A label, a line of `char.def` with the texts of a format, a text and its output.
type Row = (&'static str, Texts, &'static str, &'static str);

/// Runs over `text` in a format, with a further line of `char.def`.
fn run_of(alloc: Global, (line, node, unk, bos, eos): Texts, text: &str) -> Result<Outcome, Fail> {
    let format = Format::parse(alloc, node, unk, bos, eos)?;
    let chars = chars_with(alloc, line)?;
    let sources = Sources {
        chars: &chars,
        ..sample()
    };
    Ok(run_in(alloc, &format, &sources, &[], text.as_bytes()))
}

fn expect_outputs(rt: &(impl Abort + Alloc<A = Global>), rows: &[Row]) -> Result<(), Fail> {
    for (what, texts, text, output) in rows {
        let outcome = run_of(rt.alloc(), *texts, text)?;
        assert!(rt; outcome.returned.is_ok(), "{what}");
        assert!(rt; outcome.written.as_slice() == output.as_bytes(), "{what}");
    }
    Ok(())
}

const ESCAPES: &str = "\\0\\a\\b\\t\\n\\v\\f\\r\\s\\\\";

#[rattlefmt::skip]
static FORMATS: [Row; 15] = [
    // (what, (a line of char.def, node, unk, bos, eos), text, output)
    ("cost_format", ("", COSTS, None, "", "%pc\\n"), "すもももも\n", COSTS_OF_SUMOMO),
    ("blanks_in_wakati", ("", PLACES, None, "", "%L\\n"), SPACED, PLACES_OF_SPACED),
    ("chain_over_prolonged_mark", (MARK, "%m:%t:%pc", None, "", "\\n"), "アーす", "アーす:3:1010\n"),
    ("ids and connections", ("", "%phl,%phr,%pC;", None, "", "EOS\\n"), "すもももも\n", IDS),
    ("before and after", ("", "%m/", None, "[%S]", "%L|%pc\\n"), "すもも", "[すもも]すもも/9|115\n"),
    ("known and unknown", ("", "%m:%s\\s", None, "", "EOS\\n"), "もz", "も:0 z:1 EOS\n"),
    ("a part for unknown words", ("", "%m,", Some("<%m>%H"), "", ""), "もz", "も,<z>未知"),
    ("bad_items", ("", "%f[9]|%f[0]|%%\\s", None, "", ""), "z", "|未知|% "),
    ("fields", ("", "%f[1]%f[0]%f[2];%H", None, "", ""), "も", "も助詞;助詞,も"),
    ("escapes", ("", "", None, ESCAPES, ""), "も", "\u{0}\u{7}\u{8}\t\n\u{b}\u{c}\r \\"),
    ("the line of each word", ("", "%S%L%%", None, "%%", "%%"), "も", "%も3%%"),
    ("no word", ("", "%m", None, "%S|", "%pc\\n"), "   ", "   |0\n"),
    ("an empty line", ("", "%m", None, "%S|%L", "|%pc"), "\n", "|0|0"),
    ("plain text", ("", "語", None, "文頭", "文末"), "すもももも", "文頭語語文末"),
    ("nothing", ("", "", None, "", ""), "も\nz\n", ""),
];

#[test]
fn formats(rt: HostRuntime) -> Result<(), Fail> {
    expect_outputs(&rt, &FORMATS)
}

#[rattlefmt::skip]
static FIELDS_OF_FEATURES: [(&str, &str, &str); 5] = [
    // (what, node, output)
    ("quotes",                "%f[0]", "a,\"b\""),
    ("a star",                "%f[1]", ""),
    ("a star between quotes", "%f[2]", ""),
    ("blanks before a field", "%f[3]", "d"),
    ("a missing field",       "%f[4]", ""),
];

#[test]
fn fields_of_features(rt: HostRuntime) -> Result<(), Fail> {
    let lexicon = "も,1,1,20,\"a,\"\"b\"\"\",*,\"*c\", d\n";
    let sources = Sources {
        lexicons: &[lexicon.as_bytes()],
        ..sample()
    };
    for (what, node, output) in &FIELDS_OF_FEATURES {
        let format = Format::parse(rt.alloc(), node, None, "", "")?;
        let outcome = run_in(rt.alloc(), &format, &sources, &[], "も".as_bytes());
        assert!(rt; outcome.written.as_slice() == output.as_bytes(), "{what}");
    }
    Ok(())
}

#[test]
fn negative_costs(rt: HostRuntime) -> Result<(), Fail> {
    let sources = Sources {
        lexicons: &["も,1,1,-120,助詞\n".as_bytes()],
        ..sample()
    };
    let format = Format::parse(rt.alloc(), "%c|%pn|%pc;", None, "", "%pc")?;
    let outcome = run_in(rt.alloc(), &format, &sources, &[], "もも".as_bytes());
    let output = "-120|-110|-110;-120|-113|-223;-218";
    assert!(rt; outcome.written.as_slice() == output.as_bytes());
    Ok(())
}

static WAKATI: [(&str, &str, &str); 3] = [
    // (what, text, output)
    ("sumomo", "すもももも\n", "すもも もも \n"),
    ("blanks_in_wakati", " すもも  もも \n", "すもも もも \n"),
    ("only_blanks", "   ", "\n"),
];

#[test]
fn wakati(rt: HostRuntime) -> Result<(), Fail> {
    let format = Format::wakati(rt.alloc())?;
    for (what, text, output) in &WAKATI {
        let outcome = printed(rt.alloc(), &format, text);
        assert!(rt; outcome.written.as_slice() == output.as_bytes(), "{what}");
    }
    Ok(())
}

static COSTS_OF_LONG_LINES: [(usize, &str); 3] = [
    // (letters, output)
    (65_535, "65969585\n"),
    (65_536, "65970592\n"),
    (SENTENCE_MAX, "1055891872\n"),
];

#[test]
fn costs_of_long_lines(rt: HostRuntime) -> Result<(), Fail> {
    let format = Format::parse(rt.alloc(), "", None, "", "%pc\\n")?;
    for (count, output) in &COSTS_OF_LONG_LINES {
        let text = letters(rt.alloc(), *count)?;
        let outcome = printed(rt.alloc(), &format, text.as_str());
        assert!(rt; outcome.written.as_slice() == output.as_bytes(), "{count}");
    }
    Ok(())
}

#[test]
fn a_path_after_other_text(rt: HostRuntime) -> Result<(), Fail> {
    let text = "すもももも";
    let system = system_dict(rt.alloc(), &sample())?;
    let dictionaries = Dictionaries::new(&system, &[])?;
    let format = Format::default_of(rt.alloc())?;
    let path = best_path(rt.alloc(), &dictionaries, text)?;
    let mut out = Vec::from_slice(rt.alloc(), b">")?;
    print(rt.alloc(), &format, &dictionaries, text, &path, &mut out)?;
    assert!(rt; out.as_slice() == ">すもも\t名詞,すもも\nもも\t名詞,もも\nEOS\n".as_bytes());
    Ok(())
}
