//! Dictionaries loaded from images of layouts 1, 2 and 3. They give the same output.

use dict_image::Dict;
use mj_model::sample;
use out_format::{Format, FormatFault};
use std::alloc::Global;
use std::process::Abort;
use std::test::Fail;
use test_support::samples::{SURFACES, loaded_in, overlay, segment_text, system_in, user_image};

/// The sample's lexicon.
const LEXICON: &str = "\
すもも,1,1,100,名詞,すもも
も,1,1,20,助詞,も
もも,1,1,30,名詞,もも
";

/// The sample's lexicon with a surface that ends with a blank.
const WITH_BLANK: &str = "\
すもも,1,1,100,名詞,すもも
も,1,1,20,助詞,も
もも,1,1,30,名詞,もも
も ,1,1,500,Z
";

/// Two words, and a word of both letters with the same total cost.
const TIE: &str = "a,1,1,10,X\nb,1,1,10,X\nab,1,1,27,X\n";

/// A surface with two entries.
const TWICE: &str = "a,1,1,10,X\na,1,1,10,Y\n";

/// Returns the output for `text`.
fn written(
    alloc: Global,
    (system, users): (&Dict, &[Dict]),
    format: &Format,
    text: &str,
) -> Result<Vec<u8>, Fail> {
    let dictionaries = overlay(system, users)?;
    let mut written = Vec::new(alloc);
    segment_text(alloc, &dictionaries, format, text.as_bytes(), &mut written)?;
    Ok(written)
}

/// The default format, wakati, and a format with the costs of each word and of its path.
#[derive(Drop)]
struct Formats {
    words: Format,
    wakati: Format,
    costs: Format,
}

impl Formats {
    fn new(alloc: Global) -> Result<Formats, FormatFault> {
        Ok(Formats {
            words: Format::default_of(alloc)?,
            wakati: Format::wakati(alloc)?,
            costs: Format::parse(alloc, "%m/%f[0]/%c/%pn/%pc/%t ", None, "", "%pc\\n")?,
        })
    }
}

/// Returns one dictionary, loaded from images of layouts 1, 2 and 3.
fn in_each_layout(
    alloc: Global,
    line: &str,
    lexicons: &[&[u8]],
    surfaces: &[&str],
) -> Result<Vec<Dict>, Fail> {
    let mut dicts = Vec::new(alloc);
    for layout in 1..=3 {
        dicts.push(system_in(alloc, layout, line, lexicons, surfaces)?)?;
    }
    Ok(dicts)
}

/// Returns whether each of `dicts` writes `wanted` for `text`.
fn all_write(
    alloc: Global,
    dicts: &[Dict],
    format: &Format,
    text: &str,
    wanted: &[u8],
) -> Result<bool, Fail> {
    for dict in dicts {
        if written(alloc, (dict, &[]), format, text)?.as_slice() != wanted {
            return Ok(false);
        }
    }
    Ok(true)
}

/// Returns whether all of `dicts` write the same output for `text`.
fn write_the_same(
    alloc: Global,
    dicts: &[Dict],
    format: &Format,
    text: &str,
) -> Result<bool, Fail> {
    match dicts.last() {
        Some(newest) => {
            let wanted = written(alloc, (newest, &[]), format, text)?;
            all_write(alloc, dicts, format, text, &wanted)
        }
        None => Ok(false),
    }
}

/// A label, a text, and its output in the default format.
type TextRow<'a> = (&'a str, &'a str, &'a str);

/// Checks that `dicts` write the same output for a text in each format, and the expected one in the
/// default format.
fn expect_the_same(
    rt: &(impl Abort + Alloc<A = Global>),
    dicts: &[Dict],
    formats: &Formats,
    (what, text, output): TextRow<'_>,
) -> Result<(), Fail> {
    let alloc = rt.alloc();
    let wanted = output.as_bytes();
    assert!(rt;
        all_write(alloc, dicts, &formats.words, text, wanted)?,
        "{what}"
    );
    assert!(rt;
        write_the_same(alloc, dicts, &formats.wakati, text)?,
        "{what}"
    );
    assert!(rt;
        write_the_same(alloc, dicts, &formats.costs, text)?,
        "{what}"
    );
    Ok(())
}

const LETTERS_25: &str = "zzzzzzzzzzzzzzzzzzzzzzzzz";

const LETTERS_26: &str = "zzzzzzzzzzzzzzzzzzzzzzzzzz";

/// The output of `LETTERS_26`: a word of one letter, and one of the others.
const THEN_25: &str = "z\t未知\nzzzzzzzzzzzzzzzzzzzzzzzzz\t未知\nEOS\n";

/// The highest characters, and their output: one word.
const HIGH: &str = "\u{fffe}\u{ffff}\u{10ffff}";

const AS_ONE: &str = "\u{fffe}\u{ffff}\u{10ffff}\t未知\nEOS\n";

/// A line of `char.def`, a lexicon, its surfaces, and a text with its label and its output in the
/// default format.
type DictRow<'a> = (&'a str, &'a str, &'a [&'a str], TextRow<'a>);

/// Checks that the dictionaries of each test case write the same output in all layouts.
fn expect_the_same_of_all(
    rt: &(impl Abort + Alloc<A = Global>),
    rows: &[DictRow<'_>],
) -> Result<(), Fail> {
    let formats = Formats::new(rt.alloc())?;
    for (line, lexicon, surfaces, row) in rows {
        let dicts = in_each_layout(rt.alloc(), line, &[lexicon.as_bytes()], surfaces)?;
        expect_the_same(rt, &dicts, &formats, *row)?;
    }
    Ok(())
}

const TWO: &str = "すもも\t名詞,すもも\nもも\t名詞,もも\nEOS\n";

#[rattlefmt::skip]
static TEXTS_OF_THE_SAMPLE: [TextRow<'static>; 11] = [
    // (what, text, output in the default format)
    ("sumomo",                    "すもももも\n",     TWO),
    ("empty input",               "",                 ""),
    ("empty line",                "\n",               "EOS\n"),
    ("last line without LF",      "も",               "も\t助詞,も\nEOS\n"),
    ("only_blanks",               "   \n",            "EOS\n"),
    ("blanks_in_wakati",          " すもも  もも \n", TWO),
    ("tokyo_tie",                 "東京都\n",         "東京\t未知\n都\t未知\nEOS\n"),
    ("katakana_group_and_length", "アイ\n",           "アイ\t未知\nEOS\n"),
    ("25 letters",                LETTERS_25,         "zzzzzzzzzzzzzzzzzzzzzzzzz\t未知\nEOS\n"),
    ("26 letters",                LETTERS_26,         THEN_25),
    ("U+FFFE, U+FFFF, U+10FFFF",  HIGH,               AS_ONE),
];

#[test]
fn texts_of_the_sample(rt: HostRuntime) -> Result<(), Fail> {
    let dicts = in_each_layout(rt.alloc(), "", sample().lexicons, SURFACES)?;
    let formats = Formats::new(rt.alloc())?;
    for row in &TEXTS_OF_THE_SAMPLE {
        expect_the_same(&rt, &dicts, &formats, *row)?;
    }
    Ok(())
}

const SURFACES_WITH_BLANK: &[&str] = &["すもも", "も", "も ", "もも"];

const MARK: &str = "0x30FC KATAKANA HIRAGANA\n";

#[rattlefmt::skip]
static FURTHER_LINES: [DictRow<'static>; 2] = [
    // (a line of char.def, lexicon, surfaces, (what, text, output in the default format))
    (MARK, LEXICON, SURFACES, ("chain_over_prolonged_mark", "アーす\n", "アーす\t未知\nEOS\n")),
    ("", WITH_BLANK, SURFACES_WITH_BLANK, ("ends_later", "も ", "も \tZ\nEOS\n")),
];

#[test]
fn texts_of_further_lines(rt: HostRuntime) -> Result<(), Fail> {
    expect_the_same_of_all(&rt, &FURTHER_LINES)
}

#[rattlefmt::skip]
static FURTHER_LEXICONS: [DictRow<'static>; 2] = [
    // (a line of char.def, lexicon, surfaces, (what, text, output in the default format))
    ("", TIE, &["a", "ab", "b"], ("tie_later_place", "ab", "a\tX\nb\tX\nEOS\n")),
    ("", TWICE, &["a"], ("same_surface_twice", "a", "a\tX\nEOS\n")),
];

#[test]
fn texts_of_further_lexicons(rt: HostRuntime) -> Result<(), Fail> {
    expect_the_same_of_all(&rt, &FURTHER_LEXICONS)
}

/// Segments two characters with the sample's dictionary in layout `layout`, which has `line`
/// appended to `char.def`. Returns the output.
fn written_beyond(
    alloc: Global,
    format: &Format,
    layout: u32,
    line: &str,
) -> Result<Vec<u8>, Fail> {
    let dict = system_in(alloc, layout, line, sample().lexicons, SURFACES)?;
    written(alloc, (&dict, &[]), format, "𠮷野")
}

const NUL: &str = "0x0000 KANJI\n";

#[rattlefmt::skip]
static BEYOND_THE_BASIC_PLANE: [(&str, u32, &str, &str); 5] = [
    // (what, layout, a line of char.def, the words and the total cost)
    ("U+0000 not mapped, layout 1",           1, "",  "𠮷 野 2022\n"),
    ("U+0000 not mapped, layout 2",           2, "",  "𠮷 野 2022\n"),
    ("the entry of U+0000, layout 1",         1, NUL, "𠮷野 1015\n"),
    ("the entry of U+0000, layout 2",         2, NUL, "𠮷野 1015\n"),
    ("U+0000 is itself alone in layout 3",    3, NUL, "𠮷 野 2022\n"),
];

#[test]
fn beyond_the_basic_plane(rt: HostRuntime) -> Result<(), Fail> {
    let totals = Format::parse(rt.alloc(), "%m ", None, "", "%pc\\n")?;
    for (what, layout, line, output) in &BEYOND_THE_BASIC_PLANE {
        let got = written_beyond(rt.alloc(), &totals, *layout, line)?;
        assert!(rt; got.as_slice() == output.as_bytes(), "{what}");
    }
    Ok(())
}

/// Returns a user dictionary of one line, in layout `layout`.
fn user_in(alloc: Global, system: &Dict, layout: u32) -> Result<Dict, Fail> {
    let image = user_image(alloc, system, "もも,1,1,1,名詞,ユーザ\n")?;
    loaded_in(alloc, layout, &image, &["もも"])
}

/// Segments the sample's line with a system dictionary and a user dictionary in the given layouts.
/// Returns the output.
fn written_with_a_user(
    alloc: Global,
    format: &Format,
    of_system: u32,
    of_user: u32,
) -> Result<Vec<u8>, Fail> {
    let system = system_in(alloc, of_system, "", sample().lexicons, SURFACES)?;
    let users = [user_in(alloc, &system, of_user)?];
    written(alloc, (&system, &users), format, "すもももも\n")
}

#[rattlefmt::skip]
static LAYOUTS: [(u32, u32); 9] = [
    // (layout of the system image, layout of the user image)
    (1, 1),
    (1, 2),
    (1, 3),
    (2, 1),
    (2, 2),
    (2, 3),
    (3, 1),
    (3, 2),
    (3, 3),
];

#[test]
fn users_of_other_layouts(rt: HostRuntime) -> Result<(), Fail> {
    let format = Format::parse(rt.alloc(), "%m/%f[1]/%pc ", None, "", "%pc\\n")?;
    let output = "すもも/すもも/110 もも/ユーザ/118 123\n";
    for (of_system, of_user) in &LAYOUTS {
        let got = written_with_a_user(rt.alloc(), &format, *of_system, *of_user)?;
        assert!(rt;
            got.as_slice() == output.as_bytes(),
            "{of_system} {of_user}"
        );
    }
    Ok(())
}
