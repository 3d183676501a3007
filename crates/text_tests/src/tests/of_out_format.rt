//! Texts of formats: what valid ones print, and the first error of invalid ones.

mod out_of_memory;
mod printed;

use mj_model::{Sources, sample};
use out_format::FormatKind::{BadEscape, BadIndex, BadItem};
use out_format::FormatPart::{Bos, Eos, Node, Unk};
use out_format::{Format, FormatFault, FormatKind, FormatPart};
use std::alloc::Global;
use std::process::Abort;
use std::string::String;
use std::test::Fail;
use test_support::samples::run_in;

/// A label, the node's text, and the position in bytes and the kind of its first error.
type NodeRow = (&'static str, &'static str, Option<(usize, FormatKind)>);

fn expect_nodes(rt: &(impl Abort + Alloc<A = Global>), rows: &[NodeRow]) {
    for (what, node, expected) in rows {
        let part = FormatPart::Node;
        let fault = expected.map(|(at, kind)| FormatFault::Bad { part, at, kind });
        let reported = Format::parse(rt.alloc(), node, None, "", "").err();
        assert_eq!(rt; reported, fault, "{what}");
    }
}

#[rattlefmt::skip]
static NODE_TEXTS: [NodeRow; 38] = [
    // (what, the node's text, its first error)
    ("no text", "", None),
    ("plain text", "名詞/", None),
    ("every item", "%m%M%pS%H%f[0]%c%s%S%L%phl%phr%pC%pn%pc%pl%pL%ps%pe%t%%", None),
    ("every escape", "\\0\\a\\b\\t\\n\\v\\f\\r\\s\\\\", None),
    ("a backslash at the end", "a\\", Some((1, BadEscape))),
    ("no such escape", "\\q", Some((0, BadEscape))),
    ("an escaped character of two bytes", "é\\é", Some((2, BadEscape))),
    ("a backslash after an escaped one", "\\\\\\", Some((2, BadEscape))),
    ("a percent sign at the end", "ab%", Some((2, BadItem))),
    ("bad_items", "%f[9]|%f[0]|%%\\s%q", Some((16, BadItem))),
    ("%p at the end", "%p", Some((0, BadItem))),
    ("%ph at the end", "%ph", Some((0, BadItem))),
    ("no such item of %p", "%pm", Some((0, BadItem))),
    ("no such item of %ph", "%phc", Some((0, BadItem))),
    ("MeCab's %h", "%h", Some((0, BadItem))),
    ("MeCab's %F", "%F", Some((0, BadItem))),
    ("MeCab's %P", "%P", Some((0, BadItem))),
    ("MeCab's %pP", "%pP", Some((0, BadItem))),
    ("MeCab's %pA", "%pA", Some((0, BadItem))),
    ("MeCab's %pB", "%pB", Some((0, BadItem))),
    ("MeCab's %pi", "%pi", Some((0, BadItem))),
    ("MeCab's %pb", "%pb", Some((0, BadItem))),
    ("MeCab's %pw", "%pw", Some((0, BadItem))),
    ("MeCab's %pp", "%pp", Some((0, BadItem))),
    ("the leftmost fault", "%q\\q", Some((0, BadItem))),
    ("the leftmost fault, an escape", "\\q%q", Some((0, BadEscape))),
    ("%f without an index", "%f", Some((0, BadIndex))),
    ("no number", "%f[x]", Some((0, BadIndex))),
    ("no digit", "%f[]", Some((0, BadIndex))),
    ("two indexes", "%f[1,2]", Some((0, BadIndex))),
    ("no closing bracket", "%f[1", Some((0, BadIndex))),
    ("no opening bracket", "%f1]", Some((0, BadIndex))),
    ("a sign", "%f[+1]", Some((0, BadIndex))),
    ("the greatest index", "%f[65535]", None),
    ("an index that is too great", "%f[65536]", Some((0, BadIndex))),
    ("five digits", "%f[00001]", None),
    ("six digits", "%f[000001]", Some((0, BadIndex))),
    ("a field after text", "名%f[1]%f[", Some((8, BadIndex))),
];

#[test]
fn node_texts(rt: HostRuntime) {
    expect_nodes(&rt, &NODE_TEXTS);
}

/// The texts of node, unk, bos and eos.
type Texts = (
    &'static str,
    Option<&'static str>,
    &'static str,
    &'static str,
);

/// A label, the four texts, and the part, the position in bytes and the kind of their first error.
type PartsRow = (&'static str, Texts, Option<(FormatPart, usize, FormatKind)>);

fn expect_parts(rt: &(impl Abort + Alloc<A = Global>), rows: &[PartsRow]) {
    for (what, (node, unk, bos, eos), expected) in rows {
        let fault = expected.map(|(part, at, kind)| FormatFault::Bad { part, at, kind });
        let reported = Format::parse(rt.alloc(), node, *unk, bos, eos).err();
        assert_eq!(rt; reported, fault, "{what}");
    }
}

#[rattlefmt::skip]
static PARTS_OF_FORMATS: [PartsRow; 14] = [
    // (what, node, unk, bos and eos, the first error)
    ("items of the line", ("", None, "%S%L%%", "%S%L%pc%%"), None),
    ("items of words before the first", ("", None, "%m", ""), Some((Bos, 0, BadItem))),
    ("the cost before the first word", ("%m", None, "%pc", ""), Some((Bos, 0, BadItem))),
    ("a field before the first word", ("", None, "%f[0]", ""), Some((Bos, 0, BadItem))),
    ("%f alone before the first word", ("", None, "%f", ""), Some((Bos, 0, BadItem))),
    ("items of words after the last", ("", None, "", "%m"), Some((Eos, 0, BadItem))),
    ("a field after the last word", ("", None, "", "a%f[0]"), Some((Eos, 1, BadItem))),
    ("escapes of the line", ("", None, "\\t", "\\q"), Some((Eos, 0, BadEscape))),
    ("the part of unknown words", ("", Some("%s\\"), "", ""), Some((Unk, 2, BadEscape))),
    ("node before unk", ("%", Some("\\"), "%", "%"), Some((Node, 0, BadItem))),
    ("unk before bos", ("", Some("\\"), "%", "%"), Some((Unk, 0, BadEscape))),
    ("bos before eos", ("", Some(""), "a%", "%"), Some((Bos, 1, BadItem))),
    ("a good bos", ("", Some(""), "a", "%"), Some((Eos, 0, BadItem))),
    ("all parts", ("%m", Some("%M"), "\\n", "%pc\\n"), None),
];

#[test]
fn parts_of_formats(rt: HostRuntime) {
    expect_parts(&rt, &PARTS_OF_FORMATS);
}

/// Two words. Each number that an item prints is a different one.
const LEXICON: &str = "\
すもも,1,2,100,名詞,一般,*,*,*,*,すもも,スモモ,スモモ
もも,2,1,30,名詞,一般,*,*,*,*,もも,モモ,モモ
";

const MATRIX: &str = "3 3\n0 1 10\n0 2 20\n1 0 5\n1 1 7\n1 2 -40\n2 0 6\n2 1 8\n2 2 9\n";

const FEATURES: &str = "名詞,一般,*,*,*,*,すもも,スモモ,スモモ|名詞,一般,*,*,*,*,もも,モモ,モモ|";

/// Returns whether `printed` is the output of a line of both words, each in the format `text`
/// followed by a bar.
fn is_printed(alloc: Global, text: &str, printed: &str) -> Result<bool, Fail> {
    let mut node = String::from_str(alloc, text)?;
    node.push('|')?;
    let format = Format::parse(alloc, node.as_str(), None, "", "")?;
    let sources = Sources {
        matrix: MATRIX.as_bytes(),
        lexicons: &[LEXICON.as_bytes()],
        ..sample()
    };
    let outcome = run_in(alloc, &format, &sources, &[], "すもも  もも".as_bytes());
    Ok(outcome.written.as_slice() == printed.as_bytes())
}

/// An item, what it prints for the two words, and whether it is allowed in BOS and in EOS.
type ItemRow = (&'static str, &'static str, bool, bool);

fn expect_items(rt: &(impl Abort + Alloc<A = Global>), rows: &[ItemRow]) -> Result<(), Fail> {
    for (text, printed, bos, eos) in rows {
        let same = is_printed(rt.alloc(), text, printed)?;
        assert!(rt; same, "{text}");
        let before = Format::parse(rt.alloc(), "", None, text, "");
        assert_eq!(rt; before.is_ok(), *bos, "{text}");
        let after = Format::parse(rt.alloc(), "", None, "", text);
        assert_eq!(rt; after.is_ok(), *eos, "{text}");
    }
    Ok(())
}

/// The items, what MeCab prints for each, and whether BOS and EOS may use it. (MeCab, format.html.
/// Which parts may use which items is this project's own choice.)
#[rattlefmt::skip]
static ITEMS: [ItemRow; 20] = [
    // (text, what is printed for the two words, whether BOS may use it, whether EOS may use it)
    ("%m",    "すもも|もも|",                    false, false),
    ("%M",    "すもも|  もも|",                  false, false),
    ("%pS",   "|  |",                            false, false),
    ("%H",    FEATURES,                          false, false),
    ("%f[7]", "スモモ|モモ|",                    false, false),
    ("%c",    "100|30|",                         false, false),
    ("%s",    "0|0|",                            false, false),
    ("%S",    "すもも  もも|すもも  もも|",      true,  true),
    ("%L",    "17|17|",                          true,  true),
    ("%phl",  "1|2|",                            false, false),
    ("%phr",  "2|1|",                            false, false),
    ("%pC",   "10|9|",                           false, false),
    ("%pn",   "110|39|",                         false, false),
    ("%pc",   "110|149|",                        false, true),
    ("%pl",   "9|6|",                            false, false),
    ("%pL",   "9|8|",                            false, false),
    ("%ps",   "0|11|",                           false, false),
    ("%pe",   "9|17|",                           false, false),
    ("%t",    "5|5|",                            false, false),
    ("%%",    "%|%|",                            true,  true),
];

#[test]
fn texts_of_items(rt: HostRuntime) -> Result<(), Fail> {
    expect_items(&rt, &ITEMS)
}
