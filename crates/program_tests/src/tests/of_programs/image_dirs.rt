//! The image directories, and the images in them.

use crate::tests::{create_in, expect_in_directory, in_directory, write_in};
use programs::{Environment, image_in, image_names, in_byte_order, name_list, prefix_of};
use std::alloc::{AllocError, Global};
use std::os::unix::fs::symlink;
use std::string::String;
use std::test::Fail;
use test_support::text::{joined, words};

/// Returns an owned copy of `text`.
fn own(alloc: Global, text: Option<&str>) -> Result<Option<String>, AllocError> {
    match text {
        Some(text) => Ok(Some(String::from_str(alloc, text)?)),
        None => Ok(None),
    }
}

/// Returns the image directories for these values of `PREFIX`, `XDG_DATA_HOME` and `HOME`.
fn image_dirs(
    alloc: Global,
    prefix: Option<&str>,
    data_home: Option<&str>,
    home: Option<&str>,
) -> Result<Vec<String>, AllocError> {
    let environment = Environment {
        prefix: own(alloc, prefix)?,
        data_home: own(alloc, data_home)?,
        home: own(alloc, home)?,
    };
    environment.image_dirs(alloc)
}

/// A label, `PREFIX`, `XDG_DATA_HOME` and `HOME`, and the image directories.
type FolderRow = (
    &'static str,
    Option<&'static str>,
    Option<&'static str>,
    Option<&'static str>,
    &'static str,
);

#[rattlefmt::skip]
static FOLDERS: [FolderRow; 14] = [
    // (what, PREFIX, XDG_DATA_HOME, HOME, the image directories)
    ("a home",              Some("/opt/k"), None,         Some("/home/a"),
        "/home/a/.local/share/kumquatsieve /opt/k/var/lib/kumquatsieve /opt/k/share/kumquatsieve"),
    ("data of its own",     Some("/opt/k"), Some("/d"),   Some("/home/a"),
        "/d/kumquatsieve /opt/k/var/lib/kumquatsieve /opt/k/share/kumquatsieve"),
    ("data without a home", Some("/opt/k"), Some("/d"),   None,
        "/d/kumquatsieve /opt/k/var/lib/kumquatsieve /opt/k/share/kumquatsieve"),
    ("relative data",       Some("/opt/k"), Some("d"),    Some("/home/a"),
        "/home/a/.local/share/kumquatsieve /opt/k/var/lib/kumquatsieve /opt/k/share/kumquatsieve"),
    ("empty data",          Some("/opt/k"), Some(""),     Some("/home/a"),
        "/home/a/.local/share/kumquatsieve /opt/k/var/lib/kumquatsieve /opt/k/share/kumquatsieve"),
    ("a relative home",     Some("/opt/k"), None,         Some("a"),
        "/opt/k/var/lib/kumquatsieve /opt/k/share/kumquatsieve"),
    ("no variable",         Some("/opt/k"), None,         None,
        "/opt/k/var/lib/kumquatsieve /opt/k/share/kumquatsieve"),
    ("a package",           Some("/usr"),   None,         Some("/root"),
        "/root/.local/share/kumquatsieve /var/lib/kumquatsieve /usr/share/kumquatsieve"),
    ("/usr/local",          Some("/usr/local"), None,     None,
        "/usr/local/var/lib/kumquatsieve /usr/local/share/kumquatsieve"),
    ("the root",            Some(""),       None,         None,
        "/var/lib/kumquatsieve /share/kumquatsieve"),
    ("no prefix",           None,           None,         Some("/home/a"),
        "/home/a/.local/share/kumquatsieve"),
    ("nothing",             None,           None,         None, ""),
    ("the user's prefix",   Some("/home/a/.local"), None, Some("/home/a"),
        "/home/a/.local/share/kumquatsieve /home/a/.local/var/lib/kumquatsieve"),
    ("data of the system",  Some("/usr"), Some("/var/lib"), None,
        "/var/lib/kumquatsieve /usr/share/kumquatsieve"),
];

#[test]
fn folders(rt: HostRuntime) -> Result<(), Fail> {
    for (what, prefix, data_home, home, wanted) in &FOLDERS {
        let image_dirs = image_dirs(rt.alloc(), *prefix, *data_home, *home)?;
        assert!(rt; image_dirs == words(rt.alloc(), wanted)?, "{what}");
    }
    Ok(())
}

#[rattlefmt::skip]
static PREFIXES: [(&str, Option<&str>); 6] = [
    // (the path of a program, its prefix)
    ("/usr/bin/jseg", Some("/usr")),
    ("/bin/jseg", Some("")),
    ("/jseg", None),
    ("jseg", None),
    ("/opt/k/bin/dictc", Some("/opt/k")),
    ("/work/crates/jseg/out/jseg", Some("/work/crates/jseg")),
];

#[test]
fn prefixes(rt: HostRuntime) -> Result<(), Fail> {
    for (program, prefix) in &PREFIXES {
        assert!(rt; prefix_of(program) == *prefix, "{program}");
    }
    let path = image_in(rt.alloc(), "/usr/share/kumquatsieve", "ipadic")?;
    assert!(rt; path.as_str() == "/usr/share/kumquatsieve/ipadic.img");
    Ok(())
}

static NAMES: [&str; 9] = [
    "b.img", "B.img", "a.img", "é.img", "a.b.img", "a", "a.dicrc", "img", ".img",
];

/// Creates files of these names, and a folder and two links with names of images. The links lead to
/// a device and to an image.
fn make_images(rt: &HostRuntime, dir: &str) -> Result<(), Fail> {
    for name in &NAMES {
        write_in(rt, dir, name, b"x")?;
    }
    create_in(rt, dir, "folder.img")?;
    symlink(
        rt,
        "/dev/null",
        in_directory(rt, dir, "device.img")?.as_str(),
    )?;
    symlink(rt, "a.img", in_directory(rt, dir, "link.img")?.as_str())?;
    Ok(())
}

/// A folder of a directory, and the names of its images.
type Listed = (&'static str, &'static str);

/// Returns whether these are the names of the images in a folder.
fn has_images(rt: &HostRuntime, dir: &str, (folder, names): &Listed) -> Result<bool, Fail> {
    let path = in_directory(rt, dir, folder)?;
    Ok(image_names(rt, path.as_str())? == words(rt.alloc(), names)?)
}

#[rattlefmt::skip]
static LISTED: [(&str, Listed); 3] = [
    // (what, (a folder, the names of its images))
    ("the directory",           (".",          "B a a.b b link é")),
    ("a folder without images", ("folder.img", "")),
    ("no folder",               ("other.img",  "")),
];

/// Returns whether `names` are sorted into `ordered`.
fn is_order(alloc: Global, names: &str, ordered: &str) -> Result<bool, AllocError> {
    Ok(in_byte_order(words(alloc, names)?)? == words(alloc, ordered)?)
}

#[test]
fn names_in_a_folder(rt: HostRuntime) -> Result<(), Fail> {
    expect_in_directory(&rt, "image_dirs", make_images, &LISTED, has_images)?;
    assert!(rt; is_order(rt.alloc(), "é b a B a", "B a a b é")?);
    Ok(())
}

const TWENTY: &str = "a, b, c, d, e, f, g, h, i, j, k, l, m, n, o, p, q, r, s, t";

#[rattlefmt::skip]
static PRINTED_NAMES: [(&str, &str); 5] = [
    // (names, the line)
    ("", "none; install one with kumquatsieve-import"),
    ("ipadic", "ipadic"),
    ("ipadic unidic", "ipadic, unidic"),
    ("a\tb \u{1b}", "a\\tb, \\u{1b}"),
    ("a b c d e f g h i j k l m n o p q r s t", TWENTY),
];

/// Returns whether `line` is the list printed for `names`, after its heading.
fn is_printed(alloc: Global, names: &str, line: &str) -> Result<bool, AllocError> {
    let reported = name_list(alloc, &words(alloc, names)?)?;
    Ok(reported.as_str().strip_prefix("available images: ") == Some(line))
}

#[test]
fn printed_names(rt: HostRuntime) -> Result<(), Fail> {
    for (names, line) in &PRINTED_NAMES {
        assert!(rt; is_printed(rt.alloc(), names, line)?, "{names}");
    }
    let further = "a b c d e f g h i j k l m n o p q r s t u v w";
    let line = joined(rt.alloc(), &[TWENTY, " and 3 more"])?;
    assert!(rt; is_printed(rt.alloc(), further, line.as_str())?);
    Ok(())
}
