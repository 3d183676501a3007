//! The texts of `dictc`.

use crate::shared::{EXPLAIN, SKIP_DIGEST, VERBOSE};

/// Help of `dictc`, each text after its key.
#[rattlefmt::skip]
pub static HELP: [(&str, &str); 17] = [
    // what it and its subcommands do
    ("dictc", "Compiles the sources of a dictionary to an image"),
    ("system", "Compiles a system dictionary"),
    ("user", "Compiles a user dictionary"),
    ("ids", "Prints the ids and word costs of the entries of a part of speech"),
    // help of options, by id
    ("matrix", "File of connection costs, such as matrix.def"),
    ("char", "File of character categories, such as char.def"),
    ("unk", "File of unknown words, such as unk.def"),
    ("base", "Image of the system dictionary to compile it for, given by path or name"),
    ("out", "Image to write"),
    ("all-faults", "Report up to 20 invalid lines of the lexicons instead of only the first one"),
    ("lexicons", "Lexicon files, in order"),
    ("dic", "Image of a system dictionary, given by path or name"),
    ("users", "Image of a user dictionary whose entries are included; can be repeated"),
    (
        "feature",
        "First fields of a feature, separated by commas; an empty field or * matches any value",
    ),
    SKIP_DIGEST,
    VERBOSE,
    EXPLAIN,
];

/// Hints for invalid command lines of `dictc`, each text after its key.
#[rattlefmt::skip]
pub static HINTS: [(&str, &str); 9] = [
    (
        "userdic",
        "-u is not supported: for a user dictionary use 'dictc user --dic IMG --out USERIMG LEX..'",
    ),
    ("userdic of user", "-u is not supported: use --out IMG, the image of the user dictionary"),
    (
        "dicdir",
        "-d is not supported: use 'kumquatsieve-import DIR IMG', or name the files: 'dictc system --matrix FILE --char FILE --unk FILE --out IMG LEX..'",
    ),
    (
        "dicdir of system",
        "-d is not supported: use --matrix FILE --char FILE --unk FILE and the lexicons, or 'kumquatsieve-import DIR IMG'",
    ),
    (
        "dicdir of an image",
        "-d is not supported: use --dic IMG, the image of the system dictionary",
    ),
    ("outdir", "-o is not supported: use --out IMG, which names the image file"),
    (
        "dictionary-charset",
        "-f is not supported: dictc reads only UTF-8; for other encodings use 'kumquatsieve-import --encoding NAME DIR IMG' or 'kumquatsieve-import --encoding NAME --user DIC --out IMG LEX..'",
    ),
    ("charset", "-t is not supported: images are always in UTF-8; remove the option"),
    // errors
    ("no subcommand", "a subcommand is required: 'dictc system', 'dictc user' or 'dictc ids'"),
];
