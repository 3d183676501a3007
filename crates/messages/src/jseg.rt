//! The texts of `jseg`.

use crate::shared::{EXPLAIN, SKIP_DIGEST, VERBOSE};

/// Help of `jseg`, each text after its key.
#[rattlefmt::skip]
pub static HELP: [(&str, &str); 18] = [
    // what it does
    ("jseg", "Segments Japanese text from standard input into words"),
    // help of its options, by id
    ("dic", "Use the system dictionary in an image, given by path or name"),
    ("users", "With -d, also use the user dictionary in an image; can be repeated"),
    (
        "sources",
        "Use the sources in a directory: matrix.def, char.def, unk.def and every .csv file",
    ),
    ("sample", "Use the built-in sample dictionary"),
    SKIP_DIGEST,
    (
        "grouping",
        "Maximum number of characters after the first one of a grouped unknown word [default: 24]",
    ),
    ("output", "Output format by name: wakati prints surfaces, each followed by a blank"),
    ("node", "Format of known words"),
    ("unk", "Format of unknown words [default: that of known words]"),
    ("bos", "Format of the text before the first word of a line"),
    ("eos", "Format of the text after the last word of a line"),
    (
        "lattice",
        "Print the lattice of each line: tsv is a table of its words, dot is a graph for Graphviz",
    ),
    (
        "within",
        "With --lattice, omit words whose best path costs over N more than the best path of the line, and words on no path",
    ),
    (
        "why",
        "Explain the segmentation of each line: print its words with their costs and best rivals",
    ),
    ("dictionaries", "List the images that can be given by name: name, bytes, entries, path"),
    VERBOSE,
    EXPLAIN,
];

/// Hints for invalid command lines of `jseg`, each text after its key.
#[rattlefmt::skip]
pub static HINTS: [(&str, &str); 30] = [
    ("words", "the text is read from standard input, so run 'jseg -d IMG < FILE'"),
    ("nbest", "-N is not supported: jseg prints only the best path; remove the option"),
    ("all-morphs", "-a is not supported: use --lattice tsv to print all words of a line"),
    ("lattice-level", "-l is not supported: jseg prints only the best path; remove the option"),
    ("marginal", "-m is not supported: jseg computes no probabilities; remove the option"),
    ("theta", "-t is not supported: jseg computes no probabilities; remove the option"),
    ("cost-factor", "-c is not supported: jseg computes no probabilities; remove the option"),
    (
        "partial",
        "-p is not supported: jseg segments plain text, and accepts no words that are already segmented",
    ),
    (
        "eon-format",
        "-S is not supported: it is printed after N-best output, and jseg prints only the best path; remove the option",
    ),
    ("unk-feature", "-x is not supported: use -U with a format that has the text instead of %H"),
    (
        "output-file",
        "-o is not supported: jseg writes to standard output; redirect it with '> FILE'",
    ),
    (
        "rcfile",
        "-r is not supported: jseg does not read a dicrc; give its formats with -F, -U, -B and -E",
    ),
    (
        "dictionary-info",
        "-D is not supported: -v prints what is loaded, and --dictionaries lists the installed images",
    ),
    ("dump-config", "-P is not supported: --help lists the options"),
    (
        "input-buffer-size",
        "-b is not needed: a line can have up to 1,048,576 bytes; remove the option",
    ),
    (
        "allocate-sentence",
        "-C is not needed: jseg keeps its own copy of each line; remove the option",
    ),
    ("dicdir", "--dicdir is not supported: use -d IMG"),
    ("userdic", "--userdic is not supported: use -u IMG"),
    ("output-format-type", "--output-format-type is not supported: use -O wakati"),
    ("max-grouping-size", "--max-grouping-size is not supported: use -M N"),
    ("node-format", "--node-format is not supported: use -F FORMAT"),
    ("unk-format", "--unk-format is not supported: use -U FORMAT"),
    ("bos-format", "--bos-format is not supported: use -B FORMAT"),
    ("eos-format", "--eos-format is not supported: use -E FORMAT"),
    // hints for names of output formats
    (
        "chasen",
        "-O chasen is not supported: for IPADIC use -F '%m\\t%f[7]\\t%f[6]\\t%f[0]-%f[1]-%f[2]-%f[3]\\t%f[4]\\t%f[5]\\n' -U '%m\\t%m\\t%m\\t%f[0]-%f[1]-%f[2]-%f[3]\\t\\t\\n'",
    ),
    (
        "yomi",
        "-O yomi is not supported: run 'mecab -d IMG -Oyomi', or for IPADIC use -F '%pS%f[7]' -U '%M' -E '\\n'",
    ),
    (
        "simple",
        "-O simple is not supported: run 'mecab -d IMG -Osimple', or for IPADIC use -F '%m\\t%f[0]-%f[1]-%f[2]-%f[3]\\n'",
    ),
    (
        "other output",
        "-O supports only wakati: MeCab reads other names from the dictionary's dicrc; run 'mecab -d IMG -O NAME', or give that format with -F, -U, -B and -E",
    ),
    // errors
    ("no input", "a dictionary is required: -d IMG, --sources DIR or --sample"),
    ("no lattice", "--within N requires --lattice FORM"),
];
