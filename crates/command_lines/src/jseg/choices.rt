//! The commands of `jseg` and their options.

use std::string::String;

/// A command of `jseg`.
#[derive(PartialEq, Drop)]
pub enum Command {
    /// Segment the text on standard input.
    Segment(Options),
    /// List the images that bare names may find.
    ListImages { verbose: bool },
}

/// The dictionaries with which the text is segmented.
#[derive(PartialEq, Drop)]
pub enum Input {
    /// The images of a system dictionary and of user dictionaries. The test of their checksums may
    /// be skipped.
    Images {
        dic: String,
        users: Vec<String>,
        skip_digest: bool,
    },
    /// The sources in this directory.
    Sources(String),
    /// The sample's sources, which are part of the program.
    Sample,
}

/// The form of a printed lattice.
#[derive(Clone, Copy, Debug, PartialEq, Eq, Drop)]
pub enum Form {
    Tsv,
    Dot,
}

/// How the lattice of each line is printed.
#[derive(Clone, Copy, Debug, PartialEq, Eq, Drop)]
pub struct LatticeChoice {
    pub form: Form,
    /// Greatest cost difference to the best path of the words that are printed; None if all words
    /// are.
    pub within: Option<i64>,
}

/// The view that is printed for each line in place of the words of its best path.
#[derive(Clone, Copy, Debug, PartialEq, Eq, Drop)]
pub enum ViewChoice {
    /// The lattice of the line.
    Lattice(LatticeChoice),
    /// Each word of the best path with its cost, and its best rival.
    Why,
}

/// The options of a segmentation, as they were given.
#[derive(PartialEq, Drop)]
pub struct Options {
    pub input: Input,
    /// How many characters may follow the first one of a grouped unknown word: 0 to 1,000. The
    /// default is 24.
    pub grouping: u16,
    /// `wakati`, if the output format is chosen by name.
    pub output: Option<String>,
    /// The format of known words.
    pub node: Option<String>,
    /// The format of unknown words.
    pub unk: Option<String>,
    /// The text that is printed before the first word of a line.
    pub bos: Option<String>,
    /// The text that is printed after the last word of a line.
    pub eos: Option<String>,
    /// The view that is printed in place of the words of best paths, if one is chosen.
    pub view: Option<ViewChoice>,
    /// Whether log messages are printed on standard error.
    pub verbose: bool,
}
