//! The commands of `dictc` and their options.

use std::string::String;

/// A command of `dictc`.
#[derive(PartialEq, Drop)]
pub enum Command {
    /// Compile a dictionary to an image.
    Image(Options),
    /// Print the ids and costs of the entries of images.
    Ids(IdsOptions),
}

/// The options of `dictc ids`: the images, and the first fields of the features of the requested
/// entries.
#[derive(PartialEq, Drop)]
pub struct IdsOptions {
    pub dic: String,
    pub users: Vec<String>,
    pub skip_digest: bool,
    pub feature: String,
    /// Whether log messages are printed on standard error.
    pub verbose: bool,
}

/// The options of a compilation, with the path of each file. There is at least one lexicon.
#[derive(PartialEq, Drop)]
pub struct Options {
    pub base: Base,
    pub out: String,
    pub lexicons: Vec<String>,
    /// Whether all invalid lines of the lexicons are reported, up to a limit, in place of the first
    /// one.
    pub all_faults: bool,
    /// Whether log messages are printed on standard error.
    pub verbose: bool,
}

/// What the lexicons are compiled with.
#[derive(PartialEq, Drop)]
pub enum Base {
    /// The definitions of a new system dictionary: `matrix.def`, `char.def` and `unk.def`.
    Definitions {
        matrix: String,
        chars: String,
        unk: String,
    },
    /// The image of an existing system dictionary, for which a user dictionary is compiled. The
    /// test of its checksum may be skipped.
    System {
        dic: String,
        skip_digest: bool,
    },
}
