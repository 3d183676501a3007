//! The command line with its image names resolved to paths.

use command_lines::jseg::{Command, Input, parse_command};
use command_lines::{OptionsFault, Parsed, Texts};
use programs::{EscapedLine, image_path};
use std::alloc::Global;
use std::fs;
use std::string::String;

/// Name of the program.
const PROGRAM: &str = "jseg";

/// Files of a MeCab directory: of a compiled dictionary, and of sources.
const MECAB_FILES: [&str; 2] = ["sys.dic", "matrix.def"];

/// Parses the words that follow the program's name, and resolves the image names to paths. A
/// directory of MeCab as `-d` is an error. Help and hints are taken from `texts`.
pub fn read_command(rt: &HostRuntime, words: Vec<String>, texts: &Texts<'_>) -> Parsed<Command> {
    let mut command = parse_command(rt.alloc(), words, texts)?;
    if let Command::Segment(options) = &mut command {
        find_images(rt, &mut options.input)?;
    }
    Ok(command)
}

/// Replaces the name of each image by its path.
fn find_images(rt: &HostRuntime, input: &mut Input) -> Result<(), OptionsFault> {
    let Input::Images { dic, users, .. } = input else {
        return Ok(());
    };
    *dic = image_path(rt, dic.as_str())?;
    for user in users {
        *user = image_path(rt, user.as_str())?;
    }
    if is_mecab_directory(rt, dic.as_str()) {
        return Err(mecab_directory(rt.alloc(), dic.as_str()));
    }
    Ok(())
}

/// Returns whether the directory `dir` contains a MeCab dictionary.
fn is_mecab_directory(rt: &HostRuntime, dir: &str) -> bool {
    MECAB_FILES.iter().any(|name| {
        let path = format!(in rt.alloc(); "{dir}/{name}");
        path.is_ok_and(|path| fs::exists(rt, path.as_str()).unwrap_or(false))
    })
}

/// Returns the error of a command line that names a MeCab dictionary.
fn mecab_directory(alloc: Global, dir: &str) -> OptionsFault {
    let dir = EscapedLine(dir);
    let message = format!(in alloc;
        "{dir} is a MeCab dictionary, not an image: compile its sources with 'kumquatsieve-import SOURCES IMG', and use that image with -d"
    );
    match message {
        Ok(message) => OptionsFault::usage_error(alloc, PROGRAM, message.as_str()),
        Err(_) => OptionsFault::Memory,
    }
}
