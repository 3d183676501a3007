//! The command line with its image names resolved, and a check that no input is overwritten.

use command_lines::dictc::{Base, Command, Options, parse_command};
use command_lines::{OptionsFault, Texts};
use programs::{EscapedLine, image_path};
use std::alloc::Global;
use std::fs;
use std::os::unix::fs::MetadataExt;
use std::string::String;

/// Parses the words that follow the program's name and resolves the image names to paths. An output
/// path that is also an input is an error. Help and hints are taken from `texts`.
pub fn read_command(
    rt: &HostRuntime,
    words: Vec<String>,
    texts: &Texts<'_>,
) -> Result<Command, OptionsFault> {
    let mut command = parse_command(rt.alloc(), words, texts)?;
    find_images(rt, &mut command)?;
    if let Command::Image(options) = &command {
        if overwrites_input(rt, options) {
            return Err(overwritten_input(rt.alloc(), options.out.as_str()));
        }
    }
    Ok(command)
}

/// Replaces the name of each image that is read by its path.
fn find_images(rt: &HostRuntime, command: &mut Command) -> Result<(), OptionsFault> {
    match command {
        Command::Image(options) => {
            if let Base::System { dic, .. } = &mut options.base {
                *dic = image_path(rt, dic.as_str())?;
            }
        }
        Command::Ids(options) => {
            options.dic = image_path(rt, options.dic.as_str())?;
            for user in &mut options.users {
                *user = image_path(rt, user.as_str())?;
            }
        }
    }
    Ok(())
}

/// Returns whether the output would replace an input file.
fn overwrites_input(rt: &HostRuntime, options: &Options) -> bool {
    let out = options.out.as_str();
    let is_base = match &options.base {
        Base::Definitions { matrix, chars, unk } => {
            is_same(rt, matrix, out) || is_same(rt, chars, out) || is_same(rt, unk, out)
        }
        Base::System { dic, .. } => is_same(rt, dic, out),
    };
    is_base || options.lexicons.iter().any(|path| is_same(rt, path, out))
}

/// Returns the error of a command line whose output path is an input file.
fn overwritten_input(alloc: Global, out: &str) -> OptionsFault {
    let out = EscapedLine(out);
    match format!(in alloc; "dictc: --out would overwrite an input file: {out}\n") {
        Ok(text) => OptionsFault::Bad(text),
        Err(_) => OptionsFault::Memory,
    }
}

/// Returns whether two paths are equal or lead to the same regular file. Devices are never the
/// same.
fn is_same(rt: &HostRuntime, path: &String, out: &str) -> bool {
    if path.as_str() == out {
        return true;
    }
    match (fs::metadata(rt, path.as_str()), fs::metadata(rt, out)) {
        (Ok(one), Ok(two)) => one.is_file() && one.dev() == two.dev() && one.ino() == two.ino(),
        _ => false,
    }
}
