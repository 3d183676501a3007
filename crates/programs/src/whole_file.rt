//! Files that are read whole.

ghost use Rattle.std.specs.Prelude.{◌≡◌, All, IfOk, IfErr, IfSome, map, string_bytes};
ghost use Rattle.std.specs.Io.KnownBytes.{IsAtEnd};
ghost use Rattle.programs.specs.Faults.{Names, NamesOneOf};
ghost use Rattle.programs.specs.Reading.{AreOfAFile};
ghost use Rattle.programs.specs.declared.fault.Fault.TheVariants.{File};

use crate::fault::Fault;
use crate::reading::read_whole;
use mj_model::READS_MAX;
use std::alloc::{AllocError, Global};
use std::fs;
use std::io::Read;
use std::rt::Files;
use std::string::String;

/// The path and the contents of a file.
#[derive(Drop)]
pub struct WholeFile {
    pub path: String,
    pub bytes: Vec<u8>,
}

impl WholeFile {
    /// Reads the file at `path`, in at most `READS_MAX` reads.
    pub fn read<R: Files + AllocGlobal>(rt: &R, path: &str) -> Result<WholeFile, Fault>
        ensures path { IfOk result (λ whole. string_bytes whole.path ≡ path.now) }
        ensures bytes { IfOk result (λ whole. AreOfAFile R.File.remaining whole.bytes.items) }
        ensures fault { IfErr result (Names File path.now) }
    {
        match fs::open(rt, path) {
            Ok(mut file) => WholeFile::read_from(rt.alloc(), path, &mut file),
            Err(error) => Err(Fault::of_file(rt.alloc(), path, &error)),
        }
    }

    /// Reads the remainder of a file that was opened at `path`, in at most `READS_MAX` reads.
    pub fn read_from<F: Read>(alloc: Global, path: &str, file: &mut F) -> Result<WholeFile, Fault>
        ensures path { IfOk result (λ whole. string_bytes whole.path ≡ path.now) }
        ensures bytes { IfOk result (λ whole.
            IfSome (F.remaining file.old) (λ known. whole.bytes.items ≡ known)) }
        ensures end { IfOk result (λ _. IsAtEnd (F.remaining file.new)) }
        ensures fault { IfErr result (Names File path.now) }
    {
        match read_whole(alloc, file, READS_MAX) {
            Ok(bytes) => Ok(WholeFile {
                path: String::from_str(alloc, path)?,
                bytes,
            }),
            Err(fault) => Err(Fault::of_reading(alloc, path, fault)),
        }
    }
}

/// Reads the files at `paths` in order, and stops at the first error.
pub fn read_files<R: Files + AllocGlobal>(rt: &R, paths: &[String]) -> Result<Vec<WholeFile>, Fault>
    ensures paths { IfOk result (λ files. map (λ file. string_bytes file.path) files.items
        ≡ map (λ path. string_bytes path) paths.now) }
    ensures bytes { IfOk result (λ files.
        All (λ file. AreOfAFile R.File.remaining file.bytes.items) files.items) }
    ensures fault { IfErr result (NamesOneOf paths.now) }
{
    let mut files = Vec::new(rt.alloc());
    for path in paths {
        let file = WholeFile::read(rt, path.as_str())?;
        files.push(file).map_err(AllocError::from)?;
    }
    Ok(files)
}

/// Returns the contents of each file.
pub fn texts(alloc: Global, files: &[WholeFile]) -> Result<Vec<&[u8]>, AllocError>
    ensures { IfOk result (λ texts.
        map (λ text. text.now) texts.items ≡ map (λ file. file.bytes.items) files.now) }
{
    let mut texts = Vec::new(alloc);
    for file in files {
        texts.push(file.bytes.as_slice())?;
    }
    Ok(texts)
}
