//! Errors that end a program.

ghost use Rattle.std.specs.Prelude.{◌≡◌, ◌⊎◌, None, IfSome, true, false};
ghost use Rattle.std.specs.IoError.{error_kind};
ghost use Rattle.programs.specs.Faults.{BelongsToNoFile, IsForMemory, Names, fault_words};
ghost use Rattle.programs.specs.declared.fault.Fault.TheVariants.{File, Memory, Source, Sources};
ghost use Rattle.programs.specs.declared.fault.Fault.TheVariants.{Image, Overlay};

use crate::reading::ReadFault;
use mj_model::{
    FormatFault, ImageFault, NamedFault, OverlayFault, RunFault, SourceFault, SourceKind,
};
use std::alloc::{AllocError, Global};
use std::io::{self, ErrorKind};
use std::string::String;

/// Why a program ended early.
#[derive(Debug, PartialEq, Eq, Drop)]
pub enum Fault {
    /// The file or directory at this path can't be read or written, or doesn't end.
    File(String),
    /// The source at this path is rejected.
    Source(String, SourceFault),
    /// The sources together are rejected: the error belongs to no file.
    Sources(SourceFault),
    /// The image at this path is rejected.
    Image(String, ImageFault),
    /// The image at this path is valid, but can't be used in its position as system or user
    /// dictionary.
    Overlay(String, OverlayFault),
    /// The format is rejected.
    Format(FormatFault),
    /// Segmenting the text failed, for a reason that is neither `Source` nor `UserSource`.
    Run(RunFault),
    /// Writing to standard output failed.
    Output,
    /// An allocation failed.
    Memory,
}

impl Fault {
    /// Returns the error for a failed call on the file or directory at `path`.
    pub fn of_file(alloc: Global, path: &str, error: &io::Error) -> Fault
        ensures path { Names File path.now result }
        ensures memory { error_kind error.now ≡ ErrorKind.OutOfMemory → result ≡ Memory }
    {
        if error.kind() == ErrorKind::OutOfMemory {
            return Fault::Memory;
        }
        let Ok(path) = String::from_str(alloc, path) else {
            return Fault::Memory;
        };
        Fault::File(path)
    }

    /// Returns the error for a file at `path` whose bytes can't be read.
    pub fn of_reading(alloc: Global, path: &str, fault: ReadFault) -> Fault
        ensures path { Names File path.now result }
        ensures memory { IsForMemory fault → result ≡ Memory }
    {
        let error = match fault {
            ReadFault::Device(error) => error,
            ReadFault::Endless => io::Error::from(ErrorKind::FileTooLarge),
            ReadFault::Memory => io::Error::from(ErrorKind::OutOfMemory),
        };
        Fault::of_file(alloc, path, &error)
    }

    /// Returns the error for the source at `path`, or for the sources together if the error belongs
    /// to no file.
    pub fn of_source(alloc: Global, path: Option<&str>, fault: SourceFault) -> Fault
        ensures source { IfSome path.entry (λ path. (BelongsToNoFile fault.kind → ⊥)
            → Names (λ reported. Source reported fault) path.now result) }
        ensures together { (path.entry ≡ None) ⊎ BelongsToNoFile fault.kind
            → result ≡ Sources fault }
    {
        let (Some(path), true) = (path, belongs_to_a_file(fault.kind)) else {
            return Fault::Sources(fault);
        };
        let Ok(path) = String::from_str(alloc, path) else {
            return Fault::Memory;
        };
        Fault::Source(path, fault)
    }

    /// Returns the error for the image at `path`.
    pub fn of_image(alloc: Global, path: &str, fault: ImageFault) -> Fault
        ensures { Names (λ reported. Image reported fault) path.now result }
    {
        let Ok(path) = String::from_str(alloc, path) else {
            return Fault::Memory;
        };
        Fault::Image(path, fault)
    }

    /// Returns the error for the image at `path` among a system dictionary and its user
    /// dictionaries.
    pub fn of_overlay(alloc: Global, path: &str, fault: OverlayFault) -> Fault
        ensures { Names (λ reported. Overlay reported fault) path.now result }
    {
        let Ok(path) = String::from_str(alloc, path) else {
            return Fault::Memory;
        };
        Fault::Overlay(path, fault)
    }
}

/// Returns whether errors of this kind are printed with the path of a file.
pub(crate) fn belongs_to_a_file(kind: SourceKind) -> bool
    ensures yes { result ≡ true → BelongsToNoFile kind → ⊥ }
    ensures no { result ≡ false → BelongsToNoFile kind }
{
    !matches!(
        kind,
        SourceKind::ArrayFull | SourceKind::FeaturesTooLarge | SourceKind::Memory
    )
}

impl NamedFault for &Fault {
    ghost words_of = { λ fault. fault_words fault.now };

    fn words(self) -> (&'static str, &'static str) {
        match self {
            Fault::File(_) => ("F1", "File"),
            Fault::Source(_, fault) | Fault::Sources(fault) => fault.words(),
            Fault::Image(_, fault) => fault.words(),
            Fault::Overlay(_, fault) => fault.words(),
            Fault::Format(fault) => fault.words(),
            Fault::Run(fault) => fault.words(),
            Fault::Output => ("F2", "Output"),
            Fault::Memory => ("Memory", "Memory"),
        }
    }
}

impl From<AllocError> for Fault {
    ghost from_gives = { λ _ fault. fault ≡ Memory };

    fn from(_error: AllocError) -> Fault {
        Fault::Memory
    }
}
