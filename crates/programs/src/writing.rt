//! Atomic writing of whole files.

ghost use Rattle.std.specs.Prelude.{IfErr, OnOk};
ghost use Rattle.std.specs.Io.KnownBytes.{Appends};
ghost use Rattle.programs.specs.Faults.{Names};
ghost use Rattle.programs.specs.Writing.{WasAppended};
ghost use Rattle.programs.specs.declared.fault.Fault.TheVariants.{File as OfFile};

use crate::fault::Fault;
use crate::output::write_whole;
use crate::reporter::Reporter;
use std::fs::{self, File, OpenFile, OpenOptions, Permissions};
use std::io::{self, ErrorKind, Write};
use std::os::unix::fs::{OpenOptionsExt, PermissionsExt};
use std::process;
use std::rt::Files;
use std::string::String;

/// Mode of a file that replaces none, before the umask is applied.
const NEW_MODE: u32 = 0o666;

/// The read, write and execute bits of a mode.
const ACCESS_BITS: u32 = 0o777;

/// Writes `bytes` to the file at `path`. An existing file is replaced, and a symbolic link is
/// followed.
///
/// The bytes are written to a new file in the same directory, which is then renamed. A failed call
/// leaves the old file unchanged, and removes the new one if it can. The new file gets the mode of
/// the old one before its first byte, and never has a wider one. Devices and other special files
/// are written in place. A failed write is not retried. If the reporter is interactive, the
/// system's reason for a failure is printed.
pub fn write_file(
    rt: &HostRuntime,
    reporter: &Reporter<'_>,
    path: &str,
    bytes: &[u8],
) -> Result<(), Fault>
    ensures fault { IfErr result (Names OfFile path.now) }
{
    let process = process::id(rt.process());
    match write_file_as(rt, process, path, bytes) {
        Ok(()) => Ok(()),
        Err(error) => {
            reporter.print_reason(path, &error);
            Err(Fault::of_file(rt.alloc(), path, &error))
        }
    }
}

/// Writes a file as `write_file` does, but without a reporter. `process` is part of the name of the
/// new file. Returns the error of the call that failed.
pub fn write_file_as<R: Files + AllocGlobal>(
    rt: &R,
    process: u32,
    path: &str,
    bytes: &[u8],
) -> io::Result<()>
    ensures written { OnOk result (WasAppended R.File.contents bytes.now) }
{
    match fs::metadata(rt, path) {
        Ok(old) if old.is_file() => replace_target(rt, process, path, old.permissions(), bytes),
        Ok(_) => write_device(rt, path, bytes),
        Err(_) => replace(rt, process, path, None, bytes),
    }
}

/// Writes `bytes` in place to a device or another special file.
fn write_device<R: Files>(rt: &R, path: &str, bytes: &[u8]) -> io::Result<()>
    ensures written { OnOk result (WasAppended R.File.contents bytes.now) }
{
    let mut device = File::create(rt, path)?;
    write_whole(&mut device, bytes)
}

/// Replaces the file at `path`, or the file that a symbolic link at `path` leads to.
fn replace_target<R: Files + AllocGlobal>(
    rt: &R,
    process: u32,
    path: &str,
    mode: Permissions,
    bytes: &[u8],
) -> io::Result<()>
    ensures written { OnOk result (WasAppended R.File.contents bytes.now) }
{
    let file = fs::canonicalize(rt, path)?;
    replace(rt, process, file.as_str(), Some(mode), bytes)
}

/// Writes a new file in the directory of `path` and renames it to `path`. Removes the new file if
/// that fails.
fn replace<R: Files + AllocGlobal>(
    rt: &R,
    process: u32,
    path: &str,
    mode: Option<Permissions>,
    bytes: &[u8],
) -> io::Result<()>
    ensures written { OnOk result (WasAppended R.File.contents bytes.now) }
{
    let (beside, mut file) = create_temporary(rt, process, path, access_of(&mode))?;
    let moved = match fill(&mut file, mode, bytes) {
        Ok(()) => fs::rename(rt, beside.as_str(), path),
        Err(error) => Err(error),
    };
    if moved.is_err() {
        let _ = fs::remove_file(rt, beside.as_str());
    }
    moved
}

/// Returns the mode with which the new file is created: the access bits of the old file, or
/// `NEW_MODE`.
fn access_of(old: &Option<Permissions>) -> u32 {
    match old {
        Some(mode) => mode.mode() & ACCESS_BITS,
        None => NEW_MODE,
    }
}

/// Creates a new file in the directory of `path`, under the first free name that contains
/// `process`. Returns its path and the file.
///
/// The name is short, so that the file name in `path` may have all of 255 bytes.
fn create_temporary<R: Files + AllocGlobal>(
    rt: &R,
    process: u32,
    path: &str,
    access: u32,
) -> io::Result<(String, R::File)> {
    let directory = directory_of(path);
    let mut options = OpenOptions::new();
    options.write(true).create_new(true).mode(access);
    for number in 0..u64::MAX {
        let beside = format!(in rt.alloc(); "{directory}/.kumquatsieve.{process}.{number}.new")?;
        match options.open(rt, beside.as_str()) {
            Err(error) if error.kind() == ErrorKind::AlreadyExists => {}
            created => return Ok((beside, created?)),
        }
    }
    Err(io::Error::from(ErrorKind::AlreadyExists))
}

/// Returns the directory of the file at `path` without a final `/`, or `.` if `path` has no `/`.
fn directory_of(path: &str) -> &str {
    match path.rsplit_once('/') {
        Some((directory, _name)) => directory,
        None => ".",
    }
}

/// Sets the mode of a new file again, because the umask may have removed bits, writes its bytes and
/// syncs it.
fn fill<F: Write + OpenFile>(
    file: &mut F,
    mode: Option<Permissions>,
    bytes: &[u8],
) -> io::Result<()>
    ensures written { OnOk result
        (Appends (F.contents file.old) (F.contents file.new) bytes.now) }
{
    if let Some(mode) = mode {
        file.set_permissions(mode)?;
    }
    write_whole(file, bytes)?;
    file.sync_all()
}
