//! Loading dictionaries from image files.

ghost use Rattle.std.specs.Prelude.{◌≡◌, IfErr, IfOk, IfSome, string_bytes};
ghost use Rattle.std.specs.Io.KnownBytes.{IsAtEnd};
ghost use Rattle.image_format.specs.ImageFaults.{IsAccepted};
ghost use Rattle.image_format.specs.declared.digest_test.DigestTest.TheVariants.{Skipped};
ghost use Rattle.programs.specs.Faults.{NamesFileOrImage};
ghost use Rattle.programs.specs.HashedImages.{AgreeOnDigest};
ghost use Rattle.programs.specs.ImageHeads.{IfRejected, IsErrorOrLengthAt, IsLoadError, IsReadHead, IsErrorAt, IsErrorOfAFile, IsRejectedEarly};
ghost use Rattle.programs.specs.LoadedImages.{AreLoaded, IsErrorOfOne};
ghost use Rattle.programs.specs.Reading.{AreOfAFile};
ghost use Rattle.programs.specs.TestRecords.{HoldsForRemaining};

use crate::fault::Fault;
use crate::image_reading::{ImageReadFault, ImageReading, ReadImage, read_image};
use crate::progress::{Progress, ReadProgress};
use crate::test_record::{has_record, remaining_digest_test};
use dict_image::{Dict, DigestTest};
use mj_model::READS_MAX;
use std::alloc::{AllocError, Global};
use std::fs::{self, OpenFile};
use std::io;
use std::rt::Files;
use std::string::String;

/// Loads the dictionary of the image at `path`, with a progress line if standard error is a
/// terminal. The checksum is not tested if the image has a record of its tests.
pub fn load_dictionary(rt: &HostRuntime, path: &str, digest: DigestTest) -> Result<Dict, Fault>
    ensures accepted { IfOk result (λ dict. IsAccepted Skipped dict) }
    ensures fault { IfErr result (NamesFileOrImage path.now) }
{
    let progress = Progress::new(rt);
    let recorded = |path: &str| has_record(rt, path);
    let loaded = dictionary_with_records(rt, path, digest, recorded, &progress);
    progress.erase();
    loaded
}

/// Loads the dictionary of the image at `path` from any file system. The checksum is not tested if
/// `has_record` returns that the image has a record of its tests.
fn dictionary_with_records<R: Files + AllocGlobal, H: Fn(&str) -> bool + Drop>(
    rt: &R,
    path: &str,
    digest: DigestTest,
    has_record: H,
    progress: &Progress<'_>,
) -> Result<Dict, Fault>
    requires { H.IsAlwaysCallable has_record }
    ensures bytes { IfOk result (λ dict. AreOfAFile R.File.remaining dict) }
    // The checksum of an image without a record is tested as requested.
    ensures accepted { IfOk result (λ dict. HoldsForRemaining (H.post has_record) path.now digest
        (λ left. IsAccepted left dict)) }
    ensures rejected { IfErr result (λ fault. HoldsForRemaining (H.post has_record) path.now digest
        (λ left. IsLoadError left R.File.remaining fault)) }
    ensures fault { IfErr result (NamesFileOrImage path.now) }
{
    let remaining = remaining_digest_test(path, digest, has_record);
    dictionary_at(rt, path, remaining, progress)
}

/// Loads the dictionary of the image at `path` from any file system, so that the contract can name
/// the bytes of the file.
///
/// An image with an invalid header, or of another length than its header demands, is rejected with
/// the error of `load_checking`, before memory for the whole is allocated.
pub fn dictionary_at<R: Files + AllocGlobal>(
    rt: &R,
    path: &str,
    digest: DigestTest,
    progress: &Progress<'_>,
) -> Result<Dict, Fault>
    ensures bytes { IfOk result (λ dict. AreOfAFile R.File.remaining dict) }
    ensures accepted { IfOk result (λ dict. IsAccepted digest dict) }
    ensures fault { IfErr result (NamesFileOrImage path.now) }
    ensures rejected { IfErr result (IsLoadError digest R.File.remaining) }
{
    let ImageFile { path, image } = image_at(rt, path, digest, progress)?;
    match image.load(rt.alloc()) {
        Ok(dict) => Ok(dict),
        Err(fault) => Err(Fault::Image(path, fault)),
    }
}

/// Loads the dictionaries of the images at `paths` with `load`, in order, and stops at the first
/// error.
pub fn dictionaries_at<L: Fn(&str, DigestTest) -> Result<Dict, Fault> + Drop>(
    alloc: Global,
    paths: &[String],
    digest: DigestTest,
    load: L,
) -> Result<Vec<Dict>, Fault>
    requires { L.IsAlwaysCallable load }
    // Each dictionary is the result of `load` for its path.
    ensures loaded { IfOk result
        (λ dicts. AreLoaded (L.post load) digest paths.now dicts.items) }
    ensures fault { IfErr result (IsErrorOfOne (L.post load) digest paths.now) }
{
    let mut dicts = Vec::new(alloc);
    for path in paths {
        let dict = load(path.as_str(), digest)?;
        dicts.push(dict).map_err(AllocError::from)?;
    }
    Ok(dicts)
}

/// An image file that was read whole.
#[derive(Drop)]
pub struct ImageFile {
    pub path: String,
    pub image: ReadImage,
}

/// Reads the image at `path` in at most `READS_MAX` reads. Stops after the first bytes if the
/// header or the length is invalid.
pub fn image_at<R: Files + AllocGlobal>(
    rt: &R,
    path: &str,
    digest: DigestTest,
    progress: &Progress<'_>,
) -> Result<ImageFile, Fault>
    ensures path { IfOk result (λ file. string_bytes file.path ≡ path.now) }
    ensures bytes { IfOk result (λ file. AreOfAFile R.File.remaining file.image.bytes.items) }
    // The remaining checksum test and the requested one accept the same images.
    ensures digest { IfOk result (λ file.
        AgreeOnDigest digest file.image.digest file.image.bytes.items) }
    ensures fault { IfErr result (NamesFileOrImage path.now) }
    // An image is rejected only with the error that its bytes have.
    ensures rejected { IfErr result (IsErrorOfAFile R.File.remaining) }
{
    let mut file = match fs::open(rt, path) {
        Ok(file) => file,
        Err(error) => return Err(Fault::of_file(rt.alloc(), path, &error)),
    };
    let known = length_of(&file);
    let reading = ImageReading {
        digest,
        reported: Some(ReadProgress {
            progress,
            path,
            all: known.unwrap_or(0),
        }),
    };
    image_from(rt.alloc(), path, &mut file, known, reading)
}

/// Reads the remainder of a file that was opened at `path` as an image. `known` is the number of
/// remaining bytes, if known.
pub fn image_from<F: io::Read>(
    alloc: Global,
    path: &str,
    file: &mut F,
    known: Option<u64>,
    reading: ImageReading<'_>,
) -> Result<ImageFile, Fault>
    ensures path { IfOk result (λ read. string_bytes read.path ≡ path.now) }
    ensures bytes { IfOk result (λ read.
        IfSome (F.remaining file.old) (λ known. read.image.bytes.items ≡ known)) }
    ensures end { IfOk result (λ _. IsAtEnd (F.remaining file.new)) }
    ensures head { IfOk result (λ read. IsReadHead read.image.bytes.items) }
    ensures digest { IfOk result (λ read.
        AgreeOnDigest reading.entry.digest read.image.digest read.image.bytes.items) }
    ensures fault { IfErr result (NamesFileOrImage path.now) }
    // An image is rejected with the error that `read_image` returns for its bytes.
    ensures rejected { IfErr result (IfRejected (IsErrorAt known (F.remaining file.old))) }
    ensures checked { IfErr result (IfRejected (IsErrorOrLengthAt known (F.remaining file.old))) }
    ensures early { IfErr result
        (IfRejected (IsRejectedEarly (F.remaining file.old) (F.remaining file.new))) }
{
    match read_image(alloc, file, known, READS_MAX, reading) {
        Ok(image) => Ok(ImageFile {
            path: String::from_str(alloc, path)?,
            image,
        }),
        Err(ImageReadFault::Read(fault)) => Err(Fault::of_reading(alloc, path, fault)),
        Err(ImageReadFault::Image(fault)) => Err(Fault::of_image(alloc, path, fault)),
    }
}

/// Returns the length of an opened file in bytes if it is a regular one. Other files don't have a
/// known length.
fn length_of<F: OpenFile>(file: &F) -> Option<u64> {
    match file.metadata() {
        Ok(found) if found.is_file() => Some(found.len()),
        _ => None,
    }
}
