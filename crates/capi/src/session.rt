//! The contents of a handle: a segmenter and its output buffer.

ghost use Rattle.std.specs.Prelude.{◌≡◌, IfOk, IfErr, OnOk, OnErr};
ghost use Rattle.line_segmenter.specs.Faults.{IsLoadError, PassesTestsBeforeKeys};
ghost use Rattle.line_segmenter.specs.declared.fault.SegmentFault.TheVariants.{Memory};
ghost use Rattle.line_segmenter.specs.Trusted.{IsTrusted};
ghost use Rattle.image_format.specs.declared.digest_test.DigestTest.TheVariants.{Verified};
ghost use Rattle.capi.specs.Calls.{IsExtended, IsLoadedFrom, IsShared, IsUserFault};

use image_format::borrowed::ImageBytes;
use line_segmenter::{DigestTest, SegmentFault, Segmenter};
use std::alloc::Global;

/// A segmenter, and the buffer for outputs that C borrows.
#[derive(Drop)]
pub struct Session {
    pub segmenter: Segmenter,
    pub output: Vec<u8>,
}

impl Session {
    /// Loads the image of a system dictionary into a new session. `digest` selects whether the
    /// checksum is verified.
    pub fn over(
        alloc: Global,
        image: ImageBytes,
        digest: DigestTest,
    ) -> Result<Box<Session>, SegmentFault>
        ensures loaded { IfOk result
            (λ session. IsLoadedFrom digest image session.value.segmenter) }
        ensures rejected { IfErr result (IsLoadError digest image) }
        // Nothing is allocated unless the image passes the checks before those of the keys.
        ensures out_of_memory { IfErr result
            (λ fault. fault ≡ Memory → PassesTestsBeforeKeys digest image) }
    {
        Session::of(alloc, Segmenter::load(alloc, image, digest)?)
    }

    /// Loads an intact image of a system dictionary into a new session, without its checks.
    pub fn over_trusted(alloc: Global, image: ImageBytes) -> Result<Box<Session>, SegmentFault>
        requires { IsTrusted image }
        ensures loaded { IfOk result
            (λ session. IsLoadedFrom Verified image session.value.segmenter) }
        ensures rejected { IfErr result (IsLoadError Verified image) }
    {
        Session::of(alloc, Segmenter::load_trusted(alloc, image)?)
    }

    /// Returns a session of `segmenter` with an empty buffer.
    fn of(alloc: Global, segmenter: Segmenter) -> Result<Box<Session>, SegmentFault>
        ensures of { IfOk result (λ session. session.value.segmenter ≡ segmenter) }
        ensures rejected { IfErr result (λ fault. fault ≡ Memory) }
    {
        let output = Vec::new(alloc);
        Ok(Box::new(alloc, Session { segmenter, output })?)
    }

    /// Returns another session that shares the dictionaries and the format.
    pub fn share(&self, alloc: Global) -> Result<Box<Session>, SegmentFault>
        ensures shared { IfOk result (λ other. IsShared self.now.segmenter other.value.segmenter) }
        ensures rejected { IfErr result (λ fault. fault ≡ Memory) }
    {
        Session::of(alloc, self.segmenter.share()?)
    }

    /// Adds a user dictionary. The image is moved in or borrowed, not copied.
    pub fn add_owned_user(
        &mut self,
        image: ImageBytes,
        digest: DigestTest,
    ) -> Result<(), SegmentFault>
        ensures added { OnOk result
            (IsExtended digest image self.old.segmenter self.new.segmenter) }
        ensures rejected { IfErr result (IsUserFault digest image self.old.segmenter) }
        ensures out_of_memory { IfErr result
            (λ fault. fault ≡ Memory → PassesTestsBeforeKeys digest image) }
        ensures unchanged { OnErr result (self.new.segmenter ≡ self.old.segmenter) }
    {
        self.segmenter.add_user(image, digest)
    }

    /// Adds a user dictionary whose image is intact, without the checks of the image.
    pub fn add_trusted_user(&mut self, image: ImageBytes) -> Result<(), SegmentFault>
        requires { IsTrusted image }
        ensures added { OnOk result
            (IsExtended Verified image self.old.segmenter self.new.segmenter) }
        ensures rejected { IfErr result (IsUserFault Verified image self.old.segmenter) }
        ensures unchanged { OnErr result (self.new.segmenter ≡ self.old.segmenter) }
    {
        self.segmenter.add_trusted_user(image)
    }
}
