//! The segmenter: dictionaries, a format and the buffers of the search.

ghost use Rattle.std.specs.Prelude.{◌≡◌, ◌≤◌, [], None, IfOk, IfErr, OnOk, OnErr};
ghost use Rattle.line_segmenter.specs.Segmenters.{FitTogether, IsLoaded, IsNew, with_added};
ghost use Rattle.line_segmenter.specs.Faults.{IsSetFormatError, IsGroupingError, IsImage, IsLoadError, IsAddUserError, PassesTestsBeforeKeys};
ghost use Rattle.line_segmenter.specs.declared.fault.SegmentFault.TheVariants.{Memory};
ghost use Rattle.line_segmenter.specs.Trusted.{IsTrusted};
ghost use Rattle.image_format.specs.declared.digest_test.DigestTest.TheVariants.{Verified};
ghost use Rattle.mj_model.specs.declared.limits.TheConstants.{GROUPING_MAX as GroupingMax};
ghost use Rattle.out_format.specs.Formats.{ReadsFormat};
ghost use Rattle.out_format.specs.Texts.{texts_of};
ghost use Rattle.word_lookup.specs.Overlays.{fault_of_images};

use crate::fault::SegmentFault;
use crate::last_line::LastLine;
use crate::owned_dictionaries::OwnedDictionaries;
use dict_image::DigestTest;
use image_format::borrowed::ImageBytes;
use mj_model::{GROUPING_DEFAULT, GROUPING_MAX};
use out_format::Format;
use std::alloc::{AllocError, Global};
use std::marker::Model;
use std::sync::Arc;

/// Segments lines into words, and reuses its buffers from line to line.
///
/// Segmenters on different threads may share one set of dictionaries.
#[derive(Drop)]
pub struct Segmenter {
    pub(crate) alloc: Global,
    pub(crate) dictionaries: Arc<OwnedDictionaries>,
    pub(crate) grouping: u16,
    pub(crate) format: Arc<Format>,
    pub(crate) last: LastLine,
}

impl Model for Segmenter {
    ghost use Rattle.std.specs.Arc.{arc_value};
    ghost use Rattle.line_segmenter.specs.Segmenters.{SegmenterState, IsSegmenterState};

    ghost Value = { SegmenterState };

    ghost view = { λ c. record {
      images = arc_value c.dictionaries;
      grouping = c.grouping;
      format = arc_value c.format;
      segmented = c.last;
    } };

    ghost invariant = { λ c. IsSegmenterState (record {
      images = arc_value c.dictionaries;
      grouping = c.grouping;
      format = arc_value c.format;
      segmented = c.last;
    }) };
}

impl Segmenter {
    /// Returns a segmenter with the image of a system dictionary, a grouping of 24 characters and
    /// MeCab's default format.
    ///
    /// `digest` selects whether the checksum is verified. Fails with `Image` if the image is
    /// invalid, with `Overlay` if it is a user dictionary, and with `Memory` if an allocation
    /// fails.
    #[tactic(auto, using(crate::proofs::OutOfMemoryLemmas::passes))]
    pub fn load(
        alloc: Global,
        image: ImageBytes,
        digest: DigestTest,
    ) -> Result<Segmenter, SegmentFault>
        ensures loaded { IfOk result (IsLoaded image) }
        ensures accepted { OnOk result (IsImage digest image) }
        ensures fits { OnOk result (fault_of_images image [] ≡ None) }
        ensures rejected { IfErr result (IsLoadError digest image) }
        // Nothing is allocated unless the image passes the checks before those of the keys.
        ensures out_of_memory { IfErr result
            (λ fault. fault ≡ Memory → PassesTestsBeforeKeys digest image) }
    {
        Ok(Segmenter::over(alloc, OwnedDictionaries::load(alloc, image, digest)?)?)
    }

    /// Returns a segmenter with the image of a system dictionary, a grouping of 24 characters and
    /// MeCab's default format. The image must be intact and of the newest layout; its bytes are not
    /// tested. Fails with `Overlay` if it is a user dictionary, and with `Memory` if an allocation
    /// fails.
    pub fn load_trusted(alloc: Global, image: ImageBytes) -> Result<Segmenter, SegmentFault>
        requires { IsTrusted image }
        ensures loaded { IfOk result (IsLoaded image) }
        ensures accepted { OnOk result (IsImage Verified image) }
        ensures fits { OnOk result (fault_of_images image [] ≡ None) }
        ensures rejected { IfErr result (IsLoadError Verified image) }
    {
        Ok(Segmenter::over(alloc, OwnedDictionaries::load_trusted(alloc, image)?)?)
    }

    /// Returns a segmenter with `dictionaries`, the default grouping and the default format,
    /// without a last line.
    fn over(alloc: Global, dictionaries: OwnedDictionaries) -> Result<Segmenter, AllocError>
        ensures { IfOk result (IsNew dictionaries) }
    {
        let format = Format::default_of(alloc)?;
        Ok(Segmenter {
            alloc,
            dictionaries: Arc::new(alloc, dictionaries)?,
            grouping: GROUPING_DEFAULT,
            format: Arc::new(alloc, format)?,
            last: LastLine::none(alloc),
        })
    }

    /// Returns another segmenter, for another thread for example, that shares dictionaries and
    /// format. Neither is copied. It has the same grouping, and no last line.
    pub fn share(&self) -> Result<Segmenter, AllocError>
        ensures { IfOk result (λ other. other ≡ record self.now { segmented = None }) }
    {
        Ok(Segmenter {
            alloc: self.alloc,
            dictionaries: self.dictionaries.clone()?,
            grouping: self.grouping,
            format: self.format.clone()?,
            last: LastLine::none(self.alloc),
        })
    }

    /// Loads the image of a user dictionary, adds it after the others, and removes the last line.
    ///
    /// `digest` selects whether the checksum is verified. Fails with `Shared` if another segmenter
    /// shares the dictionaries, with `Image` if the image is invalid, with `Overlay` if it does not
    /// fit the others, and with `Memory` if an allocation fails. On an error nothing changes.
    pub fn add_user(&mut self, image: ImageBytes, digest: DigestTest) -> Result<(), SegmentFault>
        ensures added { OnOk result (self.new ≡ with_added self.old image) }
        ensures accepted { OnOk result (IsImage digest image) }
        ensures fits { OnOk result (FitTogether self.new.images) }
        ensures rejected { IfErr result (IsAddUserError digest self.old.images image) }
        ensures out_of_memory { IfErr result
            (λ fault. fault ≡ Memory → PassesTestsBeforeKeys digest image) }
        ensures unchanged { OnErr result (self.new ≡ self.old) }
    {
        let Some(dictionaries) = Arc::get_mut(&mut self.dictionaries) else {
            return Err(SegmentFault::Shared);
        };
        dictionaries.add(self.alloc, image, digest)?;
        self.last.reset();
        Ok(())
    }

    /// Adds the image of a user dictionary after the others, and removes the last line. The image
    /// must be intact and of the newest layout; its bytes are not tested. Fails with `Shared` if
    /// another segmenter shares the dictionaries, with `Overlay` if the image does not fit the
    /// others, and with `Memory` if an allocation fails. On an error nothing changes.
    pub fn add_trusted_user(&mut self, image: ImageBytes) -> Result<(), SegmentFault>
        requires { IsTrusted image }
        ensures added { OnOk result (self.new ≡ with_added self.old image) }
        ensures accepted { OnOk result (IsImage Verified image) }
        ensures fits { OnOk result (FitTogether self.new.images) }
        ensures rejected { IfErr result (IsAddUserError Verified self.old.images image) }
        ensures unchanged { OnErr result (self.new ≡ self.old) }
    {
        let Some(dictionaries) = Arc::get_mut(&mut self.dictionaries) else {
            return Err(SegmentFault::Shared);
        };
        dictionaries.add_trusted(self.alloc, image)?;
        self.last.reset();
        Ok(())
    }

    /// Sets the format of `print` and `parse_lines` by the texts of MeCab's node, unknown word, BOS
    /// and EOS formats. Unknown words use `node` if `unk` is `None`. The last line stays.
    ///
    /// Fails with `Format` if a text is invalid, and with `Memory` if an allocation fails. On an
    /// error nothing changes.
    pub fn set_format(
        &mut self,
        node: &str,
        unk: Option<&str>,
        bos: &str,
        eos: &str,
    ) -> Result<(), SegmentFault>
        ensures read { OnOk result
            (ReadsFormat (texts_of node.now unk.entry bos.now eos.now) self.new.format) }
        ensures others { self.new ≡ record self.old { format = self.new.format } }
        ensures rejected { IfErr result
            (IsSetFormatError (texts_of node.now unk.entry bos.now eos.now)) }
        ensures unchanged { OnErr result (self.new ≡ self.old) }
    {
        let format = Format::parse(self.alloc, node, unk, bos, eos)?;
        self.format = Arc::new(self.alloc, format)?;
        Ok(())
    }

    /// Sets the number of characters that may follow the first one of a grouped unknown word, and
    /// removes the last line. Fails with `BadGrouping`, and changes nothing, if `grouping` is
    /// greater than `GROUPING_MAX`.
    pub fn set_grouping(&mut self, grouping: u16) -> Result<(), SegmentFault>
        ensures set { OnOk result
            (self.new ≡ record self.old { grouping = grouping; segmented = None }) }
        ensures accepted { OnOk result (grouping ≤ GroupingMax) }
        ensures rejected { IfErr result (IsGroupingError grouping) }
        ensures unchanged { OnErr result (self.new ≡ self.old) }
    {
        if grouping > GROUPING_MAX {
            return Err(SegmentFault::BadGrouping);
        }
        self.grouping = grouping;
        self.last.reset();
        Ok(())
    }
}
