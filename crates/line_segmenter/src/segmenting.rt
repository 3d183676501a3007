//! Segments lines and texts, and returns words, costs and features of the last one. The methods
//! that read the last one fail with `NothingSegmented` if there is none.

ghost use Rattle.std.specs.Prelude.{◌≡◌, ◌+◌, ◌<◌, ◌≤◌, ◌++◌, length, vec_capacity, vec_len, Some, Err, IfOk, IfErr, OnOk, OnErr};
ghost use Rattle.line_segmenter.specs.Segmenters.{GrowsByFeature, HasCategory, FeatureExceedsCapacity, IsSegmentedOver, IsLatticeOfLastLine, OfLastLine, PrintsLastLine, overlay_of_state};
ghost use Rattle.line_segmenter.specs.Faults.{IsFeatureError, IsLineError, IsNothingSegmented, IsOneLine, IsLastLineError, IsTextError, IsWordError};
ghost use Rattle.line_segmenter.specs.LastLines.{borrowed_line};
ghost use Rattle.line_segmenter.specs.declared.fault.SegmentFault.TheVariants.{Memory};
ghost use Rattle.line_segmenter.specs.PathEnds.{AreLast, GrowsByFeatures, FeaturesExceedCapacity};
ghost use Rattle.line_stream.specs.GoodLines.{IsGood};
ghost use Rattle.mj_model.specs.Lists.{GrowsBy};
ghost use Rattle.mj_model.specs.Printed.{feature_of};
ghost use Rattle.mj_model.specs.declared.limits.TheConstants.{GROUPING_MAX as GroupingMax};

use crate::categories::category_at;
use crate::fault::SegmentFault;
use crate::features::{append_feature_of, append_features};
use crate::last_words::LastWords;
use crate::segmenter::Segmenter;
use lattice::{MarkedLattice, marked_lattice};
use line_stream::text_of;
use memchr::memchr;
use mj_model::paths::Path;
use mj_model::{Origin, Word};
use out_format::print;

impl Segmenter {
    /// Segments `line`, which must not contain an LF, into the words of its best path. Fails with
    /// `LineFeed`, `TooLong`, `NotUtf8` or `Memory`; the last line then stays.
    pub fn segment(&mut self, line: &[u8]) -> Result<(), SegmentFault>
        ensures best { OnOk result (OfLastLine self.new (λ c. c.text ≡ line.now)) }
        ensures others { self.new ≡ record self.old { segmented = self.new.segmented } }
        ensures one_line { OnOk result (IsOneLine line.now) }
        ensures accepted { OnOk result (IsGood line.now) }
        ensures rejected { IfErr result (IsLineError line.now) }
        ensures unchanged { OnErr result (self.new ≡ self.old) }
    {
        if let Some(place) = memchr(b'\n', line) {
            return Err(SegmentFault::LineFeed(place));
        }
        self.segment_whole(line)
    }

    /// Segments `text` as one line. An LF in it is a character like any other. Fails with
    /// `TooLong`, `NotUtf8` or `Memory`; the last line then stays.
    pub fn segment_whole(&mut self, text: &[u8]) -> Result<(), SegmentFault>
        ensures best { OnOk result (OfLastLine self.new (λ c. c.text ≡ text.now)) }
        ensures others { self.new ≡ record self.old { segmented = self.new.segmented } }
        ensures accepted { OnOk result (IsGood text.now) }
        ensures rejected { IfErr result (IsTextError text.now) }
        ensures unchanged { OnErr result (self.new ≡ self.old) }
    {
        let text = text_of(text)?;
        let dictionaries = self.dictionaries.with_grouping(self.grouping);
        self.last.segment(&dictionaries, text)?;
        Ok(())
    }

    /// Returns the text that was segmented last.
    pub fn text(&self) -> Result<&str, SegmentFault>
        ensures text { IfOk result (λ text. OfLastLine self.now (λ c. text.now ≡ c.text)) }
        ensures none { IfErr result (IsNothingSegmented self.now) }
    {
        Ok(self.last_line()?.0)
    }

    /// Returns the words of the last text's best path.
    pub fn words(&self) -> Result<&[Word], SegmentFault>
        ensures words { IfOk result (λ words. OfLastLine self.now (λ c. words.now ≡ c.words)) }
        ensures none { IfErr result (IsNothingSegmented self.now) }
    {
        Ok(&self.last_line()?.1.words)
    }

    /// Returns the words of the last text's best path, with the text and the dictionaries.
    pub fn last_words(&self) -> Result<LastWords<'_>, SegmentFault>
        ensures words { IfOk result (λ last. OfLastLine self.now (AreLast self.now last)) }
        ensures none { IfErr result (IsNothingSegmented self.now) }
    {
        let (text, path) = self.last_line()?;
        let dictionaries = self.dictionaries.with_grouping(self.grouping);
        Ok(LastWords {
            dictionaries,
            text,
            words: &path.words,
        })
    }

    /// Returns the lattice of the last text, with the nodes on the best path marked. Each call
    /// builds it anew.
    pub fn lattice(&self) -> Result<MarkedLattice, SegmentFault>
        ensures lattice { IfOk result
            (λ lattice. OfLastLine self.now (IsLatticeOfLastLine self.now lattice)) }
        ensures rejected { IfErr result (IsLastLineError self.now) }
    {
        let (text, path) = self.last_line()?;
        let dictionaries = self.dictionaries.with_grouping(self.grouping);
        let lattice = marked_lattice(self.alloc, &dictionaries, text, &path.words)?;
        Ok(lattice)
    }

    /// Returns the cost of the last text's best path.
    pub fn total(&self) -> Result<i64, SegmentFault>
        ensures total { IfOk result (λ total. OfLastLine self.now (λ c. total ≡ c.total)) }
        ensures none { IfErr result (IsNothingSegmented self.now) }
    {
        Ok(self.last_line()?.1.total)
    }

    /// Appends the feature of word `i` of the last path, counted from 0. Fails with `NoWord` if
    /// there is no such word, and with `Memory` only if the capacity of `out` is too small.
    pub fn append_feature(&self, i: usize, out: &mut Vec<u8>) -> Result<(), SegmentFault>
        ensures appended { OnOk result
            (OfLastLine self.now (GrowsByFeature self.now i out.old.items out.new.items)) }
        ensures rejected { IfErr result (IsFeatureError self.now i) }
        ensures full { result ≡ Err Memory → OfLastLine self.now
            (FeatureExceedsCapacity self.now i (vec_capacity out.old) (vec_len out.old)) }
        ensures unchanged { OnErr result (out.new.items ≡ out.old.items) }
    {
        let (_, path) = self.last_line()?;
        let Some(word) = path.words.get(i) else {
            return Err(SegmentFault::NoWord(i));
        };
        let dictionaries = self.dictionaries.with_grouping(self.grouping);
        out.extend_from_slice(dictionaries.feature(word).as_bytes())?;
        Ok(())
    }

    /// Appends the features of all words of the last path, concatenated. Memory can only run out if
    /// the capacity of `out` is too small.
    pub fn append_features(&self, out: &mut Vec<u8>) -> Result<(), SegmentFault>
        ensures appended { OnOk result
            (OfLastLine self.now (GrowsByFeatures self.now out.old.items out.new.items)) }
        ensures rejected { IfErr result (IsLastLineError self.now) }
        ensures full { result ≡ Err Memory → OfLastLine self.now
            (FeaturesExceedCapacity self.now (vec_capacity out.old) (vec_len out.old)) }
        ensures unchanged { OnErr result (out.new.items ≡ out.old.items) }
    {
        let (_, path) = self.last_line()?;
        let dictionaries = self.dictionaries.with_grouping(self.grouping);
        append_features(&dictionaries, &path.words, out)?;
        Ok(())
    }

    /// Appends the feature of the entry `origin` of the dictionaries, or nothing if there is no
    /// such entry. Memory can only run out if the capacity of `out` is too small.
    pub fn append_entry_feature(
        &self,
        origin: Origin,
        out: &mut Vec<u8>,
    ) -> Result<(), SegmentFault>
        ensures appended { OnOk result
            (out.new.items ≡ out.old.items ++ feature_of (overlay_of_state self.now) origin) }
        ensures rejected { IfErr result (λ fault. fault ≡ Memory) }
        ensures full { OnErr result (vec_capacity out.old
            < vec_len out.old + length (feature_of (overlay_of_state self.now) origin)) }
        ensures unchanged { OnErr result (out.new.items ≡ out.old.items) }
    {
        let dictionaries = self.dictionaries.with_grouping(self.grouping);
        append_feature_of(&dictionaries, origin, out)?;
        Ok(())
    }

    /// Returns the number of the first category of the first character of word `i` (MeCab's
    /// `char_type`). Categories are numbered from 0 in the order of `char.def`. Fails with `NoWord`
    /// if there is no such word.
    pub fn category(&self, i: usize) -> Result<u8, SegmentFault>
        ensures category { IfOk result
            (λ category. OfLastLine self.now (HasCategory self.now i category)) }
        ensures rejected { IfErr result (IsWordError self.now i) }
    {
        let (text, path) = self.last_line()?;
        let Some(word) = path.words.get(i) else {
            return Err(SegmentFault::NoWord(i));
        };
        let dictionaries = self.dictionaries.with_grouping(self.grouping);
        Ok(category_at(&dictionaries, text, word.start))
    }

    /// Appends the output of the last path in the segmenter's format.
    pub fn print(&self, out: &mut Vec<u8>) -> Result<(), SegmentFault>
        ensures appended { OnOk result
            (OfLastLine self.now
            (λ c. GrowsBy (PrintsLastLine self.now c) out.old.items out.new.items)) }
        ensures rejected { IfErr result (IsLastLineError self.now) }
        ensures unchanged { OnErr result (out.new.items ≡ out.old.items) }
    {
        let (text, path) = self.last_line()?;
        let dictionaries = self.dictionaries.with_grouping(self.grouping);
        print(self.alloc, &self.format, &dictionaries, text, path, out)?;
        Ok(())
    }

    /// Returns the last text and its path.
    fn last_line(&self) -> Result<(&str, &Path), SegmentFault>
        ensures segmented { IfOk result
            (λ borrowed. (self.now.segmented ≡ Some (borrowed_line borrowed))
            × IsSegmentedOver (overlay_of_state self.now) (borrowed_line borrowed)) }
        ensures low { self.now.grouping ≤ GroupingMax }
        ensures none { IfErr result (IsNothingSegmented self.now) }
    {
        self.last.get().ok_or(SegmentFault::NothingSegmented)
    }
}
