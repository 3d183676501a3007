//! Formats, parsed once.

ghost use Rattle.std.specs.Prelude.{◌≡◌, IsTrue, IfOk, IfErr, map};
ghost use Rattle.out_format.specs.Formats.{IsFormatError, ReadsFormat};
ghost use Rattle.out_format.specs.PrintedPaths.{word_pieces};
ghost use Rattle.out_format.specs.Pieces.{piece_of, pieces_of};
ghost use Rattle.out_format.specs.Plain.{HasPlainWords};
ghost use Rattle.out_format.specs.Texts.{all_alike, texts_of, default_texts, wakati_texts};

use crate::building::PartsBuilder;
use crate::first_piece::NextPiece;
use crate::parsing::parse_part;
use crate::part::Part;
use crate::plain_word::are_plain;
use mj_model::{FormatFault, FormatItem, FormatPart, Origin};
use std::alloc::{AllocError, Global};
use std::marker::Model;

/// How words and lines are printed. (MeCab, format.html)
///
/// The text of each part is parsed once, into runs of bytes and items.
#[derive(Debug, Drop)]
pub struct Format {
    pub(crate) node: Vec<Part>,
    pub(crate) unk: Vec<Part>,
    pub(crate) bos: Vec<Part>,
    pub(crate) eos: Vec<Part>,
}

impl Model for Format {
    ghost use Rattle.out_format.specs.Formats.{Format};

    ghost Value = { Format };

    ghost use Rattle.out_format.specs.Pieces.{pieces_of};

    ghost view = { λ f. record {
      node = pieces_of f.node.items;
      unk = pieces_of f.unk.items;
      bos = pieces_of f.bos.items;
      eos = pieces_of f.eos.items;
    } };
}

impl Format {
    /// Parses the texts of the four parts. Unknown words use `node` if `unk` is `None`.
    ///
    /// The parts are parsed in the order of `FormatPart`. An error names the part and the offset,
    /// in bytes, of the first invalid piece. (Items and escapes are MeCab's; what is rejected is
    /// this project's own choice)
    pub fn parse(
        alloc: Global,
        node: &str,
        unk: Option<&str>,
        bos: &str,
        eos: &str,
    ) -> Result<Format, FormatFault>
        ensures accepted { IfOk result (ReadsFormat (texts_of node.now unk.entry bos.now eos.now)) }
        ensures rejected { IfErr result (IsFormatError
            (texts_of node.now unk.entry bos.now eos.now)) }
    {
        let node_parts = parse_part(alloc, node, FormatPart::Node)?;
        let unk_parts = parse_part(alloc, unk.unwrap_or(node), FormatPart::Unk)?;
        let bos_parts = parse_part(alloc, bos, FormatPart::Bos)?;
        let eos_parts = parse_part(alloc, eos, FormatPart::Eos)?;
        Ok(Format {
            node: node_parts,
            unk: unk_parts,
            bos: bos_parts,
            eos: eos_parts,
        })
    }

    /// Returns the default format: a line of surface, tab and feature for each word, and a line
    /// EOS. (MeCab)
    pub fn default_of(alloc: Global) -> Result<Format, AllocError>
        ensures { IfOk result (ReadsFormat default_texts) }
    {
        let line = [
            NextPiece::Item(FormatItem::Surface),
            NextPiece::Byte(b'\t'),
            NextPiece::Item(FormatItem::Feature),
            NextPiece::Byte(b'\n'),
        ];
        let end = [
            NextPiece::Byte(b'E'),
            NextPiece::Byte(b'O'),
            NextPiece::Byte(b'S'),
            NextPiece::Byte(b'\n'),
        ];
        for_all_words(alloc, &line, &end)
    }

    /// Returns the wakati format: each surface and a blank after it, and a line feed. (MeCab)
    pub fn wakati(alloc: Global) -> Result<Format, AllocError>
        ensures { IfOk result (ReadsFormat wakati_texts) }
    {
        let word = [NextPiece::Item(FormatItem::Surface), NextPiece::Byte(b' ')];
        for_all_words(alloc, &word, &[NextPiece::Byte(b'\n')])
    }
}

impl Format {
    /// Returns the part for a word of this origin.
    pub(crate) fn word_parts(&self, origin: Origin) -> &[Part]
        ensures { pieces_of result.now ≡ word_pieces self.now origin }
    {
        match origin {
            Origin::Known { .. } => &self.node,
            Origin::Unknown { .. } => &self.unk,
        }
    }

    /// Returns whether the words print nothing but their surfaces and features.
    pub(crate) fn has_plain_words(&self) -> bool
        ensures { IsTrue result → HasPlainWords self.now }
    {
        are_plain(&self.node) && are_plain(&self.unk)
    }

    /// Returns the part before the first word.
    pub(crate) fn bos_parts(&self) -> &[Part]
        ensures { pieces_of result.now ≡ self.now.bos }
    {
        &self.bos
    }

    /// Returns the part after the last word.
    pub(crate) fn eos_parts(&self) -> &[Part]
        ensures { pieces_of result.now ≡ self.now.eos }
    {
        &self.eos
    }
}

/// Returns a format that prints known and unknown words alike, and nothing before the first word.
fn for_all_words(alloc: Global, word: &[NextPiece], end: &[NextPiece]) -> Result<Format, AllocError>
    ensures { IfOk result (λ format. format
        ≡ all_alike (map piece_of word.now) (map piece_of end.now)) }
{
    Ok(Format {
        node: parts_of(alloc, word)?,
        unk: parts_of(alloc, word)?,
        bos: Vec::new(alloc),
        eos: parts_of(alloc, end)?,
    })
}

/// Joins `pieces` into parts.
fn parts_of(alloc: Global, pieces: &[NextPiece]) -> Result<Vec<Part>, AllocError>
    ensures { IfOk result (λ parts. pieces_of parts.items ≡ map piece_of pieces.now) }
{
    let mut parts = PartsBuilder::new(alloc);
    for piece in pieces {
        parts.push(*piece)?;
    }
    parts.finish()
}
