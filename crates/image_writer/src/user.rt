//! The image of a user dictionary.
ghost use Rattle.std.specs.Prelude.{IfOk, IfErr};
ghost use Rattle.mj_model.specs.Connection.{AreMatrixSizes};
ghost use Rattle.image_writer.specs.WriterErrors.{FullOnlyFor, IsWriterFault, LargeOnlyFor};
ghost use Rattle.image_writer.specs.UserImages.{IsUserImage};

use crate::frame::{section_lengths, write_image};
use crate::lexicon::write_user_lexicon;
use image_format::{DictKind, Header, LAYOUT};
use lex_source::SortedLexicon;
use mj_model::SourceKind;
use std::alloc::Global;

/// Returns the image of a user dictionary for a system dictionary with the sizes of `lexicon`.
/// Frees the entries as soon as their sections are written.
pub fn write_user(alloc: Global, lexicon: SortedLexicon<'_>) -> Result<Vec<u8>, SourceKind>
    requires sizes { AreMatrixSizes lexicon.sizes }
    ensures image { IfOk result (λ image. IsUserImage lexicon.entry.sizes lexicon.entry.rows
        image.items) }

    // The limits are reported only for entries that may exceed them.
    ensures large { IfErr result (LargeOnlyFor lexicon.entry.rows) }
    ensures full { IfErr result (FullOnlyFor lexicon.entry.rows) }
    ensures kinds { IfErr result IsWriterFault }
{
    let sizes = lexicon.sizes();
    let entries = lexicon.records().len();
    let made = write_user_lexicon(alloc, lexicon)?;
    let header = Header {
        layout: LAYOUT,
        kind: DictKind::User,
        sizes,
        categories: 0,
        groups: made.group_count,
        tokens: entries as u32,
        unknown: 0,
        lengths: section_lengths(&[], b"", b"", b"", &made),
    };
    let sections = [
        b"".as_slice(),
        b"",
        b"",
        &made.keys,
        &made.groups,
        &made.tokens,
    ];
    Ok(write_image(alloc, header, &[], &sections, &made.features)?)
}
