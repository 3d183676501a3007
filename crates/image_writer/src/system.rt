//! The image of a system dictionary.
ghost use Rattle.std.specs.Prelude.{◌≡◌, [], length, IfOk, IfErr};
ghost use Rattle.char_def.specs.Outside.{all_lines_outside};
ghost use Rattle.image_writer.specs.Entries.{all_rows};
ghost use Rattle.image_writer.specs.WriterErrors.{FullOnlyFor, IsWriterFault, LargeOnlyFor};
ghost use Rattle.image_writer.specs.SystemImages.{IsSystemImage};

use crate::categories::write_categories;
use crate::frame::{section_lengths, write_image};
use crate::lexicon::write_lexicon;
use crate::lexicon_bytes::LexiconBytes;
use crate::ranges::write_ranges;
use crate::unknown_index::{unknown_count, write_unknown_index};
use char_def::{CharTable, UnkTable};
use image_format::{DictKind, Header, LAYOUT};
use lex_source::SortedLexicon;
use matrix_def::Matrix;
use mj_model::SourceKind;
use std::alloc::Global;

/// Returns the image of a system dictionary. Frees the entries as soon as their sections are
/// written.
pub fn write_system<'a>(
    alloc: Global,
    matrix: &Matrix,
    chars: &CharTable,
    unknown: &UnkTable<'a>,
    lexicon: SortedLexicon<'a>,
) -> Result<Vec<u8>, SourceKind>
    requires sizes { lexicon.sizes ≡ matrix.now.sizes }
    requires categories { length unknown.now ≡ length chars.now.categories }
    requires ids { all_lines_outside matrix.now.sizes unknown.now ≡ [] }
    ensures image { IfOk result (λ image. IsSystemImage matrix.now chars.now unknown.now
        lexicon.entry.rows image.items) }

    // The limits are reported only for entries that may exceed them.
    ensures large { IfErr result (LargeOnlyFor (all_rows lexicon.entry.rows unknown.now)) }
    ensures full { IfErr result (FullOnlyFor lexicon.entry.rows) }
    ensures kinds { IfErr result IsWriterFault }
{
    let count = chars.count();
    let entries = lexicon.records().len();
    let made = write_lexicon(alloc, lexicon, unknown)?;
    let costs = matrix.costs();
    let categories = write_categories(alloc, chars)?;
    let ranges = write_ranges(alloc, chars)?;
    let index = write_unknown_index(alloc, unknown, entries)?;
    let lengths = section_lengths(costs, &categories, &ranges, &index, &made);
    let LexiconBytes {
        keys,
        groups,
        tokens,
        features,
        group_count,
        ..
    } = made;
    let header = Header {
        layout: LAYOUT,
        kind: DictKind::System,
        sizes: matrix.sizes(),
        categories: count as u32,
        groups: group_count,
        tokens: entries as u32,
        unknown: unknown_count(unknown) as u32,
        lengths,
    };
    let sections = [
        categories.as_slice(),
        &ranges,
        &index,
        &keys,
        &groups,
        &tokens,
    ];
    Ok(write_image(alloc, header, costs, &sections, &features)?)
}
