//! The sections of an image that hold a lexicon.
ghost use Rattle.std.specs.Prelude.{◌≡◌, List, [], IfOk, IfErr, OnOk};
ghost use Rattle.mj_model.specs.Lexicon.{Row};
ghost use Rattle.image_writer.specs.Entries.{all_rows};
ghost use Rattle.image_writer.specs.WriterErrors.{FullOnlyFor, IsTokenFault, IsWriterFault, LargeOnlyFor};
ghost use Rattle.image_writer.specs.FirstUses.{AreNumbered, features_used};
ghost use Rattle.image_writer.specs.Sections.{AreKeyBytes, AreSections, AreTokenBytes, AreWritten, features_of};

use crate::feature_use::FeatureUse;
use crate::first_uses::{append_uses, first_uses};
use crate::keys::{KeyBytes, write_keys};
use crate::lexicon_bytes::LexiconBytes;
use crate::token_bytes::TokenBytes;
use crate::tokens::TokenWriter;
use crate::unknown_index::unknown_count;
use char_def::UnkTable;
use lex_source::SortedLexicon;
use mj_model::SourceKind;
use std::alloc::{AllocError, Global};

/// Returns the sections of a system dictionary's lexicon and of the unknown entries of all
/// categories.
///
/// The tokens of the unknown entries follow those of the lexicon, category by category. (The layout
/// is this project's own.)
pub(crate) fn write_lexicon<'a>(
    alloc: Global,
    lexicon: SortedLexicon<'a>,
    unknown: &UnkTable<'a>,
) -> Result<LexiconBytes<'a>, SourceKind>
    ensures sections { IfOk result (AreSections lexicon.entry.rows unknown.now) }

    // The limits are reported only for entries that may exceed them.
    ensures large { IfErr result (LargeOnlyFor (all_rows lexicon.entry.rows unknown.now)) }
    ensures full { IfErr result (FullOnlyFor lexicon.entry.rows) }
    ensures kinds { IfErr result IsWriterFault }
{
    let keys = write_keys(alloc, &lexicon)?;
    let uses = feature_uses(alloc, &lexicon, unknown)?;
    let firsts = first_uses(alloc, uses)?;
    let mut writer = TokenWriter::new(alloc, firsts)?;
    writer.add_all(lexicon.records())?;
    add_unknown(&mut writer, unknown)?;
    Ok(sections(keys, writer.into_bytes()))
}

/// Returns the sections of a user dictionary's lexicon.
pub(crate) fn write_user_lexicon<'a>(
    alloc: Global,
    lexicon: SortedLexicon<'a>,
) -> Result<LexiconBytes<'a>, SourceKind>
    ensures sections { IfOk result (AreSections lexicon.entry.rows []) }

    // The limits are reported only for entries that may exceed them.
    ensures large { IfErr result (LargeOnlyFor lexicon.entry.rows) }
    ensures full { IfErr result (FullOnlyFor lexicon.entry.rows) }
    ensures kinds { IfErr result IsWriterFault }
{
    let keys = write_keys(alloc, &lexicon)?;
    let records = lexicon.records();
    let mut uses = Vec::with_capacity(alloc, records.len())?;
    append_uses(records, &mut uses)?;
    let firsts = first_uses(alloc, uses)?;
    let mut writer = TokenWriter::new(alloc, firsts)?;
    writer.add_all(records)?;
    Ok(sections(keys, writer.into_bytes()))
}

/// Combines the keys and the tokens.
fn sections<'a>(keys: KeyBytes, tokens: TokenBytes<'a>) -> LexiconBytes<'a>
    ensures { (lexicon : List Row) → (unknown : List (List Row)) → AreKeyBytes lexicon keys
        → AreTokenBytes (all_rows lexicon unknown) tokens.entry
        → AreSections lexicon unknown result }
{
    LexiconBytes {
        keys: keys.cells,
        groups: keys.index,
        tokens: tokens.tokens,
        features: tokens.features,
        feature_size: tokens.feature_size,
        group_count: keys.groups,
    }
}

/// Returns the uses of the features of all entries, in the order of their tokens.
fn feature_uses<'a>(
    alloc: Global,
    lexicon: &SortedLexicon<'a>,
    unknown: &UnkTable<'a>,
) -> Result<Vec<FeatureUse<'a>>, AllocError>
    ensures numbered { IfOk result (λ uses. AreNumbered uses.items) }
    ensures features { IfOk result (λ uses. features_used uses.items
        ≡ features_of (all_rows lexicon.now.rows unknown.now)) }
{
    let records = lexicon.records();
    let entries = records.len().saturating_add(unknown_count(unknown));
    let mut uses = Vec::with_capacity(alloc, entries)?;
    append_uses(records, &mut uses)?;
    for category in 0..unknown.count() {
        append_uses(unknown.lines(category), &mut uses)?;
    }
    Ok(uses)
}

/// Adds the tokens of the unknown entries, category by category.
fn add_unknown<'a>(writer: &mut TokenWriter<'a>, unknown: &UnkTable<'a>) -> Result<(), SourceKind>
    ensures written { (rows : List Row) → AreWritten (all_rows rows unknown.now) rows writer.old
        → OnOk result (AreWritten (all_rows rows unknown.now) (all_rows rows unknown.now)
        writer.new) }
    ensures large { (rows : List Row) → AreWritten (all_rows rows unknown.now) rows writer.old
        → IfErr result (LargeOnlyFor (all_rows rows unknown.now)) }
    ensures kinds { IfErr result IsTokenFault }
{
    for category in 0..unknown.count() {
        writer.add_all(unknown.lines(category))?;
    }
    Ok(())
}
