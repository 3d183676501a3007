//! Writing of tokens and their features.
ghost use Rattle.std.specs.Prelude.{◌≡◌, ◌++◌, ◌∷◌, [], List, length, slice_index_or, IfOk, IfErr, OnOk};
ghost use Rattle.mj_model.specs.Lexicon.{Row, row_of, rows_of};
ghost use Rattle.image_writer.specs.FirstUses.{AreFirstUses};
ghost use Rattle.image_writer.specs.Sections.{AreTokenBytes, AreWritten, features_of};
ghost use Rattle.image_writer.specs.WriterErrors.{IsTokenFault, LargeOnlyFor};
ghost use Rattle.image_writer.specs.TokenBytes.{FitsBytes, stored_bytes, stored_with};

use crate::feature_place::FeaturePlace;
use crate::features::FeatureStore;
use crate::token_bytes::TokenBytes;
use byteorder::{ByteOrder, LittleEndian};
use mj_model::{Record, SourceKind};
use std::alloc::{AllocError, Global};

/// Tokens of 16 bytes, and the features that they refer to.
#[derive(Drop)]
pub(crate) struct TokenWriter<'a> {
    pub tokens: Vec<u8>,
    pub features: FeatureStore<'a>,
    /// For each entry the number of the first entry with an equal feature.
    pub firsts: Vec<usize>,
}

impl<'a> TokenWriter<'a> {
    /// Returns a writer without tokens. `firsts` are the results of `first_uses` for all entries to
    /// come.
    pub(crate) fn new(alloc: Global, firsts: Vec<usize>) -> Result<TokenWriter<'a>, AllocError>
        ensures { (all : List Row) → AreFirstUses (features_of all) firsts.items
            → IfOk result (AreWritten all []) }
    {
        let entries = firsts.len();
        Ok(TokenWriter {
            tokens: Vec::with_capacity(alloc, entries.saturating_mul(16))?,
            features: FeatureStore::new(alloc, entries)?,
            firsts,
        })
    }

    /// Appends the tokens of `records`, in their order.
    pub(crate) fn add_all(&mut self, records: &[Record<'a>]) -> Result<(), SourceKind>
        ensures written { (all rows rest : List Row) → all ≡ (rows ++ rows_of records.now) ++ rest
            → AreWritten all rows self.old
            → OnOk result (AreWritten all (rows ++ rows_of records.now) self.new) }
        ensures large { (all rows rest : List Row) → all ≡ (rows ++ rows_of records.now) ++ rest
            → AreWritten all rows self.old → IfErr result (LargeOnlyFor all) }
        ensures kinds { IfErr result IsTokenFault }
    {
        for record in records {
            self.add(record)?;
        }
        Ok(())
    }

    /// Appends the token of a record.
    fn add(&mut self, row: &Record<'a>) -> Result<(), SourceKind>
        ensures written { (all rows rest : List Row) → all ≡ (rows ++ row_of row.now ∷ []) ++ rest
            → AreWritten all rows self.old
            → OnOk result (AreWritten all (rows ++ row_of row.now ∷ []) self.new) }
        ensures large { (all rows rest : List Row) → all ≡ (rows ++ row_of row.now ∷ []) ++ rest
            → AreWritten all rows self.old → IfErr result (LargeOnlyFor all) }
        ensures kinds { IfErr result IsTokenFault }
    {
        let entry = &row.entry;
        let number = self.features.places.len();
        let first = first_of(&self.firsts, number);
        let place = self.features.place_of(entry.feature, first)?;
        let token = token_bytes(entry.left, entry.right, entry.cost, place);
        self.tokens.extend_from_slice(&token)?;
        Ok(())
    }

    /// Returns the written tokens and features.
    pub(crate) fn into_bytes(self) -> TokenBytes<'a>
        ensures { (rows : List Row) → AreWritten rows rows self.entry
            → AreTokenBytes rows result }
    {
        let TokenWriter {
            tokens,
            features,
            ..
        } = self;
        let FeatureStore { texts, size, .. } = features;
        TokenBytes {
            tokens,
            features: texts,
            feature_size: size,
        }
    }
}

/// Returns the first entry with the feature of `entry`, or `entry` itself if `firsts` is too short.
fn first_of(firsts: &[usize], entry: usize) -> usize
    ensures { result ≡ slice_index_or firsts.now entry entry }
{
    match firsts.get(entry).copied() {
        Some(first) => first,
        None => entry,
    }
}

/// Returns the 16 bytes of a token. `place` is the position of its feature.
fn token_bytes(left: u16, right: u16, cost: i16, place: FeaturePlace) -> [u8; 16]
    ensures bytes { result ≡ stored_bytes (stored_with left right cost place.start place.length) }
    ensures fits { FitsBytes (stored_with left right cost place.start place.length) }
{
    let mut bytes = [0; 16];
    LittleEndian::write_u16(&mut bytes, left);
    LittleEndian::write_u16(&mut bytes[2..], right);
    LittleEndian::write_i16(&mut bytes[4..], cost);
    LittleEndian::write_u32(&mut bytes[8..], place.start);
    LittleEndian::write_u32(&mut bytes[12..], place.length);
    bytes
}
