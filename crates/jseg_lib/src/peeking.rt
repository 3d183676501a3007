//! Caching the connection costs that the beginning of a text needs.

ghost use Rattle.std.specs.Prelude.{◌≡◌, ◌+◌, ◌<◌, ◌≤◌, length, IfOk};
ghost use Rattle.std.specs.Io.KnownBytes.{Keeps};
ghost use Rattle.dict_image.specs.ContextIds.{AreOfSizes};
ghost use Rattle.image_format.specs.ImageMeaning.{image_tables};
ghost use Rattle.mj_model.specs.Counts.{MayBeRead};
ghost use Rattle.mj_model.specs.Tables.{System};
ghost use Rattle.jseg_lib.specs.PeekedReader.{CountsSincePeek, IsUnreplayed, remaining_of, reader_of};

use crate::peeked_reader::PeekedReader;
use dict_image::{ContextIds, Dict};
use line_stream::BUFFER_SIZE;
use mj_model::{MatrixSizes, TextIn};
use std::alloc::{AllocError, Global};
use word_lookup::Dictionaries;

/// Minimum size of the first read for which the cache is worth its construction, in bytes. A full
/// pipe gives more, whatever the lengths of the writes that filled it.
const PEEKED_MIN: usize = BUFFER_SIZE / 2;

/// Reads once from `reader` into `buffer` if the dictionary has a large matrix, and caches the
/// connection costs for the words of that text.
///
/// The cache is not built if the read gives fewer than `PEEKED_MIN` bytes, or if an allocation
/// fails. So no error follows the read. Nothing is read if the dictionaries don't fit together. The
/// contents of the dictionary don't change.
pub(crate) fn peek_and_cache_costs<R: TextIn + Drop>(
    alloc: Global,
    system: &mut Dict,
    users: &[Dict],
    buffer: Vec<u8>,
    reader: R,
) -> PeekedReader<R>
    requires room { 0 < length buffer.items }
    requires counts { MayBeRead (R.state reader) }
    ensures same { system.new ≡ system.old }
    ensures text { Keeps (R.remaining reader) (remaining_of R.remaining result) }
    // At most one read was made, and its end or its error is kept.
    ensures reads { (R.state (reader_of result)).reads ≤ (R.state reader).reads + 1 }
    ensures unchanged { CountsSincePeek R.state (R.state reader) result }
    ensures replays { IsUnreplayed result }
{
    if !system.is_large_matrix() {
        return PeekedReader::unread(alloc, reader);
    }
    if Dictionaries::new(system, users).is_err() {
        return PeekedReader::unread(alloc, reader);
    }
    let started = PeekedReader::peek(buffer, reader);
    let _built = cache_costs_of(alloc, system, users, started.peeked_bytes());
    started
}

/// Caches the connection costs for the words of `text` if it has at least `PEEKED_MIN` bytes. If an
/// allocation fails, there is no cache.
fn cache_costs_of(
    alloc: Global,
    system: &mut Dict,
    users: &[Dict],
    text: &[u8],
) -> Result<(), AllocError>
    requires { (image_tables system.old).kind ≡ System }
    ensures { system.new ≡ system.old }
{
    let Ok(dictionaries) = Dictionaries::new(system, users) else {
        return Ok(());
    };
    if text.len() < PEEKED_MIN {
        return Ok(());
    }
    let sizes = system.matrix_sizes();
    let ids = ids_of(alloc, &dictionaries, sizes, text)?;
    system.cache_costs(alloc, ids)
}

/// Returns the context ids of the words of `text` up to its first byte that is not UTF-8. `sizes`
/// are those of the dictionaries.
fn ids_of(
    alloc: Global,
    dictionaries: &Dictionaries<'_>,
    sizes: MatrixSizes,
    text: &[u8],
) -> Result<ContextIds, AllocError>
    ensures { IfOk result (AreOfSizes sizes) }
{
    let mut ids = ContextIds::new(alloc, sizes)?;
    let text = text.utf8_chunks().next().map_or("", |chunk| chunk.valid());
    dictionaries.collect_context_ids(alloc, text, &mut ids)?;
    Ok(ids)
}
