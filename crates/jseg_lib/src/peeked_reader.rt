//! A reader whose first read was made in advance.

ghost use Rattle.std.specs.Prelude.{◌≡◌, ◌<◌, ◌+◌, length};
ghost use Rattle.std.specs.Io.KnownBytes.{Keeps};
ghost use Rattle.mj_model.specs.Counts.{CanRise, MayBeRead, end_in, failed_read};
ghost use Rattle.jseg_lib.specs.PeekedReader.{CountsSincePeek, IsReplayed, IsUnreplayed, remaining_of, reader_of};

use crate::peeked_read::PeekedRead;
use mj_model::TextIn;
use std::alloc::Global;
use std::io::{self, Cursor, Read};

/// A reader of which one read may have been made. The result of that read is replayed first.
#[derive(Drop)]
pub(crate) struct PeekedReader<R> {
    kept: PeekedRead,
    replays: Replays,
    reader: R,
}

/// The number of calls that replayed the first read, of those that returned its end, and of those
/// that returned its error.
#[derive(Clone, Copy, Drop)]
struct Replays {
    reads: u64,
    ends: u64,
    failures: u64,
}

impl<R> PeekedReader<R> {
    /// Creates a reader that replays `kept` and then reads on from `reader`.
    fn new(kept: PeekedRead, reader: R) -> PeekedReader<R>
        ensures kept { result.kept ≡ kept }
        ensures reader { reader_of result ≡ reader }
        ensures replays { IsUnreplayed result }
    {
        PeekedReader {
            kept,
            replays: Replays {
                reads: 0,
                ends: 0,
                failures: 0,
            },
            reader,
        }
    }

    /// Wraps a reader of which nothing was read. Does not allocate.
    pub fn unread(alloc: Global, reader: R) -> PeekedReader<R>
        ensures kept { IsReplayed result.kept }
        ensures reader { reader_of result ≡ reader }
        ensures replays { IsUnreplayed result }
    {
        PeekedReader::new(PeekedRead::none(alloc), reader)
    }

    /// Returns the bytes of the first read.
    pub fn peeked_bytes(&self) -> &[u8] {
        self.kept.bytes.get_ref()
    }
}

impl<R: TextIn + Drop> PeekedReader<R> {
    /// Reads once from `reader` into `buffer` and keeps the result. The reader counts the read.
    /// Does not allocate.
    pub fn peek(buffer: Vec<u8>, reader: R) -> PeekedReader<R>
        requires room { 0 < length buffer.items }
        requires counts { MayBeRead (R.state reader) }
        ensures text { Keeps (R.remaining reader) (remaining_of R.remaining result) }
        ensures reads { (R.state (reader_of result)).reads ≡ (R.state reader).reads + 1 }
        ensures counts_since { CountsSincePeek R.state (R.state reader) result }
        ensures replays { IsUnreplayed result }
    {
        let (mut reader, mut buffer) = (reader, buffer);
        match reader.read_counted(&mut buffer) {
            Ok(count) => {
                buffer.truncate(count);
                let kept = PeekedRead {
                    failed: None,
                    is_ended: count == 0,
                    bytes: Cursor::new(buffer),
                };
                PeekedReader::new(kept, reader)
            }
            Err(fault) => {
                buffer.clear();
                let kept = PeekedRead {
                    failed: Some(fault),
                    is_ended: false,
                    bytes: Cursor::new(buffer),
                };
                PeekedReader::new(kept, reader)
            }
        }
    }
}

impl Replays {
    /// Counts a call with this result. `room` is the length of its buffer.
    fn count(&mut self, replayed: &io::Result<usize>, room: usize)
        requires reads { CanRise self.old.reads }
        requires ends { CanRise self.old.ends }
        requires failures { CanRise self.old.failures }
        ensures reads { self.new.reads ≡ self.old.reads + 1 }
        ensures ends { self.new.ends ≡ self.old.ends + end_in replayed.now room }
        ensures failures { self.new.failures ≡ self.old.failures + failed_read replayed.now }
    {
        self.reads += 1;
        match replayed {
            Ok(0) if room > 0 => self.ends += 1,
            Ok(_) => {}
            Err(_) => self.failures += 1,
        }
    }
}

impl<R: Read> Read for PeekedReader<R> {
    ghost use Rattle.jseg_lib.specs.PeekedReader.{remaining_of};

    ghost remaining = { remaining_of R.remaining };

    fn read(&mut self, buf: &mut [u8]) -> io::Result<usize> {
        match self.kept.replay(buf) {
            Some(replayed) => replayed,
            None => self.reader.read(buf),
        }
    }
}

impl<R: TextIn> TextIn for PeekedReader<R> {
    ghost use Rattle.std.specs.Prelude.{◌≡◌, ◌+◌, length};
    ghost use Rattle.std.proofs.Common.{ap};
    ghost use Rattle.std.specs.Io.{ReadsAtMost};
    ghost use Rattle.std.specs.Io.KnownBytes.{ReadConsumes};
    ghost use Rattle.mj_model.specs.Counts.{CanRise, end_in, failed_read};
    ghost use Rattle.jseg_lib.specs.PeekedReader.{IsOneRead, IsReplayed, peeked_state, remaining_with, reader_of};

    ghost state = { peeked_state R.state };

    fn read_counted(&mut self, buf: &mut [u8]) -> io::Result<usize>
        requires reads { CanRise (peeked_state R.state self.old).reads }
        requires ends { CanRise (peeked_state R.state self.old).ends }
        requires failures { CanRise (peeked_state R.state self.old).failures }
        ensures bound { ReadsAtMost result buf.new }
        ensures bytes { ReadConsumes (peeked_state R.state self.old).left
            (peeked_state R.state self.new).left result buf.new }
        ensures reads { (peeked_state R.state self.new).reads
            ≡ (peeked_state R.state self.old).reads + 1 }
        ensures ends { (peeked_state R.state self.new).ends
            ≡ (peeked_state R.state self.old).ends + end_in result (length buf.old) }
        ensures failures { (peeked_state R.state self.new).failures
            ≡ (peeked_state R.state self.old).failures + failed_read result }
        // Once the first read was replayed, each call is one call of the reader with this result.
        ensures one_read { IsReplayed self.old.kept → IsOneRead (R.state (reader_of self.old))
            (R.state (reader_of self.new)) result (length buf.old) }
        // Until then, the reader is not read.
        ensures no_read { (IsReplayed self.old.kept → ⊥) → reader_of self.new ≡ reader_of self.old }
    {
        match self.kept.replay(buf) {
            Some(replayed) => {
                self.replays.count(&replayed, buf.len());
                replayed
            }
            None => self.reader.read_counted(buf),
        }
    }

    fn reads(&self) -> u64 {
        self.reader.reads().saturating_add(self.replays.reads)
    }

    fn ends(&self) -> u64 {
        self.reader.ends().saturating_add(self.replays.ends)
    }

    fn failures(&self) -> u64 {
        self.reader.failures().saturating_add(self.replays.failures)
    }

    ghost left_is_remaining = { λ c. ap (remaining_with c.kept) (R.left_is_remaining c.reader) };
}
