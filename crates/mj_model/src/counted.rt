//! A reader or a writer with counts.

ghost use Rattle.std.specs.Prelude.{◌≡◌, false, refl};

use crate::text_in::TextIn;
use crate::text_out::TextOut;
use std::io;
use std::io::{Read, Write};

/// A reader or writer that counts the calls of `TextIn` and `TextOut`. Every call is forwarded to
/// it unchanged; those of `Read` and `Write` are not counted.
#[derive(Debug, Drop)]
pub struct Counted<T> {
    inner: T,
    reads: u64,
    ends: u64,
    failures: u64,
    flushes: u64,
    unflushed: bool,
}

impl<T> Counted<T> {
    ghost use Rattle.mj_model.specs.Counted.{counted_inner, counted_reads, counted_ends, counted_failures, counted_flushes, counted_unflushed};

    /// Wraps `inner` with all counts 0 and no flush due. Does not allocate.
    pub fn new(inner: T) -> Self
        ensures inner { counted_inner result ≡ inner }
        ensures reads { counted_reads result ≡ 0 }
        ensures ends { counted_ends result ≡ 0 }
        ensures failures { counted_failures result ≡ 0 }
        ensures flushes { counted_flushes result ≡ 0 }
        ensures unflushed { counted_unflushed result ≡ false }
    {
        Counted {
            inner,
            reads: 0,
            ends: 0,
            failures: 0,
            flushes: 0,
            unflushed: false,
        }
    }

    /// Returns the wrapped reader or writer.
    pub fn get_ref(&self) -> &T
        ensures { result.now ≡ counted_inner self.now }
    {
        &self.inner
    }
}

impl<T: Read> Read for Counted<T> {
    ghost remaining = { λ c. T.remaining c.inner };

    fn read(&mut self, buf: &mut [u8]) -> io::Result<usize> {
        self.inner.read(buf)
    }
}

impl<T: Read> TextIn for Counted<T> {
    ghost state = { λ c. record {
      left = T.remaining c.inner;
      reads = c.reads;
      ends = c.ends;
      failures = c.failures;
    } };

    fn read_counted(&mut self, buf: &mut [u8]) -> io::Result<usize> {
        let room = buf.len();
        let result = self.inner.read(buf);
        self.reads += 1;
        match &result {
            Ok(0) if room > 0 => self.ends += 1,
            Ok(_) => {}
            Err(_) => self.failures += 1,
        }
        result
    }

    fn reads(&self) -> u64 {
        self.reads
    }

    fn ends(&self) -> u64 {
        self.ends
    }

    fn failures(&self) -> u64 {
        self.failures
    }

    ghost left_is_remaining = { λ c. refl };
}

impl<T: Write> Write for Counted<T> {
    ghost contents = { λ c. T.contents c.inner };

    fn write(&mut self, buf: &[u8]) -> io::Result<usize> {
        self.inner.write(buf)
    }

    fn flush(&mut self) -> io::Result<()> {
        self.inner.flush()
    }
}

impl<T: Write> TextOut for Counted<T> {
    ghost state = { λ c. record {
      held = T.contents c.inner;
      failures = c.failures;
      flushes = c.flushes;
      unflushed = c.unflushed;
    } };

    fn write_counted(&mut self, buf: &[u8]) -> io::Result<usize> {
        let result = self.inner.write(buf);
        match &result {
            Ok(0) if !buf.is_empty() => self.failures += 1,
            Ok(0) => {}
            Ok(_) => self.unflushed = true,
            Err(_) => self.failures += 1,
        }
        result
    }

    fn flush_counted(&mut self) -> io::Result<()> {
        let result = self.inner.flush();
        self.flushes += 1;
        match &result {
            Ok(()) => self.unflushed = false,
            Err(_) => self.failures += 1,
        }
        result
    }

    fn failures(&self) -> u64 {
        self.failures
    }

    fn flushes(&self) -> u64 {
        self.flushes
    }

    fn unflushed(&self) -> bool {
        self.unflushed
    }

    ghost held_is_contents = { λ c. refl };
}
