//! Writers that count flushes and failed calls.

ghost use Rattle.std.specs.Prelude.{◌≡◌, ◌+◌, length};
ghost use Rattle.std.specs.Io.{WritesAtMost};
ghost use Rattle.std.specs.Io.KnownBytes.{WriteAppends, Keeps};
ghost use Rattle.mj_model.specs.Counts.{CanRise, WriterState, failed_write, failed_flush, unflushed_after_write, unflushed_after_flush};

use std::io;
use std::io::Write;

/// A writer that counts flushes and failed calls, and knows whether a flush is due.
///
/// No count is `u64::MAX` at a call that may raise it.
pub trait TextOut: Write {
    /// The bytes written, the counts, and whether a flush is due.
    ghost state: { Self → WriterState };

    /// Writes like `write`, and counts a failure. A write that accepts none of at least one byte is
    /// a failure too.
    fn write_counted(&mut self, buf: &[u8]) -> io::Result<usize>
        requires { CanRise (state self.old).failures }
        ensures bound { WritesAtMost result buf.now }
        ensures bytes { WriteAppends (state self.old).held (state self.new).held result buf.now }
        ensures failures { (state self.new).failures
            ≡ (state self.old).failures + failed_write result (length buf.now) }
        ensures flushes { (state self.new).flushes ≡ (state self.old).flushes }
        ensures unflushed { (state self.new).unflushed
            ≡ unflushed_after_write (state self.old).unflushed result };

    /// Flushes like `flush`, and counts the call and a failure.
    fn flush_counted(&mut self) -> io::Result<()>
        requires failures { CanRise (state self.old).failures }
        requires flushes { CanRise (state self.old).flushes }
        ensures bytes { Keeps (state self.old).held (state self.new).held }
        ensures failures { (state self.new).failures
            ≡ (state self.old).failures + failed_flush result }
        ensures flushes { (state self.new).flushes ≡ (state self.old).flushes + 1 }
        ensures unflushed { (state self.new).unflushed
            ≡ unflushed_after_flush (state self.old).unflushed result };

    /// Returns the number of failed writes and flushes.
    fn failures(&self) -> u64
        ensures { result ≡ (state self.now).failures };

    /// Returns the number of flushes, the failed ones included.
    fn flushes(&self) -> u64
        ensures { result ≡ (state self.now).flushes };

    /// Returns whether a write accepted bytes after the last successful flush.
    fn unflushed(&self) -> bool
        ensures { result ≡ (state self.now).unflushed };

    /// The bytes of `state` are the contents that `Write` knows.
    ghost held_is_contents: { (x : Self) → (state x).held ≡ Self.contents x };
}
