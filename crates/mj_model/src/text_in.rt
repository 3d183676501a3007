//! Readers that count the calls on them.

ghost use Rattle.std.specs.Prelude.{◌≡◌, ◌+◌, length};
ghost use Rattle.std.specs.Io.{ReadsAtMost};
ghost use Rattle.std.specs.Io.KnownBytes.{ReadConsumes};
ghost use Rattle.mj_model.specs.Counts.{CanRise, ReaderState, end_in, failed_read};

use std::io;
use std::io::Read;

/// A reader that counts its reads, the reads at the end of the input, and the failed reads.
///
/// No count is `u64::MAX` at a read.
pub trait TextIn: Read {
    /// The remaining bytes, and the counts.
    ghost state: { Self → ReaderState };

    /// Reads like `read`, and counts the call, the end of the input and a failure.
    fn read_counted(&mut self, buf: &mut [u8]) -> io::Result<usize>
        requires reads { CanRise (state self.old).reads }
        requires ends { CanRise (state self.old).ends }
        requires failures { CanRise (state self.old).failures }
        ensures bound { ReadsAtMost result buf.new }
        ensures bytes { ReadConsumes (state self.old).left (state self.new).left result buf.new }
        ensures reads { (state self.new).reads ≡ (state self.old).reads + 1 }
        ensures ends { (state self.new).ends
            ≡ (state self.old).ends + end_in result (length buf.old) }
        ensures failures { (state self.new).failures
            ≡ (state self.old).failures + failed_read result };

    /// Returns the number of reads.
    fn reads(&self) -> u64
        ensures { result ≡ (state self.now).reads };

    /// Returns the number of reads that returned no byte although the buffer had room.
    fn ends(&self) -> u64
        ensures { result ≡ (state self.now).ends };

    /// Returns the number of failed reads.
    fn failures(&self) -> u64
        ensures { result ≡ (state self.now).failures };

    /// The remaining bytes of `state` are those that `Read` knows.
    ghost left_is_remaining: { (x : Self) → (state x).left ≡ Self.remaining x };
}
