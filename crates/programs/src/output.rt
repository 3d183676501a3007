//! Writing to byte writers.

ghost use Rattle.std.specs.Prelude.{◌≡◌, IsOk, OnErr, OnOk};
ghost use Rattle.std.specs.Io.KnownBytes.{Appends};
ghost use Rattle.programs.specs.Writing.{AppendsPrefix};

use std::fmt;
use std::io::{self, ErrorKind, Write};

/// Writes all bytes, in as many calls as the writer needs.
///
/// A call that fails is not retried, whatever its error. A call that writes no byte counts as
/// failed.
pub fn write_whole<W: Write>(writer: &mut W, bytes: &[u8]) -> io::Result<()>
    ensures written { OnOk result
        (Appends (W.contents writer.old) (W.contents writer.new) bytes.now) }
    // On an error, the last byte was not written.
    ensures prefix { OnErr result
        (AppendsPrefix (W.contents writer.old) (W.contents writer.new) bytes.now) }
{
    let mut sent = 0;
    while sent < bytes.len() {
        match writer.write(&bytes[sent..]) {
            Ok(0) => return Err(io::Error::from(ErrorKind::WriteZero)),
            Ok(taken) => sent += taken,
            Err(error) => return Err(error),
        }
    }
    Ok(())
}

/// Prints text to a byte writer. Each part is written by `write_whole`.
#[derive(Drop)]
pub struct TextWriter<'a, W>(pub &'a mut W);

impl<W: Write> fmt::Write for TextWriter<'_, W> {
    ghost write_str_gives = { λ before text after. (after.0.ghost_name ≡ before.0.ghost_name)
        × Appends (W.contents before.0.now) (W.contents after.0.now) text };

    fn write_str(&mut self, text: &str) -> fmt::Result
        ensures ok { IsOk result → (self.new.0.ghost_name ≡ self.old.0.ghost_name)
            × Appends (W.contents self.old.0.now) (W.contents self.new.0.now) text.now }
        // On an error, the last byte was not written.
        ensures prefix { OnErr result (AppendsPrefix
            (W.contents self.old.0.now) (W.contents self.new.0.now) text.now) }
    {
        write_whole(self.0, text.as_bytes()).map_err(|_| fmt::Error)
    }
}
