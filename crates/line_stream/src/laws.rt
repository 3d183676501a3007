//! Laws of a run over lines.

ghost use Rattle.std.specs.Prelude.{◌≡◌};
ghost use Rattle.line_stream.specs.declared.reading.TheConstants.{BUFFER_SIZE};

/// `BUFFER_SIZE`, as a number: lets a proof replace the constant with its value.
pub fn buffer()
    ensures { BUFFER_SIZE ≡ 65536 }
{}
