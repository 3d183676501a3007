//! Writing the output.

ghost use Rattle.std.specs.Prelude.{◌≡◌, ◌+◌, ◌≤◌, ◌<◌, length, take, OnOk, OnErr, IfErr};
ghost use Rattle.std.specs.Io.KnownBytes.{Appends};
ghost use Rattle.mj_model.specs.Counts.{CanRise};

use mj_model::TextOut;

/// Writes all of `bytes`. An error is the number of bytes written before the write that failed or
/// wrote nothing.
pub fn write_bytes<W: TextOut>(writer: &mut W, bytes: &[u8]) -> Result<(), usize>
    requires { CanRise (W.state writer.old).failures }
    ensures written { OnOk result
        (Appends (W.state writer.old).held (W.state writer.new).held bytes.now) }
    ensures no_failure { OnOk result
        ((W.state writer.new).failures ≡ (W.state writer.old).failures) }
    ensures no_flush { (W.state writer.new).flushes ≡ (W.state writer.old).flushes }
    ensures within { IfErr result (λ sent. sent ≤ length bytes.now) }
    ensures truncated { IfErr result (λ sent.
        Appends (W.state writer.old).held (W.state writer.new).held (take sent bytes.now)) }
    ensures failure { OnErr result
        ((W.state writer.new).failures ≡ (W.state writer.old).failures + 1) }
{
    let mut sent = 0;
    while sent < bytes.len() {
        match writer.write_counted(&bytes[sent..]) {
            Ok(0) => return Err(sent),
            Ok(n) => sent += n,
            Err(_) => return Err(sent),
        }
    }
    Ok(())
}
