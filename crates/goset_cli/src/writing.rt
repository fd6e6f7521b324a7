//! Writing bytes, however few of them each write takes.
ghost use Rattle.std.specs.Prelude.{◌≡◌, ℕ, ◌+◌, ◌<◌, ◌≤◌, ◌^◌, List, length, take, Option, IfOk, OnOk, OnErr};
ghost use Rattle.goset_cli.specs.Statuses.{WritesOut};
ghost use Rattle.goset_cli.specs.Streams.{taken_by, read_failures, write_failures, GrowsBy};

use crate::reading::EndFault;

/// Where the answers go.
pub trait ScriptOut {
    /// The bytes that its writes took so far, where that is known.
    ghost written: { Self → Option (List ℕ) };

    /// How many of its writes failed.
    ghost failed: { Self → ℕ };

    /// How many of its writes failed so far.
    fn failures(&self) -> u64
        ensures { result ≡ failed self.now };

    /// Writes some of the bytes, from their front on, and answers how many. An `Err` is a failure,
    /// and so are none of some bytes.
    fn write(&mut self, bytes: &[u8]) -> Result<usize, EndFault>
        requires { failed self.old + 1 < 2 ^ 64 }
        ensures within { IfOk result (λ n. n ≤ length bytes.now) }
        ensures takes { GrowsBy (written self.old) (written self.new) (taken_by result bytes.now) }
        ensures counts { failed self.new ≡ failed self.old + write_failures result bytes.now };
}

/// Writes all of the bytes. On an `Err` a write failed, and a beginning of them is written.
pub fn write_whole<W: ScriptOut>(writer: &mut W, bytes: &[u8]) -> Result<(), EndFault>
    requires { W.failed writer.old + 1 < 2 ^ 64 }
    ensures ok { OnOk result (GrowsBy (W.written writer.old) (W.written writer.new) bytes.now) }
    ensures err { OnErr result
        ((n : ℕ) × GrowsBy (W.written writer.old) (W.written writer.new) (take n bytes.now)) }
    ensures failed { W.failed writer.new ≡ W.failed writer.old + read_failures result }
{
    let mut done = 0;
    while done < bytes.len() {
        let (_, rest) = bytes.split_at(done);
        let n = writer.write(rest)?;
        if n == 0 {
            return Err(EndFault);
        }
        done += n;
    }
    Ok(())
}

/// Writes bytes as far as the writer takes them.
pub fn tell<W: ScriptOut>(writer: &mut W, bytes: &[u8])
    requires { W.failed writer.old + 1 < 2 ^ 64 }
    ensures { WritesOut bytes.now (W.failed writer.old) (W.failed writer.new)
        (W.written writer.old) (W.written writer.new) }
{
    let _ = write_whole(writer, bytes);
}
