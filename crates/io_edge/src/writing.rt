ghost use Rattle.std.specs.Prelude.{◌≡◌, ◌≤◌, None, OnOk, OnErr};
ghost use Rattle.std.specs.Io.KnownBytes.{Appends};
ghost use Rattle.text_core.specs.Counts.{HasCause};
ghost use Rattle.io_edge.specs.Sink.{AppendsPrefix};

use crate::sink::{Sink, SinkError};

/// Gives the output all the bytes. After an error it has taken some of them, from the front. `Failed`: the device
/// failed. `NoMemory`: memory was refused.
pub fn write_all<K: Sink>(out: &mut K, bytes: &[u8]) -> Result<(), SinkError>
    ensures ok { OnOk result (Appends (K.written out.old) (K.written out.new) bytes.now) }
    ensures err { OnErr result (AppendsPrefix (K.written out.old) (K.written out.new) bytes.now) }
    ensures untold { K.written out.old ≡ None → K.written out.new ≡ None }
    ensures failed { HasCause SinkError.Failed (K.faults out.old) (K.faults out.new) result }
    ensures never_falls { K.faults out.old ≤ K.faults out.new }
{
    let mut done: usize = 0;
    while done < bytes.len() {
        let taken = out.write(&bytes[done..])?;
        done += taken as usize;
    }
    Ok(())
}
