// A text is handed to a sink.
ghost use Rattle.std.specs.Prelude.{◌≡◌, ◌++◌, OnOk};
ghost use Rattle.ae_outside.specs.Causes.{HasCause};
ghost use Rattle.ae_outside.specs.Streams.{TakesPrefix};

use ae_outside::{Failed, Sink};

/// Writes all of it. A write that fails, or takes nothing, is not tried again (no clause says this of one that takes
/// nothing).
pub fn put_all<K: Sink>(sink: &mut K, bytes: &[u8]) -> Result<(), Failed>
    ensures all { OnOk result (K.tells → K.taken sink.new ≡ K.taken sink.old ++ bytes.now) }
    ensures part { K.tells → TakesPrefix (K.taken sink.old) (K.taken sink.new) bytes.now }
    ensures cause { HasCause (K.faults sink.old) (K.faults sink.new) result }
{
    let mut at = 0;
    while at < bytes.len() {
        match sink.write(&bytes[at..]) {
            Ok(0) => return Err(Failed),
            Ok(count) => at += count,
            Err(failed) => return Err(failed),
        }
    }
    Ok(())
}
