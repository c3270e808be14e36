// Sending a whole text.

ghost use Rattle.std.specs.Prelude.{◌≡◌, OnOk, OnErr};
ghost use Rattle.std.specs.Io.KnownBytes.{Appends, Keeps};
ghost use Rattle.edge_io.specs.Edges.{AppendsProperPrefix};
ghost use Rattle.jm_base.specs.FaultCounts.{Rose};

use crate::stream::Stream;
use jm_base::Failed;

/// Sends all bytes, or a proper prefix of them and fails. It takes no memory.
pub fn send_all<S: Stream>(stream: &mut S, bytes: &[u8]) -> Result<(), Failed>
    ensures whole { OnOk result (Appends (S.sent stream.old) (S.sent stream.new) bytes.now) }
    ensures ok { OnOk result (S.faults stream.new ≡ S.faults stream.old) }

    ensures prefix { OnErr result (AppendsProperPrefix (S.sent stream.old) (S.sent stream.new) bytes.now) }
    ensures cause { OnErr result (Rose (S.faults stream.old) (S.faults stream.new)) }

    // Nothing is received.
    ensures given { Keeps (S.given stream.old) (S.given stream.new) }
    ensures left { Keeps (S.left stream.old) (S.left stream.new) }
{
    let mut at = 0;
    while at < bytes.len() {
        at += stream.send(&bytes[at..])?;
    }
    Ok(())
}
