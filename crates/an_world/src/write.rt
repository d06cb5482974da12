ghost use Rattle.std.specs.Prelude.{◌≡◌, ◌≤◌, [], IsTrue, IsOk, OnOk, OnErr};
ghost use Rattle.an_base.specs.Faults.{Rises};
ghost use Rattle.an_world.specs.Link.{Writes, WritesFront};

use crate::link::{Link, LinkFault};

/// Writes all of these bytes. Where there are none, the link is not called. Takes no memory.
pub fn write_all<L: Link>(link: &mut L, bytes: &[u8]) -> Result<(), LinkFault>
    ensures whole { OnOk result (Writes bytes.now (L.traffic link.old) (L.traffic link.new)) }
    ensures nothing { bytes.now ≡ [] → IsOk result × (link.new ≡ link.old) }

    // Whatever the answer is, a front of the bytes was written.
    ensures front { WritesFront bytes.now (L.traffic link.old) (L.traffic link.new) }
    ensures counted { OnErr result (Rises (L.write_faults link.old) (L.write_faults link.new)) }
    ensures sure { IsTrue L.is_sure → IsOk result }
    ensures read_faults_kept { L.read_faults link.old ≤ L.read_faults link.new }
    ensures write_faults_kept { L.write_faults link.old ≤ L.write_faults link.new }
{
    let mut at = 0;
    while at < bytes.len() {
        at += link.write(&bytes[at..])?;
    }
    Ok(())
}
