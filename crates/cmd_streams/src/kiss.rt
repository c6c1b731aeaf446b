//! Octets as KISS bytes. Called by `tool_cmd` and `node_cmd`.
ghost use Rattle.std.specs.Prelude.{◌≡◌, ◌≤◌, ◌+◌, ◌*◌, length};
ghost use Rattle.kiss_framing.specs.Stream.{framed};

use arrayvec::ArrayVec;
use kiss_framing::enframe;

/// Puts octets as data on port 0 in place of what the buffer holds, where it has room for each of them twice, as each may be escaped, and for
/// the type byte and two FENDs.
pub fn put_data<const CAP: usize>(octets: &[u8], bytes: &mut ArrayVec<u8, CAP>)
    ensures { 2 * length octets.now + 4 ≤ CAP → bytes.new.items ≡ framed 0 0 octets.now }
{
    bytes.clear();
    let _ = enframe(0, 0, octets, bytes);
}
