//! Messages about mail are written. Own profile. Called by `hearing` and `queue`.
ghost use Rattle.std.specs.Prelude.{◌≡◌};
ghost use Rattle.node_mail.specs.Wires as wires;

use ax_address::{Call, write_net_call};
use l3_datagram::Message;

/// Writes a mail.
#[tactic(auto, unfolding(crate::specs::Wires::wire_octets))]
pub(crate) fn write_mail(number: u64, to: &Call, text: &[u8], out: &mut Message)
    requires is_number { wires.IsNumber number }
    requires is_text { wires.IsText text.now }
    ensures exact { out.new.items ≡ wires.wire_octets (wires.Carries number to.now text.now) }
    ensures spelled { wires.Spells (wires.Carries number to.now text.now) out.new.items }
{
    out.clear();
    let _ = out.try_push(0x4D);
    let _ = out.try_extend_from_slice(&number.to_be_bytes());
    let _ = out.try_extend_from_slice(&write_net_call(to));
    let _ = out.try_extend_from_slice(text);
}

/// Writes a receipt, in place of what was there.
#[tactic(auto, unfolding(crate::specs::Wires::wire_octets))]
pub fn write_receipt(number: u64, out: &mut Message)
    ensures { out.new.items ≡ wires.wire_octets (wires.Receipt number) }
{
    out.clear();
    let _ = out.try_push(0x41);
    let _ = out.try_extend_from_slice(&number.to_be_bytes());
}
