//! A forwarder of packets at a KISS stream: what comes, and what is sent. Called by `ip` and `words`, and by `node_cmd`.
ghost use Rattle.std.specs.Prelude.{◌≡◌, ◌≤◌, [], length, None, OnOk, OnErr};
ghost use Rattle.ax_ip.specs.Machine.{state, waiting};
ghost use Rattle.ax_ip.specs.Routes as routes;
ghost use Rattle.tool_cmd.specs.Gateways as gateways;

use arrayvec::ArrayVec;
use ax_address::{Call, Path, address_of};
use ax_frame::{Control, FrameBytes, Head, read_frame, write_frame};
use ax_ip::{Forwarder, IpOut, RouteRefusal};
use cmd_streams::{ItemTaker, put_data};
use kiss_framing::KissItem;
use radio_base::{M8, NoMemory, TextOut};

/// Room for a frame with 256 octets of information and for its type byte, each of them escaped, between two FENDs.
type Framed = ArrayVec<u8, 548>;

/// A forwarder with its call, and the frame that it sent last.
#[derive(Drop)]
pub struct Gateway {
    call: Call,
    forwarder: Forwarder,
    octets: FrameBytes,
    framed: Framed,
    ghost own: { call ≡ (state forwarder).call },
    ghost fetched: { waiting forwarder ≡ None },
}

impl ItemTaker for Gateway {
    ghost use Rattle.std.specs.Prelude.{◌≡◌};
    ghost use Rattle.ax_ip.specs.Machine.{state};
    ghost use Rattle.tool_cmd.specs.Gateways.{by_items};

    ghost took = { λ first last items text. by_items (state first.forwarder) items ≡ (state last.forwarder, text) };

    fn take_item(&mut self, item: &KissItem<'_>, answer: &mut TextOut) -> Result<(), NoMemory> {
        self.answer_item(item);
        answer.octets(self.framed.as_slice())?;
        Ok(())
    }
}

impl Gateway {
    /// A gateway of this call and this address, without routes.
    pub fn new(call: Call, addr: u32) -> Gateway
        ensures { state result.forwarder ≡ record { call = call; address = addr; routes = []; cache = [] } }
    {
        Gateway {
            call,
            forwarder: Forwarder::new(call, addr),
            octets: FrameBytes::new(),
            framed: Framed::new(),
        }
    }

    /// Takes a route in.
    pub fn route(&mut self, prefix: u32, len: u8, hop: u32) -> Result<(), RouteRefusal>
        ensures exact { result ≡ routes.route_at prefix len (state self.old.forwarder).routes }
        ensures entered { OnOk result
            (gateways.EntersRoute prefix len hop (state self.old.forwarder) (state self.new.forwarder)) }
        ensures err { OnErr result (self.new ≡ self.old) }
    {
        self.forwarder.route(prefix, len, hop)
    }

    /// Takes an item of a KISS stream in, and leaves the frame that is sent for it in `framed`.
    fn answer_item(&mut self, item: &KissItem<'_>)
        ensures state { state self.new.forwarder ≡ (gateways.by_kiss_item (state self.old.forwarder) item.now).0 }
        ensures sent { self.new.framed.items ≡ (gateways.by_kiss_item (state self.old.forwarder) item.now).1 }
    {
        self.framed.clear();
        match item {
            KissItem::Frame {
                port: 0,
                command: 0,
                payload,
            } => self.answer_frame(payload),
            _ => {}
        }
    }

    fn answer_frame(&mut self, octets: &[u8])
        requires { self.old.framed.items ≡ [] }
        ensures state { state self.new.forwarder ≡ (gateways.by_octets (state self.old.forwarder) octets.now).0 }
        ensures sent { self.new.framed.items ≡ (gateways.by_octets (state self.old.forwarder) octets.now).1 }
    {
        match read_frame::<M8>(octets) {
            Ok(frame) => {
                let _ = self.forwarder.arrive(&frame);
                match self.forwarder.waiting() {
                    Some(sent) => {
                        put_frame(&self.call, sent, &mut self.octets, &mut self.framed);
                        self.forwarder.fetched();
                    }
                    None => {}
                }
            }
            Err(_) => {}
        }
    }
}

/// Puts the frame that is sent into the buffer.
fn put_frame(call: &Call, sent: &IpOut, octets: &mut FrameBytes, framed: &mut Framed)
    ensures { framed.new.items ≡ gateways.sent_frame call.now sent.now }
{
    write_ui(call, &sent.to, sent.pid, sent.info.as_slice(), octets);
    put_data(octets.as_slice(), framed);
}

/// Writes the frame in octets: a UI command without repeaters.
fn write_ui(call: &Call, to: &Call, pid: u8, info: &[u8], octets: &mut FrameBytes)
    requires { length info.now ≤ 256 }
    ensures exact { octets.new.items ≡ gateways.ui_octets call.now to.now pid info.now }
    ensures len { length octets.new.items ≤ 272 }
{
    let head = Head {
        dest: address_of(*to, true),
        source: address_of(*call, false),
        path: Path::new(),
    };
    let _ = write_frame::<M8>(&head, &Control::Ui { pf: false }, Some(pid), info, octets);
}
