//! A forwarder of packets: an IP gateway (RFC 791, section 2.4) with one address. Called by `tool_cmd`.
ghost use Rattle.std.specs.Prelude.{◌≡◌, ◌++◌, ◌∷◌, [], None, OnOk, OnErr, true};
ghost use Rattle.std.specs.Option.{option_copied};
ghost use Rattle.ax_frame.specs.Frames.{view as frame_of};
ghost use Rattle.ax_ip.specs.Machine as machine;
ghost use Rattle.ax_ip.specs.Routes as routes;

use crate::content::{Content, content_of};
use crate::ip_done::{IpDone, IpWhy};
use crate::neighbours::Cache;
use crate::out::{IP_PID, Info, IpOut};
use crate::route::IpRoute;
use crate::routes::{RouteRefusal, has_bits_past, stands};
use arrayvec::ArrayVec;
use ax_address::Call;
use ax_frame::FrameView;

/// A forwarder of packets, with at most 16 routes and 64 neighbours (RFC 791, section 2.4; RFC 826): a pure machine, which reads no clock
/// and no stream. Its calls are of two kinds.
///
/// - Inputs: `route` of its user, `arrive` of a frame, once what the last one left to send was fetched.
/// - Outputs: `next_out`, which is fetched once after `arrive`; or `fetched`, where what `waiting` lends was sent.
/// - Looks, which change nothing: `waiting`.
///
/// No call takes memory. What becomes of a frame stands case by case in `specs/Machine.antt`.
///
/// In use (`ax_ip_tests`, `a_forwarder_in_use`):
///
/// ```text
/// let mut forwarder = Forwarder::new(call, addr);
/// let routed = forwarder.route(prefix, len, hop); // Ok
/// let asks = forwarder.arrive(&packet); // Asked: the hop isn't known yet
/// let request = forwarder.next_out(); // a request of ARP to QST
/// let learns = forwarder.arrive(&reply); // Learned
/// let none = forwarder.next_out(); // None
/// let sends = forwarder.arrive(&packet); // Forwarded
/// let onward = forwarder.next_out(); // the packet, with one hop less
/// ```
#[derive(Drop)]
pub struct Forwarder {
    pub(crate) call: Call,
    pub(crate) address: u32,
    pub(crate) routes: ArrayVec<IpRoute, 16>,
    pub(crate) cache: Cache,
    /// What was made to be sent last. It stands in one place, since it is long to move.
    pub(crate) out: IpOut,
    /// It waits to be fetched.
    pub(crate) waits: bool,
}

impl Forwarder {
    /// A forwarder of this call and this address, with no routes and no neighbours.
    pub fn new(call: Call, addr: u32) -> Forwarder
        ensures state { machine.state result ≡ record { call = call; address = addr; routes = []; cache = [] } }
        ensures out { machine.waiting result ≡ None }
    {
        Forwarder {
            call,
            address: addr,
            routes: ArrayVec::new(),
            cache: Cache::new(),
            out: IpOut {
                to: call,
                pid: IP_PID,
                info: Info::new(),
            },
            waits: false,
        }
    }

    /// Takes a route in. It is refused, in this order: `Bits` where the prefix is to have more than 32 bits or has one past its length,
    /// `Twice` where a route with this prefix and length stands, `Full` where 16 routes do. A refusal changes nothing.
    pub fn route(&mut self, prefix: u32, len: u8, hop: u32) -> Result<(), RouteRefusal>
        ensures exact { result ≡ routes.route_at prefix len (machine.state self.old).routes }
        ensures entered { OnOk result ((r : routes.IpRoute) × routes.IsRoute prefix len hop r
            × (machine.state self.new
            ≡ record (machine.state self.old) { routes = (machine.state self.old).routes ++ r ∷ [] })) }
        ensures out { machine.waiting self.new ≡ machine.waiting self.old }
        ensures err { OnErr result (self.new ≡ self.old) }
    {
        if len > 32 || has_bits_past(prefix, len) {
            return Err(RouteRefusal::Bits);
        }
        if stands(self.routes.as_slice(), prefix, len) {
            return Err(RouteRefusal::Twice);
        }
        if self.routes.is_full() {
            return Err(RouteRefusal::Full);
        }
        self.routes.push(IpRoute { prefix, len, hop });
        Ok(())
    }

    /// Takes a frame in.
    #[tactic(auto, unfolding(crate::specs::Machine::turn))]
    pub fn arrive(&mut self, frame: &FrameView<'_>) -> IpDone
        requires fetched { machine.waiting self.old ≡ None }
        ensures turn { machine.Does (machine.turn (machine.state self.old) (frame_of frame.now))
            result self.old self.new }
    {
        match content_of(frame, &self.call) {
            Content::Packet => self.take_packet(&frame.head.source.call, frame.info),
            Content::Arp => self.take_arp(frame.info),
            Content::Nothing => IpDone::Dropped(IpWhy::NotMine),
        }
    }

    /// What the last arrival left to send.
    pub fn next_out(&mut self) -> Option<IpOut>
        ensures out { result ≡ machine.waiting self.old }
        ensures fetched { machine.waiting self.new ≡ None }
        ensures same { machine.state self.new ≡ machine.state self.old }
    {
        if !self.waits {
            return None;
        }
        self.waits = false;
        Some(IpOut {
            to: self.out.to,
            pid: self.out.pid,
            info: self.out.info.take(),
        })
    }

    /// What `next_out` would give, lent.
    pub fn waiting(&self) -> Option<&IpOut>
        ensures { option_copied result ≡ machine.waiting self.now }
    {
        if self.waits { Some(&self.out) } else { None }
    }

    /// What `waiting` lends was sent: nothing waits behind this.
    pub fn fetched(&mut self)
        ensures fetched { machine.waiting self.new ≡ None }
        ensures same { machine.state self.new ≡ machine.state self.old }
    {
        self.waits = false;
    }

    /// Lets the information that stands in `out` wait, on its way to a station.
    pub(crate) fn send(&mut self, to: &Call, pid: u8)
        ensures { self.new ≡ record self.old { out = record self.old.out { to = to.now; pid = pid }; waits = true } }
    {
        self.out.to = *to;
        self.out.pid = pid;
        self.waits = true;
    }
}
