//! The routing step of a node (NET/ROM, Appendix B, level 3). Called by `circuit_table` and `node_core`.
ghost use Rattle.std.specs.Prelude.{◌≡◌, ◌≤◌, ◌↔◌, drop, length, IfOk, IsErr, IsTrue, true, false, None, [], ◌∷◌};
ghost use Rattle.std.specs.Borrow.{Lends, sem};

use crate::datagram::{datagram_of, set_ttl};
use crate::{Carrier, Datagram, DatagramHead, Offered, Routed, Sending, read_datagram};
use ax_address::Call;
use radio_base::{Moment, NoMemory};
use route_table::RouteTable;
use std::alloc::Global;
use std::marker::Model;

/// The routing step of a node, over a carrier (NET/ROM, Appendix B, level 3): a pure machine, which reads no clock. Its calls are of three
/// kinds.
///
/// - Inputs: `send` of a transport of this node, with its moment in milliseconds. What is heard and what comes from neighbours is brought
///   to the table and the carrier, which `table_mut` and `carrier_mut` lend.
/// - Outputs: `pump`, with its moment. Whenever something came to the carrier it is called until it answers None: it takes one lost
///   neighbour or one datagram, and says what became of it.
/// - Looks, which change nothing: `own`, `ttl`, `table`, `carrier`, `is_idle`.
///
/// It takes no memory of its own; once its carrier has answered NoMemory it is spent, and answers that ever after. What becomes of a
/// datagram stands case by case in `specs/Routers.antt`.
///
/// In use (`l3_datagram_tests`, `a_router_in_use`):
///
/// ```text
/// let mut router = Router::new(alloc, own, table, PlainCarrier::new(alloc), 25);
/// let sent = router.send(&dest, &transport, now)?; // Sent
/// let out = router.carrier_mut().fetch(); // the next hop, and the datagram
/// router.carrier_mut().bring(&neighbour, &ours)?;
/// let up = router.pump(now)?; // Mine, with its origin
/// router.carrier_mut().bring(&neighbour, &others)?;
/// let on = router.pump(now)?; // Forwarded
/// let went = router.carrier_mut().fetch(); // the next hop, and the datagram with one hop less
/// let none = router.pump(now)?; // None
/// ```
#[derive(Drop)]
pub struct Router<C> {
    own: Call,
    ttl: u8,
    table: RouteTable,
    carrier: C,
    spent: bool,
}

impl<C> Model for Router<C> {
    ghost use Rattle.l3_datagram.specs.Routers.{Routing};

    ghost Value = { Routing C };

    ghost view = { λ r. record { own = r.own; ttl = r.ttl; table = r.table; carrier = r.carrier; spent = r.spent } };
}

impl<C: Carrier> Router<C> {
    ghost use Rattle.l3_datagram.specs.Routers.{Routing, Routes, Pumps, Sends, SameRouter, HandsUp, MineIsFor, NoneWhereEmpty, TellsLost, waiting_left};
    ghost use Rattle.l3_datagram.specs.Datagrams.{Collect, Fail, Offer, datagram_with};
    ghost use Rattle.l3_datagram.specs.contracts.router.Router.{the_row};
    ghost use Rattle.route_table.specs.contracts.table.RouteTable.{the_row as table_row};

    /// A router of the node `own`, whose datagrams go over `ttl` hops at most. The allocator stands here as at each
    /// constructor of what grows later on: the table and the carrier have theirs.
    pub fn new(_alloc: Global, own: Call, table: RouteTable, carrier: C, ttl: u8) -> Router<C>
        requires { 1 ≤ ttl }
        ensures { result ≡ record { own = own; ttl = ttl; table = table; carrier = carrier; spent = false } }
    {
        Router {
            own,
            ttl,
            table,
            carrier,
            spent: false,
        }
    }

    /// Sends a datagram of this node with this transport, of at most 241 octets, to the next hop towards `to`.
    pub fn send(&mut self, to: &Call, transport: &[u8], now: Moment) -> Result<Sending, NoMemory>
        requires { length transport.now ≤ 241 }
        ensures sends { let d = datagram_with
            (record { origin = self.old.own; dest = to.now; ttl = self.old.ttl }) transport.now in
            IfOk result (Sends C.made self.old self.new to.now d now.0) }
        ensures lost { C.lost self.new.carrier ≡ C.lost self.old.carrier }
        ensures waiting { C.waiting self.new.carrier ≡ C.waiting self.old.carrier }
        ensures table { self.new.table ≡ self.old.table }
        ensures same { SameRouter self.old self.new }
        ensures memory { IsErr result ↔ IsTrue self.new.spent }
        ensures spent { IsTrue self.old.spent → self.new ≡ self.old }
    {
        if self.spent {
            return Err(NoMemory);
        }
        let head = DatagramHead {
            origin: self.own,
            dest: *to,
            ttl: self.ttl,
        };
        match self.table.next_hop(to) {
            None => Ok(Sending::NoRoute),
            Some(hop) => match self.offer(&hop, &datagram_of(&head, transport), now)? {
                Offered::Taken => Ok(Sending::Sent),
                Offered::Dropped => Ok(Sending::Dropped),
            },
        }
    }

    /// Takes one lost neighbour or else one waiting datagram from the carrier, and says what became of it: None where
    /// neither is there.
    pub fn pump(&mut self, now: Moment) -> Result<Option<Routed>, NoMemory>
        ensures pumps { IfOk result (Pumps C.made self.old self.new
            (C.lost self.old.carrier) (C.waiting self.old.carrier) now.0) }
        ensures mine { IfOk result (HandsUp self.old.own) }
        ensures first { IfOk result (TellsLost (C.lost self.old.carrier)) }
        ensures none { IfOk result (NoneWhereEmpty (C.lost self.old.carrier) (C.waiting self.old.carrier)) }
        ensures lost { IfOk result (λ _. C.lost self.new.carrier ≡ drop 1 (C.lost self.old.carrier)) }
        ensures waiting { IfOk result (λ _. C.waiting self.new.carrier
            ≡ waiting_left (C.lost self.old.carrier) (C.waiting self.old.carrier)) }
        ensures same { SameRouter self.old self.new }
        ensures memory { IsErr result ↔ IsTrue self.new.spent }
        ensures spent { IsTrue self.old.spent → self.new ≡ self.old }
    {
        if self.spent {
            return Err(NoMemory);
        }
        if let Some(neighbour) = self.carrier.failed() {
            self.table.link_failed(&neighbour);
            return Ok(Some(Routed::Lost(neighbour)));
        }
        match self.carrier.collect() {
            None => Ok(None),
            Some((_, datagram)) => {
                let routed = self.route(datagram, now)?;
                Ok(Some(routed))
            }
        }
    }

    /// Whether there is nothing to take, neither a lost neighbour nor a datagram: `pump` answers None exactly then.
    pub fn is_idle(&self) -> bool
        ensures { result ≡ true ↔ (C.lost self.now.carrier ≡ []) × (C.waiting self.now.carrier ≡ []) }
    {
        self.carrier.is_idle()
    }

    /// The routing step: what becomes of a datagram that came.
    fn route(&mut self, mut datagram: Datagram, now: Moment) -> Result<Routed, NoMemory>
        requires { self.old.spent ≡ false }
        ensures routes { IfOk result (Routes C.made self.old self.new datagram now.0) }
        ensures mine { IfOk result (MineIsFor self.old.own) }
        ensures lost { C.lost self.new.carrier ≡ C.lost self.old.carrier }
        ensures waiting { C.waiting self.new.carrier ≡ C.waiting self.old.carrier }
        ensures table { self.new.table ≡ self.old.table }
        ensures same { SameRouter self.old self.new }
        ensures memory { IsErr result ↔ IsTrue self.new.spent }
    {
        let head = match read_datagram(&datagram) {
            Ok(head) => head,
            Err(_) => return Ok(Routed::Bad),
        };
        if head.origin == self.own {
            return Ok(Routed::Returned);
        }
        if head.dest == self.own {
            let origin = head.origin;
            return Ok(Routed::Mine { origin, datagram });
        }
        if head.ttl <= 1 {
            return Ok(Routed::Expired);
        }
        match self.table.next_hop(&head.dest) {
            None => Ok(Routed::NoRoute),
            Some(hop) => {
                set_ttl(&mut datagram, head.ttl - 1);
                match self.offer(&hop, &datagram, now)? {
                    Offered::Taken => Ok(Routed::Forwarded),
                    Offered::Dropped => Ok(Routed::Dropped),
                }
            }
        }
    }

    /// Offers a datagram to the carrier. Want of memory spends the router.
    fn offer(&mut self, to: &Call, datagram: &Datagram, now: Moment) -> Result<Offered, NoMemory>
        ensures made { IfOk result (λ answer. C.made self.old.carrier
            (Offer to.now datagram.now now.0 answer ∷ []) self.new.carrier) }
        ensures lost { C.lost self.new.carrier ≡ C.lost self.old.carrier }
        ensures waiting { C.waiting self.new.carrier ≡ C.waiting self.old.carrier }
        ensures same { self.new ≡ record self.old { carrier = self.new.carrier; spent = self.new.spent } }
        ensures memory { IsErr result ↔ IsTrue self.new.spent }
    {
        let offered = self.carrier.offer(to, datagram, now);
        self.spent = offered.is_err();
        offered
    }

    /// This node's call.
    pub fn own(&self) -> Call
        ensures { result ≡ self.now.own }
    {
        self.own
    }

    /// How many hops a datagram of this node goes over at most.
    pub fn ttl(&self) -> u8
        ensures { result ≡ self.now.ttl }
    {
        self.ttl
    }

    /// The node's routing table.
    pub fn table(&self) -> &RouteTable
        ensures { result.now ≡ self.now.table }
    {
        &self.table
    }

    /// The table, lent to be changed: as it is given back it is the router's table from then on.
    pub fn table_mut(&mut self) -> &mut RouteTable
        ensures value { result.now ≡ self.old.table }
        ensures* writes_back { sem 𝓛
            (Lends (the_row C.row) table_row self.entry result (λ w. record self.old { table = w })) }
    {
        &mut self.table
    }

    /// What carries the datagrams.
    pub fn carrier(&self) -> &C
        ensures { result.now ≡ self.now.carrier }
    {
        &self.carrier
    }

    /// The carrier, lent to be changed: as it is given back it is the router's carrier from then on.
    pub fn carrier_mut(&mut self) -> &mut C
        ensures value { result.now ≡ self.old.carrier }
        ensures* writes_back { sem 𝓛
            (Lends (the_row C.row) C.row self.entry result (λ w. record self.old { carrier = w })) }
    {
        &mut self.carrier
    }
}
