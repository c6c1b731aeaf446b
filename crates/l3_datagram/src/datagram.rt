//! Datagrams in octets (NET/ROM, Appendix B, level 3). Called by `carrier`, `plain_carrier`, `routed` and `router`, and by `circuit_l4`,
//! `circuit_table` and crates above.
ghost use Rattle.std.specs.Prelude.{◌≡◌, ◌+◌, ◌<◌, ◌≤◌, ◌↔◌, List, ℕ, Ok, length, take, drop, IfOk, IsOk, IsErr};
ghost use Rattle.ax_address.specs.Octets.{SpellsNetCall};
ghost use Rattle.l3_datagram.specs.Datagrams as octet;
ghost use Rattle.l3_datagram.specs.Routers.{with_ttl};
ghost use Rattle.l3_datagram.specs.declared.datagram.DatagramHead.{DatagramHead};

use arrayvec::ArrayVec;
use ax_address::{Call, read_net_call, write_net_call};

/// A datagram: the call of its origin, the call of its destination, its time to live, and its transport (NET/ROM,
/// Appendix B). It has at most 256 octets, as many as an information frame carries.
pub type Datagram = ArrayVec<u8, 256>;

/// A message of one user to another, of at most 8,192 bytes (this project's profile).
pub type Message = ArrayVec<u8, 8192>;

/// The place of the time to live.
pub const TTL_AT: usize = 14;
/// How many octets stand before the transport.
pub const HEAD_SIZE: usize = 15;
/// The most octets of a datagram.
pub const MAX_DATAGRAM: usize = 256;

/// What stands before the transport of a datagram.
#[derive(Clone, Copy, Debug, PartialEq, Eq)]
pub struct DatagramHead {
    pub origin: Call,
    pub dest: Call,
    /// The time to live: how many hops the datagram may still go over.
    pub ttl: u8,
}

/// Why octets are no datagram. Places count octets from 0.
#[derive(Clone, Copy, Debug, PartialEq, Eq)]
pub enum DatagramRefusal {
    /// The octets end at `at`, before the transport.
    Short { at: usize },
    /// There are more than 256 octets.
    TooLong,
    /// The octet at `at` can't stand in a call there.
    BadCall { at: usize },
}

/// The transport has more than 241 octets.
#[derive(Clone, Copy, Debug, PartialEq, Eq)]
pub struct TooLong;

/// The head of the datagram that the octets spell, or the first reason for which they spell none: their number, and
/// then the calls.
#[tactic(auto, unfolding(crate::specs::Datagrams::head_at))]
pub fn read_datagram(bytes: &[u8]) -> Result<DatagramHead, DatagramRefusal>
    ensures exact { result ≡ octet.head_at bytes.now }

    // What is read is spelled so.
    ensures found { IfOk result (λ head. octet.SpellsDatagram head (drop 15 bytes.now) bytes.now) }
    ensures size { IsOk result → (15 ≤ length bytes.now) × (length bytes.now ≤ 256) }
{
    if bytes.len() < HEAD_SIZE {
        return Err(DatagramRefusal::Short { at: bytes.len() });
    }
    if bytes.len() > MAX_DATAGRAM {
        return Err(DatagramRefusal::TooLong);
    }
    let origin = call_from(0, bytes)?;
    let dest = call_from(7, bytes)?;
    Ok(DatagramHead {
        origin,
        dest,
        ttl: bytes[TTL_AT],
    })
}

/// The call in the seven octets from a place on.
fn call_from(at: usize, bytes: &[u8]) -> Result<Call, DatagramRefusal>
    requires { at + 7 ≤ length bytes.now }
    ensures exact { result ≡ octet.call_from at bytes.now }
    ensures found { IfOk result (λ call. SpellsNetCall call (take 7 (drop at bytes.now))) }
{
    let mut octets = [0; 7];
    octets.copy_from_slice(&bytes[at..at + 7]);
    match read_net_call(&octets) {
        Ok(call) => Ok(call),
        Err(refusal) => Err(DatagramRefusal::BadCall {
            at: at + refusal.at(),
        }),
    }
}

/// The datagram with this head and this transport.
pub fn write_datagram(head: &DatagramHead, transport: &[u8]) -> Result<Datagram, TooLong>
    ensures exact { IfOk result (λ datagram. datagram ≡ octet.datagram_with head.now transport.now) }
    ensures spelled { IfOk result (λ datagram. octet.SpellsDatagram head.now transport.now datagram.items) }
    ensures long { IsErr result ↔ (241 < length transport.now) }
{
    if transport.len() > MAX_DATAGRAM - HEAD_SIZE {
        return Err(TooLong);
    }
    Ok(datagram_of(head, transport))
}

/// The datagram with this head and this transport, where there is room for it.
pub(crate) fn datagram_of(head: &DatagramHead, transport: &[u8]) -> Datagram
    requires { length transport.now ≤ 241 }
    ensures exact { result ≡ octet.datagram_with head.now transport.now }
    ensures spelled { octet.SpellsDatagram head.now transport.now result.items }
{
    let mut datagram = Datagram::new();
    let _ = datagram.try_extend_from_slice(&write_net_call(&head.origin));
    let _ = datagram.try_extend_from_slice(&write_net_call(&head.dest));
    let _ = datagram.try_push(head.ttl);
    let _ = datagram.try_extend_from_slice(transport);
    datagram
}

/// Gives a datagram another time to live.
pub(crate) fn set_ttl(datagram: &mut Datagram, ttl: u8)
    requires { 15 ≤ length datagram.old.items }
    ensures { datagram.new ≡ with_ttl datagram.old ttl }
{
    datagram[TTL_AT] = ttl;
}

/// A datagram of the same octets.
pub(crate) fn copy_of(datagram: &Datagram) -> Datagram
    ensures { result ≡ datagram.now }
{
    let mut copy = Datagram::new();
    let _ = copy.try_extend_from_slice(datagram.as_slice());
    copy
}
