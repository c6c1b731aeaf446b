//! The neighbours that a forwarder knows (RFC 826, "translation table"). Called by `messages` and `packets`.
ghost use Rattle.std.specs.Prelude.{◌≡◌, ◌<◌, ◌==◌, length, position, IfSome};
ghost use Rattle.ax_ip.specs.Machine as caches;

use arrayvec::ArrayVec;
use ax_address::Call;

/// A neighbour's address and its call.
#[derive(Clone, Copy, Debug, Default, PartialEq, Eq)]
pub(crate) struct Neighbour {
    pub(crate) address: u32,
    pub(crate) call: Call,
}

/// The neighbours, the one that was new last at the end.
pub(crate) type Cache = ArrayVec<Neighbour, 64>;

/// The call of the neighbour that has the address.
pub(crate) fn call_of(cache: &[Neighbour], address: u32) -> Option<Call>
    ensures { result ≡ caches.call_of address cache.now }
{
    match cache.iter().find(|neighbour| neighbour.address == address) {
        Some(neighbour) => Some(neighbour.call),
        None => None,
    }
}

/// Enters a neighbour: in the place of its address, or last. Where 64 stand the first one leaves.
pub(crate) fn learn(cache: &mut Cache, neighbour: &Neighbour)
    ensures { cache.new.items ≡ caches.learned cache.old.items neighbour.now }
{
    match place_of(cache.as_slice(), neighbour.address) {
        Some(at) => cache[at] = *neighbour,
        None => {
            if cache.is_full() {
                cache.remove(0);
            }
            cache.push(*neighbour);
        }
    }
}

fn place_of(cache: &[Neighbour], address: u32) -> Option<usize>
    ensures place { result ≡ position (λ n. n.address == address) cache.now }
    ensures within { IfSome result (λ at. at < length cache.now) }
{
    cache.iter().position(|n| n.address == address)
}
