//! The routes of a forwarder. Called by `forwarder` and `packets`.
ghost use Rattle.std.specs.Prelude.{◌≡◌, ◌≤◌};
ghost use Rattle.ax_ip.specs.Routes as spec;

use crate::route::IpRoute;

/// Why a route isn't taken. What stands first comes first.
#[derive(Clone, Copy, Debug, PartialEq, Eq)]
pub enum RouteRefusal {
    /// The prefix is to have more than 32 bits, or has a bit past its length set.
    Bits,
    /// A route with this prefix and this length stands.
    Twice,
    /// 16 routes stand.
    Full,
}

/// Whether the prefix has a bit past its length.
pub(crate) fn has_bits_past(prefix: u32, len: u8) -> bool
    requires { len ≤ 32 }
    ensures { result ≡ spec.has_bits_past prefix len }
{
    prefix as u64 % (1 << (32 - len)) != 0
}

/// Whether a route of this prefix stands.
pub(crate) fn stands(routes: &[IpRoute], prefix: u32, len: u8) -> bool
    ensures { result ≡ spec.stands prefix len routes.now }
{
    routes
        .iter()
        .any(|route| route.prefix == prefix && route.len == len)
}

/// Whether the address begins with the route's prefix.
fn matches(route: &IpRoute, dest: u32) -> bool
    ensures { result ≡ spec.matches dest route.now }
{
    let past = 32 - route.len;
    dest as u64 >> past == route.prefix as u64 >> past
}

/// The longest route to an address.
pub(crate) fn longest(routes: &[IpRoute], dest: u32) -> Option<IpRoute>
    ensures { result ≡ spec.longest dest routes.now }
{
    let mut best = None;
    for route in routes.iter().rev() {
        if matches(route, dest) {
            best = Some(longer(route, best));
        }
    }
    best
}

fn longer(first: &IpRoute, other: Option<IpRoute>) -> IpRoute
    ensures { result ≡ spec.longer first.now other }
{
    match other {
        Some(other) if other.len > first.len => other,
        _ => *first,
    }
}

/// The address to which a packet by this route goes next.
pub(crate) fn next_hop(route: &IpRoute, dest: u32) -> u32
    ensures { result ≡ spec.next_hop route.now dest }
{
    if route.hop == 0 { dest } else { route.hop }
}
