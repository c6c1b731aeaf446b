//! A route. Used by `forwarder` and `routes`.
ghost use Rattle.std.specs.Prelude.{◌≤◌};

/// Packets to the addresses that begin with the first `len` bits of `prefix` go to `hop`, or where that is 0 to their
/// destination itself.
#[derive(Clone, Copy, Debug, PartialEq, Eq)]
pub(crate) struct IpRoute {
    pub(crate) prefix: u32,
    pub(crate) len: u8,
    pub(crate) hop: u32,
    ghost bits: { len ≤ 32 },
}

impl Default for IpRoute {
    /// The route to everything: what an unused place of an `ArrayVec` holds.
    fn default() -> Self {
        IpRoute {
            prefix: 0,
            len: 0,
            hop: 0,
        }
    }
}
