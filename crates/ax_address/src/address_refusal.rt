//! Why octets are no address (AX.25 2.2, section 3.12). Called by `net_calls` and `octets`, and by `ax_frame`.
ghost use Rattle.std.specs.Prelude.{◌≡◌};
ghost use Rattle.ax_address.specs.Octets as octet;

/// Why octets are no address. Places count octets from 0.
#[derive(Clone, Copy, Debug, PartialEq, Eq)]
pub enum AddressRefusal {
    /// The octet at `at` is no capital letter, digit or space, shifted left by one, or a space that no
    /// character precedes.
    BadChar { at: usize },
    /// The octet at `at` is a character after a space.
    BadPadding { at: usize },
}

impl AddressRefusal {
    /// The place of the octet.
    pub fn at(&self) -> usize
        ensures { result ≡ octet.refused_octet self.now }
    {
        match *self {
            AddressRefusal::BadChar { at } | AddressRefusal::BadPadding { at } => at,
        }
    }
}
