//! Numbers on the air, and their places in a window (AX.25 2.2, section 4.2.4). Called by `ax_frame`, `ax_link`, `link_table`, `circuit_l4`
//! and crates above.
ghost use Rattle.std.specs.Prelude.{◌≡◌, ◌==◌, ◌⊎◌, ℕ, ◌+◌, ◌*◌, ◌%◌, ◌^◌, ◌<◌, ◌≤◌, IfSome, IfNone};
ghost use Rattle.radio_base.specs.Modulus.{IsDistance, IsPlace, extended_if, link_modulus, modulus_size, place_of};
ghost use Rattle.std.proofs.Common.{arith};

/// The highest count of fragments and payloads (this project's profile).
pub const COUNT_MAX: u64 = 1 << 62;

/// What numbers on the air count modulo. On the air a number is from 0 to `SIZE - 1`.
pub trait Modulus {
    ghost SIZE: { ℕ };

    /// How many numbers there are.
    const SIZE: u64;

    /// The number as it stands on the air.
    final fn wire(n: u64) -> u8
        ensures { result ≡ n % SIZE }
    {
        (n % Self::SIZE) as u8
    }

    /// The least number of steps by which one number on the air leads to another.
    final fn dist(from: u8, to: u8) -> u8
        requires from { from < SIZE }
        requires to { to < SIZE }
        ensures exact { IsDistance SIZE from to result }
        ensures below { result < SIZE }
    {
        if from <= to {
            to - from
        } else {
            (Self::SIZE - from as u64 + to as u64) as u8
        }
    }

    /// The one of the `len` numbers from `base` on that stands on the air as `n`.
    final fn place(n: u8, base: u64, len: u64) -> Option<u64>
        requires n { n < SIZE }
        requires len { len ≤ SIZE }
        requires base { base ≤ COUNT_MAX }
        ensures exact { result ≡ place_of SIZE n base len }
        ensures found { IfSome result (IsPlace SIZE n base len) }
        ensures none { IfNone result ((x : ℕ) → ¬ IsPlace SIZE n base len x) }
    {
        let steps = Self::dist(Self::wire(base), n) as u64;
        if steps < len {
            Some(base + steps)
        } else {
            None
        }
    }

    // There are numbers, and an octet holds each.
    ghost some: { 0 < SIZE };

    ghost octets: { SIZE ≤ 256 };
}

/// Numbers from 0 to 7, as on a link that SABM has set up (AX.25 2.2, section 4.3.3).
#[derive(Clone, Copy, Debug, PartialEq, Eq)]
pub struct M8;
/// Numbers from 0 to 127, as on a link that SABME has set up (AX.25 2.2, section 4.3.3).
#[derive(Clone, Copy, Debug, PartialEq, Eq)]
pub struct M128;
/// Numbers from 0 to 255, as in a circuit (NET/ROM Appendix B).
#[derive(Clone, Copy, Debug, PartialEq, Eq)]
pub struct M256;

impl Modulus for M8 {
    ghost SIZE = { 8 };

    const SIZE: u64 = 8;

    ghost some = { Prim.omega arith };

    ghost octets = { Prim.omega arith };
}

impl Modulus for M128 {
    ghost SIZE = { 128 };

    const SIZE: u64 = 128;

    ghost some = { Prim.omega arith };

    ghost octets = { Prim.omega arith };
}

impl Modulus for M256 {
    ghost SIZE = { 256 };

    const SIZE: u64 = 256;

    ghost some = { Prim.omega arith };

    ghost octets = { Prim.omega arith };
}

/// What the numbers of a link and of its frames count modulo, where a value says it (AX.25 2.2, section 4.3.3).
#[derive(Clone, Copy, Debug, PartialEq, Eq)]
pub enum LinkModulus {
    /// Modulo 8, as `M8` on a link that SABM has set up.
    Modulo8,
    /// Modulo 128, as `M128` on a link that SABME has set up: extended operation.
    Modulo128,
}

impl LinkModulus {
    /// The value for this type, which is `M8` or `M128`.
    pub fn of<M: Modulus>() -> LinkModulus
        requires { (M.SIZE ≡ 8) ⊎ (M.SIZE ≡ 128) }
        ensures value { result ≡ link_modulus M.SIZE }
        ensures size { modulus_size result ≡ M.SIZE }
    {
        if M::SIZE == 8 {
            LinkModulus::Modulo8
        } else {
            LinkModulus::Modulo128
        }
    }

    /// Whether it is modulo 128.
    pub fn is_128(self) -> bool
        ensures { result ≡ (modulus_size self == 128) }
    {
        matches!(self, LinkModulus::Modulo128)
    }

    /// Modulo 128 where this holds, else modulo 8.
    pub fn extended_if(extended: bool) -> LinkModulus
        ensures { result ≡ extended_if extended }
    {
        if extended {
            LinkModulus::Modulo128
        } else {
            LinkModulus::Modulo8
        }
    }
}
