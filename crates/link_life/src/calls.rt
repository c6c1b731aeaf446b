//! The calls of both stations. Called by `life`, `told` and `turn`.
ghost use Rattle.std.specs.Prelude.{◌≡◌};
ghost use Rattle.link_life.specs.declared.act.Side.TheVariants.{A, B};
ghost use Rattle.link_life.specs.Reports as reports;

use crate::act::Side;
use ax_address::Call;

/// The calls of both stations, which are read once for all frames.
#[derive(Clone, Copy)]
pub struct Calls {
    a: Call,
    b: Call,
    ghost a_is: { a ≡ reports.call_of A },
    ghost b_is: { b ≡ reports.call_of B },
}

impl Calls {
    pub fn new() -> Calls {
        Calls {
            a: call_of(Side::A),
            b: call_of(Side::B),
        }
    }

    /// The call of a side.
    pub fn of(&self, side: Side) -> Call
        ensures { result ≡ reports.call_of side }
    {
        match side {
            Side::A => self.a,
            Side::B => self.b,
        }
    }
}

#[tactic(auto, unfolding(ax_address::specs::Callsign::call_at))]
fn call_of(side: Side) -> Call
    ensures { result ≡ reports.call_of side }
{
    let text = match side {
        Side::A => b"N0AAA",
        Side::B => b"N0BBB",
    };
    Call::read(text).unwrap_or_default()
}
