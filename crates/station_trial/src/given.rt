//! What stations of a trial are given, and which of them is. Used by `places` and `tried`, and by who gives it.
use ax_address::Call;

/// What a station is given. The octets of a frame, and what is typed, come beside it. The console that opens, and at which is typed, is
/// its first.
#[derive(Clone, Copy, Debug)]
pub(crate) enum Given {
    /// A frame comes at a port, from 0.
    Heard(u8),
    /// Time has passed.
    Tick,
    /// Each member does a round.
    Round,
    /// The console is opened under this call.
    Open(Call),
    /// A text is typed.
    Typed,
    /// The station goes down.
    Stop,
}

/// Which station is given what.
#[derive(Drop)]
pub(crate) enum Deal {
    /// Each is given this.
    All(Given),
    /// The one at a place is.
    To { at: usize, given: Given },
    /// The one at a place has sent a frame, and each other hears it that has a port of that name.
    Over { from: usize, name: String },
}
