//! Information messages, and by what each is found again. Called by `sendings`.
ghost use Rattle.std.specs.Prelude.{◌≡◌};

use crate::names::Name;

/// An information message: the end that has sent it or has heeded it, and its number.
#[derive(Clone, Copy, Debug, PartialEq, Eq, Hash)]
pub(crate) struct MessageName {
    pub(crate) who: Name,
    pub(crate) number: u64,
}

impl MessageName {
    pub(crate) fn of(who: &Name, number: u64) -> MessageName
        ensures { result ≡ record { who = who.now; number = number } }
    {
        MessageName { who: *who, number }
    }
}

/// An information message: its number, and the place of its first sending.
#[derive(Clone, Copy, Debug, PartialEq, Eq)]
pub(crate) struct Message {
    pub(crate) number: u64,
    pub(crate) first: u64,
}
