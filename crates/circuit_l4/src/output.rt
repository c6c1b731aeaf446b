//! What waits to be put out: kinds, numbers and flags, without the text. Called by `machine`.
ghost use Rattle.std.specs.Prelude.{◌≡◌, ◌-◌, Some};
ghost use Rattle.circuit_l4.specs.Outputs.{fragment_from, out_of, with_text};

use crate::outgoing::Outgoing;
use crate::pair::Pair;
use crate::transport::{Flags, Transport};
use ax_address::Call;
use radio_base::{M256, Modulus};

/// What an end puts out, with the number of the fragment that it carries.
pub(crate) type Out = (Transport, Option<u64>);

/// What waits to be put out: a transport whose text stays where it was written until it is fetched.
#[derive(Clone, Copy, Debug, PartialEq, Eq)]
pub(crate) enum Output {
    Request {
        pair: Pair,
        window: u8,
        user: Call,
        node: Call,
    },
    Accept {
        to: Pair,
        own: Pair,
        window: u8,
    },
    Disconnect {
        to: Pair,
    },
    Disconnected {
        to: Pair,
    },
    /// The fragment of this number.
    Info {
        to: Pair,
        number: u64,
        rx: u8,
        choke: bool,
    },
    InfoAck {
        to: Pair,
        rx: u8,
        flags: Flags,
    },
}

impl Output {
    /// What goes out, with its text from what was written.
    pub(crate) fn fetch(self, outgoing: &Outgoing) -> Out
        ensures { result ≡ out_of outgoing.now.queue (outgoing.now.acked - outgoing.now.done) self }
    {
        match self {
            Output::Request {
                pair,
                window,
                user,
                node,
            } => (
                Transport::Request {
                    pair,
                    window,
                    user,
                    node,
                },
                None,
            ),
            Output::Accept { to, own, window } => (Transport::Accept { to, own, window }, None),
            Output::Disconnect { to } => (Transport::Disconnect { to }, None),
            Output::Disconnected { to } => (Transport::Disconnected { to }, None),
            Output::Info {
                to,
                number,
                rx,
                choke,
            } => (info(to, number, rx, choke, outgoing), Some(number)),
            Output::InfoAck { to, rx, flags } => (Transport::InfoAck { to, rx, flags }, None),
        }
    }
}

/// An information message with the fragment of this number.
fn info(to: Pair, number: u64, rx: u8, choke: bool, outgoing: &Outgoing) -> Transport
    ensures { (result, Some number)
        ≡ with_text to number rx choke
        (fragment_from outgoing.now.queue (outgoing.now.acked - outgoing.now.done) number) }
{
    let piece = outgoing.piece(number);
    Transport::Info {
        to,
        tx: M256::wire(number),
        rx,
        flags: Flags {
            choke,
            nak: false,
            more: piece.more,
        },
        text: piece.text,
    }
}
