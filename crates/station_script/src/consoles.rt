//! What consoles send: an octet for the console, one for the kind, and the rest. Called by the crates that run a station, for each frame on
//! KISS port 15.
ghost use Rattle.std.specs.Prelude.{◌≡◌};
ghost use Rattle.station_script.specs.Saying as saying;

/// What a console sends. A call is as it was typed.
#[derive(Clone, Copy, Debug)]
pub enum ConsoleFrame<'a> {
    /// `O` and a call: the console opens.
    Open { console: u8, call: &'a [u8] },
    /// `T` and a text: that is typed.
    Text { console: u8, text: &'a [u8] },
    /// `C`: the console closes.
    Close { console: u8 },
    /// `S` of console 255, which is the hub: the station goes down.
    Stop,
}

/// The console at which the hub speaks.
const HUB: u8 = 255;

/// What a frame says that a console sends, if anything.
pub fn console_frame<'a>(octets: &'a [u8]) -> Option<ConsoleFrame<'a>>
    ensures { saying.if_said result ≡ saying.said_by octets.now }
{
    match octets {
        [console, kind, rest @ ..] => said_by(*console, *kind, rest),
        _ => None,
    }
}

fn said_by<'a>(console: u8, kind: u8, rest: &'a [u8]) -> Option<ConsoleFrame<'a>>
    ensures { saying.if_said result ≡ saying.said console kind rest.now }
{
    match kind {
        b'O' => Some(ConsoleFrame::Open {
            console,
            call: rest,
        }),
        b'T' => Some(ConsoleFrame::Text {
            console,
            text: rest,
        }),
        b'C' => Some(ConsoleFrame::Close { console }),
        b'S' if console == HUB => Some(ConsoleFrame::Stop),
        _ => None,
    }
}
