//! Why a node didn't do what a line asks for, as the line's refusal. Want of memory is none: the replay ends there. Called by `answer` and
//! net_world.
ghost use Rattle.std.specs.Prelude.{◌≡◌};
ghost use Rattle.net_model.specs.Refused as refused;

use crate::refusals::LineRefusal;
use circuit_l4::WriteRefusal;
use node_core::ActRefusal;
use node_mail::PostRefusal;

/// Why a node didn't act. What a node refuses that hosts users no line asks for.
pub fn of_act(refusal: ActRefusal) -> Option<LineRefusal>
    ensures { result ≡ refused.of_act refusal }
{
    match refusal {
        ActRefusal::NoEnd => Some(LineRefusal::NoEnd),
        ActRefusal::Served => Some(LineRefusal::Served),
        ActRefusal::Nothing => Some(LineRefusal::Nothing),
        ActRefusal::Own => Some(LineRefusal::Own),
        ActRefusal::NoRoute => Some(LineRefusal::NoRoute),
        ActRefusal::Full => Some(LineRefusal::Full),
        ActRefusal::TooLow => Some(LineRefusal::TooLow),
        ActRefusal::TableFull { .. } => Some(LineRefusal::TableFull),
        ActRefusal::Write(refusal) => Some(of_write(refusal)),
        ActRefusal::NoLink => Some(LineRefusal::NoEnd),
        ActRefusal::Standing => Some(LineRefusal::Full),
        ActRefusal::TooLong => Some(LineRefusal::TooLong),
        ActRefusal::NoRoom => Some(LineRefusal::QueueFull),
        ActRefusal::NoMemory => None,
    }
}

/// Why a message isn't written.
fn of_write(refusal: WriteRefusal) -> LineRefusal
    ensures { result ≡ refused.of_write refusal }
{
    match refusal {
        WriteRefusal::NotUp => LineRefusal::NotUp,
        WriteRefusal::Closing => LineRefusal::Closing,
        WriteRefusal::Empty => LineRefusal::Empty,
        WriteRefusal::TooLong => LineRefusal::TooLong,
        WriteRefusal::QueueFull => LineRefusal::QueueFull,
        WriteRefusal::Exhausted => LineRefusal::Exhausted,
    }
}

/// Why a mail isn't posted.
pub fn of_post(refusal: PostRefusal) -> Option<LineRefusal>
    ensures { result ≡ refused.of_post refusal }
{
    match refusal {
        PostRefusal::Own => Some(LineRefusal::Own),
        PostRefusal::Empty => Some(LineRefusal::Empty),
        PostRefusal::TooLong => Some(LineRefusal::TooLong),
        PostRefusal::Full => Some(LineRefusal::Full),
        PostRefusal::Exhausted => Some(LineRefusal::Exhausted),
        PostRefusal::NoMemory => None,
    }
}
