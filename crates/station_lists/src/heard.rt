//! Who was heard at a port. Called by the crates that run a station.
ghost use Rattle.std.specs.Prelude.{◌≡◌, ◌++◌, IfOk, OnOk, string_bytes};
ghost use Rattle.station_lists.specs.Lists as lists;

use radio_base::{Moment, NoMemory, TextOut};
use station_ports::Heard;
use station_prompt::age_text;
use std::alloc::{AllocError, Global};

/// Adds who was heard at the port of this name, in the order of the list.
pub fn add_heard(
    alloc: Global,
    name: &str,
    heard: &[Heard],
    now: Moment,
    reply: &mut TextOut,
) -> Result<(), NoMemory>
    ensures { OnOk result (reply.new ≡ reply.old ++ lists.heard_text name.now now.0 heard.now) }
{
    let head = head_line(alloc, name)?;
    reply.text(head.as_str())?;
    for one in heard {
        let line = line_of(alloc, one, now)?;
        reply.text(line.as_str())?;
    }
    Ok(())
}

fn head_line(alloc: Global, name: &str) -> Result<String, AllocError>
    ensures { IfOk result (λ s. string_bytes s ≡ lists.heard_head name.now) }
{
    format!(in alloc; "Heard on {name}:\r")
}

/// CALL COUNT AGE
fn line_of(alloc: Global, heard: &Heard, now: Moment) -> Result<String, AllocError>
    ensures { IfOk result (λ s. string_bytes s ≡ lists.heard_line now.0 heard.now) }
{
    let call = heard.call.show();
    let call = call.as_str();
    let count = heard.count;
    let age = age_text(now.0.saturating_sub(heard.last.0));
    let age = age.as_str();
    format!(in alloc; "{call} {count} {age}\r")
}
