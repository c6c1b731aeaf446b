//! The lines of events that are told by what they hold alone. `reports` calls it.
ghost use Rattle.std.specs.Prelude.{◌≡◌, ◌++◌, OnOk};
ghost use Rattle.net_model.specs.Events.{event_of};
ghost use Rattle.net_report.specs.ToldLines as lines;

use crate::told::lines::write_line;
use crate::told::mails::stored_line;
use net_model::Event;
use radio_base::{NoMemory, TextOut};
use std::alloc::Global;
use text_lines::shown_text;

/// Appends the line by which a report tells of an event, where that is made of what the event holds alone.
pub(crate) fn write_event_line(
    alloc: Global,
    event: &Event,
    text: &mut TextOut,
) -> Result<(), NoMemory>
    ensures { OnOk result (text.new ≡ text.old ++ lines.event_line (event_of event.now)) }
{
    match event {
        Event::Took { node, end, message } => {
            let len = message.len();
            let shown = shown_text(alloc, message)?;
            let shown = shown.as_str();
            write_line(
                format!(in alloc; "took {node} {end} {len} {shown}\n")?,
                text,
            )
        }
        Event::Wrote { node, end, count } => {
            write_line(format!(in alloc; "wrote {node} {end} {count}\n")?, text)
        }
        Event::Restarted { node, .. } => {
            write_line(format!(in alloc; "restarted {node}\n")?, text)
        }
        Event::Posted { node, number } => {
            write_line(format!(in alloc; "posted {node} {number}\n")?, text)
        }
        Event::MailStored { node, mail } => write_line(stored_line(alloc, *node, mail)?, text),
        Event::MailSettled { node, number } => {
            write_line(format!(in alloc; "done {node} {number}\n")?, text)
        }
        Event::Entry { .. }
        | Event::Sent { .. }
        | Event::Heeded { .. }
        | Event::InAir { .. }
        | Event::Delivered { .. }
        | Event::Settled { .. }
        | Event::Shown { .. }
        | Event::Lost { .. }
        | Event::Refused { .. }
        | Event::Offered { .. } => Ok(()),
    }
}
