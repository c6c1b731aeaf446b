//! How replies begin, and how they tell names and ages. Called by the crates that run a station.
ghost use Rattle.std.specs.Prelude.{◌≡◌, ◌<◌, IfOk};
ghost use Rattle.station_prompt.specs.Replies as replies;

use arrayvec::ArrayString;
use ax_address::{Alias, Call};
use radio_base::{NoMemory, TextOut, push_decimal};
use std::alloc::Global;

/// A reply that begins as those of the member of this name do, as `ANODE:N0AAA} `.
pub fn reply(alloc: Global, alias: &Alias, call: &Call) -> Result<TextOut, NoMemory>
    ensures { IfOk result (λ text. text ≡ replies.prefix alias.now call.now) }
{
    let mut text = TextOut::new(alloc);
    text.text(name_of(alias, call).as_str())?;
    text.text("} ")?;
    Ok(text)
}

/// The name of a node, as `ANODE:N0AAA`.
pub fn name_of(alias: &Alias, call: &Call) -> ArrayString<16>
    ensures { result.bytes ≡ replies.name alias.now call.now }
{
    let mut text = ArrayString::new();
    text.push_str(alias.show().as_str());
    text.push(':');
    text.push_str(call.show().as_str());
    text
}

/// How long something lasts, which is given in milliseconds: in whole seconds, minutes, hours or days.
pub fn age_text(ms: u64) -> ArrayString<24>
    ensures { result.bytes ≡ replies.age ms }
{
    let seconds = ms / 1_000;
    if seconds < 60 {
        in_units(seconds, 's')
    } else if seconds < 3_600 {
        in_units(seconds / 60, 'm')
    } else if seconds < 86_400 {
        in_units(seconds / 3_600, 'h')
    } else {
        in_units(seconds / 86_400, 'd')
    }
}

fn in_units(count: u64, unit: char) -> ArrayString<24>
    requires { unit < 128 }
    ensures { result.bytes ≡ replies.in_units count unit }
{
    let mut text = ArrayString::new();
    push_decimal(count as usize, &mut text);
    text.push(unit);
    text
}
