//! How a node is shown in lists and replies. Used by `routes`, `users` and `told`.
ghost use Rattle.std.specs.Prelude.{◌≡◌};
ghost use Rattle.station_lists.specs.Lists as lists;

use arrayvec::ArrayString;
use ax_address::{Alias, Call};
use station_prompt::name_of;

/// A node by its call, and by its alias where that is known.
#[derive(Clone, Copy, Debug, PartialEq, Eq)]
pub struct ShownNode {
    pub alias: Option<Alias>,
    pub call: Call,
}

impl ShownNode {
    /// `ALIAS:CALL`, or `CALL` where the alias isn't known.
    pub fn text(&self) -> ArrayString<16>
        ensures { result.bytes ≡ lists.shown self.now.alias self.now.call }
    {
        match &self.alias {
            Some(alias) => name_of(alias, &self.call),
            None => {
                let mut text = ArrayString::new();
                self.call.append_to(&mut text);
                text
            }
        }
    }
}
