//! By which port a station is reached, as a list shows it. Used by `neighbours`, `users` and `links`.
ghost use Rattle.std.specs.Prelude.{◌≡◌};
ghost use Rattle.station_lists.specs.Lists as lists;

/// By which port a station is reached.
#[derive(Clone, Copy, Debug)]
pub enum Place<'a> {
    /// No port is remembered for it.
    Unknown,
    /// It is a fellow.
    Backplane,
    /// The port of this name.
    Port(&'a str),
}

impl<'a> Place<'a> {
    /// `-`, `backplane`, or the name of the port.
    pub fn text(self) -> &'a str
        ensures { result.now ≡ lists.place self.entry }
    {
        match self {
            Place::Unknown => "-",
            Place::Backplane => "backplane",
            Place::Port(name) => name,
        }
    }
}
