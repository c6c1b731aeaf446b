//! Why a directive isn't done. Used by `directive`, and by the crates that run a station.
ghost use Rattle.std.specs.Prelude.{◌≡◌};
ghost use Rattle.station_script.specs.Directives as directives;

/// Why a directive isn't done.
#[derive(Clone, Copy, Debug, PartialEq, Eq)]
pub enum DirectiveRefusal {
    /// There is none of these words.
    NoDirective,
    NoStation,
    NoPort,
    BadCall,
    BadNumber,
    BadHex,
    /// A member has the call.
    MembersCall,
}

impl DirectiveRefusal {
    /// What is noted of it.
    pub fn text(self) -> &'static str
        ensures { result.now ≡ directives.refusal_text self }
    {
        match self {
            DirectiveRefusal::NoDirective => "no such directive",
            DirectiveRefusal::NoStation => "no such station",
            DirectiveRefusal::NoPort => "no such port",
            DirectiveRefusal::BadCall => "bad call",
            DirectiveRefusal::BadNumber => "bad number",
            DirectiveRefusal::BadHex => "bad hex",
            DirectiveRefusal::MembersCall => "a member's call",
        }
    }
}
