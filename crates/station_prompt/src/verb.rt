//! What lines at the prompt begin with. Called by `command` and `mail_verb`.
ghost use Rattle.std.specs.Prelude.{◌≡◌};
ghost use Rattle.station_prompt.specs.Commands as commands;

/// What a line at the prompt begins with.
#[derive(Clone, Copy, Debug, PartialEq, Eq)]
pub enum Verb {
    Connect,
    Nodes,
    Routes,
    Users,
    Ports,
    MHeard,
    Links,
    Stats,
    Info,
    Version,
    Mail,
    Bye,
    Help,
}

impl Verb {
    /// The verb of which a word in capital letters is a form.
    pub fn of(word: &[u8]) -> Option<Verb>
        ensures { result ≡ commands.verb_of word.now }
    {
        if is_form(word, b"CONNECT", 1) {
            Some(Verb::Connect)
        } else if is_form(word, b"NODES", 1) {
            Some(Verb::Nodes)
        } else if is_form(word, b"ROUTES", 1) {
            Some(Verb::Routes)
        } else if is_form(word, b"USERS", 1) {
            Some(Verb::Users)
        } else if is_form(word, b"PORTS", 1) {
            Some(Verb::Ports)
        } else if is_form(word, b"MHEARD", 2) {
            Some(Verb::MHeard)
        } else if is_form(word, b"LINKS", 1) {
            Some(Verb::Links)
        } else if is_form(word, b"STATS", 2) {
            Some(Verb::Stats)
        } else if is_form(word, b"INFO", 1) {
            Some(Verb::Info)
        } else if is_form(word, b"VERSION", 1) {
            Some(Verb::Version)
        } else if is_form(word, b"MAIL", 1) || is_form(word, b"BBS", 2) {
            Some(Verb::Mail)
        } else if is_form(word, b"BYE", 1) || is_form(word, b"QUIT", 1) {
            Some(Verb::Bye)
        } else if is_form(word, b"HELP", 1) || is_form(word, b"?", 1) {
            Some(Verb::Help)
        } else {
            None
        }
    }

    /// The forms of its line.
    pub fn forms(self) -> &'static str
        ensures { result.now ≡ commands.forms_of self }
    {
        match self {
            Verb::Connect => "Connect X, Connect PORT X [Via D [D]]",
            Verb::Nodes => "Nodes, Nodes *, Nodes A*, Nodes X",
            Verb::Routes => "Routes",
            Verb::Users => "Users",
            Verb::Ports => "Ports",
            Verb::MHeard => "MHeard, MHeard PORT",
            Verb::Links => "Links",
            Verb::Stats => "STats",
            Verb::Info => "Info",
            Verb::Version => "Version",
            Verb::Mail => "Mail, BBs",
            Verb::Bye => "Bye, Quit",
            Verb::Help => "Help, ?",
        }
    }

    /// The words that the prompt knows, the letters of the shortest form of each in capitals.
    pub fn help() -> &'static str
        ensures { result.now ≡ commands.help_text }
    {
        "Connect Nodes Routes Users Ports MHeard Links STats Info Version Mail BBs Bye Quit Help ?"
    }
}

/// Whether a word is a beginning of another one, with at least so many letters of it.
pub(crate) fn is_form(word: &[u8], whole: &[u8], least: usize) -> bool
    ensures { result ≡ commands.is_form word.now whole.now least }
{
    word.len() >= least && whole.starts_with(word)
}
