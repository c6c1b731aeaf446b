//! What the operator says of a station to its users. Used by most files here, and by the crates that serve users.
ghost use Rattle.std.specs.Prelude.{◌≡◌, ◌≤◌, ◌<◌, length, position, IfSome};
ghost use Rattle.station_looks.specs.Abouts as abouts;

use text_lines::number_of;

/// The most ports of a station.
pub(crate) const MAX_PORTS: usize = 8;

/// What the operator says of a station to its users.
#[derive(Drop)]
pub struct About {
    /// The name of the station.
    pub name: Vec<u8>,
    /// What is told of it, with LF between its lines.
    pub info: Vec<u8>,
    /// The name of each port. There are at most 8: others have no number, and aren't seen.
    pub ports: Vec<String>,
    /// After how many milliseconds without a word a user at the prompt is let go; 0 where he never is.
    pub idle: u64,
    /// The place of the member that keeps mail.
    pub post: Option<usize>,
}

impl About {
    /// The port, from 0, that a word names: by its number, or by its name without regard to case.
    pub fn port_named(&self, word: &[u8]) -> Option<u8>
        ensures value { result ≡ abouts.port_named word.now self.now }
        ensures within { IfSome result (λ port. port < 8) }
    {
        match self.port_numbered(word) {
            Some(port) => Some(port),
            None => self.port_of_name(word),
        }
    }

    /// The names of its ports.
    #[tactic(auto, using(std::proofs::lemmas::List::take_min))]
    pub fn names(&self) -> &[String]
        ensures value { result.now ≡ abouts.names self.now }
        ensures few { length result.now ≤ 8 }
    {
        &self.ports[..self.ports.len().min(MAX_PORTS)]
    }

    /// The port of this number, from 1.
    fn port_numbered(&self, word: &[u8]) -> Option<u8>
        ensures value { result ≡ abouts.port_numbered word.now self.now }
        ensures within { IfSome result (λ port. port < 8) }
    {
        match number_of(1, 8, word) {
            Some(number) if number as usize <= self.names().len() => Some((number - 1) as u8),
            _ => None,
        }
    }

    /// The first port of this name.
    fn port_of_name(&self, word: &[u8]) -> Option<u8>
        ensures value { result ≡ abouts.port_of_name word.now self.now }
        ensures within { IfSome result (λ port. port < 8) }
    {
        match place_of(self.names(), word) {
            Some(at) => Some(at as u8),
            None => None,
        }
    }
}

fn place_of(names: &[String], word: &[u8]) -> Option<usize>
    ensures place { result ≡ position (abouts.is_named word.now) names.now }
    ensures within { IfSome result (λ at. at < length names.now) }
{
    names.iter().position(|name| is_named(name, word))
}

fn is_named(name: &String, word: &[u8]) -> bool
    ensures { result ≡ abouts.is_named word.now name.now }
{
    name.as_bytes().eq_ignore_ascii_case(word)
}
