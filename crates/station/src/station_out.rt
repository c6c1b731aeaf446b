//! What a station puts out.

use station_places::ConsoleOut;
use station_ports::PortFrame;

/// What a station puts out.
#[derive(Drop)]
pub enum StationOut {
    /// A frame goes on a port.
    Frame(PortFrame),
    /// A console is given something.
    Console(ConsoleOut),
}
