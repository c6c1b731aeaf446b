//! How much a file may hold, and how large its numbers may be. Each is a literal in the definition of its key. Used by all files here that
//! read a table or a list.

/// The most bytes of a file.
pub const MAX_FILE: usize = 65_536;
/// The most bytes of the station's name.
pub const MAX_NAME: usize = 64;
/// The most bytes of what the station says of itself.
pub const MAX_INFO: usize = 2_000;
/// The most calls that aren't heard.
pub const MAX_DENY: usize = 64;
/// The most ports.
pub const MAX_PORTS: usize = 8;
/// The most bytes of a port's name.
pub const MAX_PORT_NAME: usize = 16;
/// The most bytes of the place of a port's TNC.
pub const MAX_TNC: usize = 1_024;
/// The most members, with the post.
pub const MAX_MEMBERS: usize = 8;
/// How many keys of a `set` line a node has.
pub const MAX_SETTINGS: usize = 18;
/// The most peers that a node reaches over repeaters.
pub const MAX_VIAS: usize = 16;
/// The most neighbours of a node that have a quality of their own.
pub const MAX_QUALITIES: usize = 16;
/// The most routes that a node locks in.
pub const MAX_LOCKS: usize = 64;
/// The most bytes of the name of the file that keeps mail.
pub const MAX_MAIL_FILE: usize = 1_024;
/// The most beacons.
pub const MAX_BEACONS: usize = 64;
/// The most bytes of a beacon.
pub const MAX_BEACON_TEXT: usize = 256;
/// A day in seconds.
pub const DAY_SECONDS: u32 = 86_400;
/// A day in milliseconds.
pub const DAY_MS: u32 = 86_400_000;
