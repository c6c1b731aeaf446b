//! How large a network may be, and how large the numbers of its lines. Used by most files here, and by the replay.

/// The most nodes of a network: their numbers are from 1 to this one.
pub const MAX_NODES: usize = 16;
/// The most peers that a node reaches over repeaters.
pub const MAX_VIAS: usize = 16;
/// How many keys a node that runs alone has: all but `mail`.
pub const MAX_KEYS: usize = 19;
/// The most repeaters over which a node reaches a peer.
pub const MAX_VIA_REPEATERS: usize = 2;
/// The most frames of which a line may say how many.
pub const MAX_COUNT: u32 = 100_000;
/// The most texts of a `burst` line.
pub const MAX_BURST: u32 = 10_000;
/// A day in milliseconds: the longest that a `tick` line lets time go on.
pub const MAX_TICK: u32 = 86_400_000;
