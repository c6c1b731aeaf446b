//! What a KISS stream gives. Used by `deframer`, and by `node_core`, `cmd_streams` and crates above.

/// What a stream gives.
#[derive(Clone, Copy, Debug, PartialEq, Eq)]
pub enum KissItem<'a> {
    /// A frame: its port and its command, each at most 15, and at most 1,023 bytes of payload.
    Frame {
        port: u8,
        command: u8,
        payload: &'a [u8],
    },
    /// A piece has its 1,025th unescaped byte. Nothing of it is handed out.
    TooLong,
}
