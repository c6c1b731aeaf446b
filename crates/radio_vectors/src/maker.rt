//! Who made the octets of a vector. Used by all vectors.

/// Who made the octets of a vector. Its values never come from the codecs of this repository.
#[derive(Clone, Copy)]
pub enum Maker {
    /// Worked by hand from the layout.
    Worked,
    /// The AX.25 and NET/ROM of the Linux kernel 6.1 with ax25-tools and uronode, recorded between guests that were joined by KISS
    /// ports; the whole recordings stand in `examples/captures/`. The values of frames are those that tshark 4.0 showed; those
    /// inside of broadcasts and datagrams were worked by hand from the octets.
    Linux,
    /// Direwolf 1.6: two of them in a connection of AX.25 2.2 over their own modems of 1200 bit/s, joined by audio without a radio. Each
    /// frame is as the receiving one's KISS port gave it, the values are those of the sender's log. Half a second was silenced, so
    /// that frames were asked for again.
    Direwolf,
}
