//! An information message as it comes (NET/ROM, Appendix B, level 4). Used by `arrivals` and `texts`.
use crate::piece::Piece;
use crate::transport::Flags;

/// An information message that has come: its number, its acknowledgement, its flags and its fragment.
#[derive(Drop)]
pub(crate) struct Info<'a> {
    pub(crate) tx: u8,
    pub(crate) rx: u8,
    pub(crate) flags: Flags,
    pub(crate) piece: &'a Piece,
}
