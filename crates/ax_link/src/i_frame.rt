//! What an I frame brings (AX.25 2.2, section 4.3.1). Used by `arrivals`, `early`, `frame_in` and `texts`.
ghost use Rattle.std.specs.Prelude.{◌≤◌, length};

/// What an I frame brings: N(S), the poll bit, and a payload, whose octets stay where they were read.
#[derive(Drop)]
pub(crate) struct IFrame<'a> {
    pub(crate) ns: u8,
    pub(crate) pf: bool,
    pub(crate) pid: u8,
    pub(crate) info: &'a [u8],
    ghost few: { length info.now ≤ 256 },
}
