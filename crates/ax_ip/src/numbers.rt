//! Numbers in octets, the high octet first (RFC 791, appendix B). Called by most files here.
ghost use Rattle.std.specs.Prelude.{◌≡◌, ◌+◌, ◌^◌, ◌<◌, ◌≤◌, ◌++◌, length};
ghost use Rattle.ax_ip.specs.Packets as numbers;

use arrayvec::ArrayVec;

/// The number of two octets that begin at `at`.
pub(crate) fn word(octets: &[u8], at: usize) -> u32
    requires within { at + 2 ≤ length octets.now }
    ensures value { result ≡ numbers.word octets.now at }
    ensures fits { result < 2 ^ 16 }
{
    256 * octets[at] as u32 + octets[at + 1] as u32
}

/// The number of four octets that begin at `at`: an address.
pub(crate) fn long(octets: &[u8], at: usize) -> u32
    requires within { at + 4 ≤ length octets.now }
    ensures value { result ≡ numbers.long octets.now at }
{
    65536 * word(octets, at) + word(octets, at + 2)
}

/// The two octets of a number.
pub(crate) fn word_octets(number: u32) -> [u8; 2]
    requires fits { number < 2 ^ 16 }
    ensures value { result ≡ numbers.word_octets number }
{
    [(number / 256) as u8, (number % 256) as u8]
}

/// The four octets of a number.
pub(crate) fn long_octets(number: u32) -> [u8; 4]
    ensures value { result ≡ numbers.long_octets number }
{
    [
        (number / 16777216) as u8,
        (number / 65536 % 256) as u8,
        (number / 256 % 256) as u8,
        (number % 256) as u8,
    ]
}

/// Appends octets, for which there must be room.
pub(crate) fn push_octets<const CAP: usize>(info: &mut ArrayVec<u8, CAP>, octets: &[u8])
    requires { length info.old.items + length octets.now ≤ CAP }
    ensures octets { info.new.items ≡ info.old.items ++ octets.now }
    ensures len { length info.new.items ≡ length info.old.items + length octets.now }
{
    let _ = info.try_extend_from_slice(octets);
}
