//! The checksum of a header and of a message of ICMP (RFC 791, section 3.1; RFC 1071). Called by `echo`, `onward` and `packet`.
ghost use Rattle.std.specs.Prelude.{◌≡◌, ◌+◌, ◌-◌, ◌*◌, ◌/◌, ◌%◌, ◌<◌, ◌≤◌, length};
ghost use Rattle.ax_ip.specs.Packets as sums;

/// What the words of the octets add up to; a last odd octet is the high octet of its word.
pub(crate) fn word_sum(octets: &[u8]) -> u32
    requires short { length octets.now ≤ 256 }
    ensures value { result ≡ sums.word_sum octets.now }
    ensures bound { result ≤ 65535 * length octets.now }
{
    let mut sum = 0;
    let mut rest = octets;
    while let [high, low, more @ ..] = rest {
        sum += 256 * *high as u32 + *low as u32;
        rest = more;
    }
    match rest {
        [high] => sum + 256 * *high as u32,
        _ => sum,
    }
}

/// The ones' complement sum of words that add up to `sum`: what was carried out of 16 bits is added at the other end
/// (RFC 1071, section 1).
fn ones_sum(sum: u32) -> u32
    requires fits { sum < 65536 * 65536 - 65536 }
    ensures small { result ≤ 65535 }
    ensures same { result % 65535 ≡ sum % 65535 }
    ensures some { 0 < sum → 0 < result }
    ensures none { sum ≡ 0 → result ≡ 0 }
{
    carried(carried(sum))
}

/// The words, and what was carried out of them at the other end.
fn carried(sum: u32) -> u32
    ensures { result ≡ sum % 65536 + sum / 65536 }
{
    sum % 65536 + sum / 65536
}

/// Whether octets that hold their checksum are as they were sent.
#[tactic(auto, using(crate::proofs::Words::right_is))]
pub(crate) fn is_right(octets: &[u8]) -> bool
    requires short { length octets.now ≤ 256 }
    ensures value { result ≡ sums.is_right octets.now }
{
    ones_sum(word_sum(octets)) == 0xFFFF
}

/// The checksum of octets whose words add up to `sum`.
pub(crate) fn checksum(sum: u32) -> u32
    requires fits { sum < 65536 * 65536 - 65536 }
    ensures value { result ≡ sums.lacking sum }
    ensures word { result < 65536 }
{
    (0xFFFF - ones_sum(sum)) % 0xFFFF
}
