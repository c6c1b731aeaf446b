//! Numbers in decimal. Called by `ax_frame`, `link_life` and crates above.
ghost use Rattle.std.specs.Prelude.{◌≡◌, ◌≤◌, ◌+◌, ◌++◌, length};
ghost use Rattle.std.specs.Fmt.{decimal};

use arrayvec::ArrayString;
use itoa::Buffer;

/// Appends a number in decimal, for which there must be room.
#[tactic(auto, using(std::proofs::lemmas::Fmt::decimal_digit))]
pub fn push_decimal<const CAP: usize>(number: usize, line: &mut ArrayString<CAP>)
    requires { length line.old.bytes + 20 ≤ CAP }
    ensures text { line.new.bytes ≡ line.old.bytes ++ decimal number }
    ensures len { length line.new.bytes ≤ length line.old.bytes + 20 }
{
    if number < 10 {
        line.push((b'0' + number as u8) as char);
    } else {
        line.push_str(Buffer::new().format(number));
    }
}
