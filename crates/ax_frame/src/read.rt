//! Octets become frames (AX.25 2.2, sections 3 and 4). Called by `node_core`, `station_ports` and crates above.
ghost use Rattle.std.specs.Prelude.{◌≡◌, ◌≤◌, ◌<◌, ◌+◌, ◌*◌, ◌^◌, ◌++◌, [], List, ℕ, length, take, drop, IfOk, OnOk, Ok, Err, IsOkAnd, MatchResult};
ghost use Rattle.ax_frame.specs.Reading as reading;
ghost use Rattle.ax_frame.specs.Frames.{read_at, read_head_at, BeginsWith, Frame, Spells, SpellsHead, head, view, with_head};
ghost use Rattle.ax_address.specs.Octets.{SpellsAddress};
ghost use Rattle.std.specs.Result.{result_err};
ghost use Rattle.ax_frame.specs.Controls.{IsLinkModulus};
ghost use Rattle.ax_frame.specs.Parts.{SpellsLast};
ghost use Rattle.ax_frame.specs.declared.head.Head.{Head};
ghost use Rattle.radio_base.specs.Modulus.{modulus_size};

use crate::{Behind, Control, FrameRefusal, FrameView, Head, laws};
use ax_address::{Address, AddressRefusal, MAX_REPEATERS, Path, address_fault, read_address};
use radio_base::{LinkModulus, Modulus};

/// The addresses, and how many octets they have, or the first octet that can't stand there.
pub fn read_head(bytes: &[u8]) -> Result<(Head, usize), FrameRefusal>
    // What is read is spelled so.
    ensures found { IfOk result (λ x. (x.1 ≤ length bytes.now) × SpellsHead x.0 (take x.1 bytes.now)) }

    // What is spelled so is read.
    ensures only { (h : Head) (octets rest : List ℕ) → SpellsHead h octets → bytes.now ≡ octets ++ rest
        → result ≡ Ok (h, length octets) }

    // The addresses end there, or an octet is at fault.
    ensures judged { MatchResult result (λ x. reading.head_end bytes.now ≡ Ok x.1)
        (λ e. reading.head_end bytes.now ≡ Err e) }
    ensures exact { result ≡ read_head_at bytes.now }
{
    // By the laws of the spelling no other head is spelled so, and none that is spelled is refused.
    laws::head_spelling();
    head_of(bytes)
}

/// The addresses, and how many octets they have. The path is filled where it stands, and stays one place in memory: taken
/// into a caller, each of its eight addresses would be moved part by part.
#[inline(never)]
fn head_of(bytes: &[u8]) -> Result<(Head, usize), FrameRefusal>
    ensures found { IfOk result (λ x. (x.1 ≤ length bytes.now) × SpellsHead x.0 (take x.1 bytes.now)) }
    ensures judged { MatchResult result (λ x. reading.head_end bytes.now ≡ Ok x.1)
        (λ e. reading.head_end bytes.now ≡ Err e) }
{
    let mut head = Head {
        dest: Address::default(),
        source: Address::default(),
        path: Path::new(),
    };
    let (dest, source, end) = addresses(bytes, &mut head.path)?;
    head.dest = dest;
    head.source = source;
    Ok((head, end))
}

/// Destination, source and where the addresses end. The repeaters are put into the path where it stands, since a
/// path is long to move.
#[inline(always)]
fn addresses(bytes: &[u8], path: &mut Path) -> Result<(Address, Address, usize), FrameRefusal>
    requires { path.old.items ≡ [] }
    ensures found { IfOk result (λ x. (x.2 ≤ length bytes.now)
        × SpellsHead (head x.0 x.1 path.new) (take x.2 bytes.now)) }
    ensures judged { MatchResult result (λ x. reading.head_end bytes.now ≡ Ok x.2)
        (λ e. reading.head_end bytes.now ≡ Err e) }
{
    let (dest, last) = address_at(bytes, 0)?;
    if last {
        return Err(FrameRefusal::BadCall { at: 6 });
    }
    let (source, last) = address_at(bytes, 7)?;
    if last {
        return Ok((dest, source, 14));
    }
    repeaters(bytes, path)?;
    let end = 14 + 7 * path.len();
    Ok((dest, source, end))
}

/// The frame that the octets spell, with sequence numbers modulo 8 or 128, or the first octet that can't
/// stand at its place. The information is lent.
pub fn read_frame<M: Modulus>(bytes: &[u8]) -> Result<FrameView<'_>, FrameRefusal>
    requires { IsLinkModulus M.SIZE }

    // What is read is spelled so.
    ensures found { IfOk result (λ v. Spells M.SIZE (view v) bytes.now) }

    // What is spelled so is read.
    ensures only { (f : Frame) → Spells M.SIZE f bytes.now → IsOkAnd result (λ v. view v ≡ f) }

    // It is refused exactly where an octet is at fault.
    ensures refused { result_err result ≡ reading.first_fault M.SIZE bytes.now }
    ensures exact { MatchResult result (λ v. read_at M.SIZE bytes.now ≡ Ok (view v))
        (λ e. read_at M.SIZE bytes.now ≡ Err e) }
{
    // By the laws of the spelling no other frame is spelled so, and none that is spelled is refused.
    laws::frame_spelling();
    let (head, at) = read_head(bytes)?;
    let behind = read_behind(LinkModulus::of::<M>(), at, bytes)?;
    Ok(FrameView {
        head,
        control: behind.control,
        pid: behind.pid,
        info: behind.info,
    })
}

/// What stands behind the head of a frame, which was read already and ends at a place, with sequence numbers of this
/// modulus, or the first octet that can't stand at its place. The head stays where it is, since it is long to move, and the
/// information is lent.
#[inline(always)]
pub fn read_behind(
    modulus: LinkModulus,
    at: usize,
    bytes: &[u8],
) -> Result<Behind<'_>, FrameRefusal>
    // The addresses end there, as `read_head` says.
    requires ends { reading.head_end bytes.now ≡ Ok at }

    // Behind each head with which the octets begin, what is read is spelled so.
    ensures found { IfOk result (λ b. (h : Head) → BeginsWith bytes.now h at
        → Spells (modulus_size modulus) (with_head h b) bytes.now) }

    // What is spelled so is read.
    ensures only { (f : Frame) → Spells (modulus_size modulus) f bytes.now
        → IsOkAnd result (λ b. with_head f.head b ≡ f) }

    // It is refused exactly where an octet is at fault.
    ensures refused { result_err result ≡ reading.first_fault (modulus_size modulus) bytes.now }
    ensures exact { (h : Head) → BeginsWith bytes.now h at
        → MatchResult result (λ b. read_at (modulus_size modulus) bytes.now ≡ Ok (with_head h b))
        (λ e. read_at (modulus_size modulus) bytes.now ≡ Err e) }
{
    // By the laws of the spelling octets that begin with a head end it at one place.
    laws::head_spelling();
    laws::frame_spelling();
    behind_head(modulus, at, bytes)
}

/// What stands behind a head that ends at a place.
#[inline(always)]
fn behind_head(modulus: LinkModulus, at: usize, bytes: &[u8]) -> Result<Behind<'_>, FrameRefusal>
    requires within { at ≤ length bytes.now }
    requires ends { reading.head_end bytes.now ≡ Ok at }
    ensures found { IfOk result (λ b. (h : Head) → BeginsWith bytes.now h at
        → Spells (modulus_size modulus) (with_head h b) bytes.now) }
    ensures refused { result_err result ≡ reading.first_fault (modulus_size modulus) bytes.now }
{
    let (control, pid, at) = parts(modulus, bytes, at)?;
    let info = &bytes[at..];
    Ok(Behind { control, pid, info })
}

/// What stands between the head, which ends at a place, and the information, and where that begins.
#[inline(never)]
#[tactic(auto, unfolding(crate::specs::Reading::frame_at))]
fn parts(
    modulus: LinkModulus,
    bytes: &[u8],
    at: usize,
) -> Result<(Control, Option<u8>, usize), FrameRefusal>
    requires within { at ≤ length bytes.now }
    requires ends { reading.head_end bytes.now ≡ Ok at }
    ensures judged { result ≡ reading.frame_at (modulus_size modulus) bytes.now }
    ensures within { IfOk result (λ x. x.2 ≤ length bytes.now) }
{
    let (control, at) = control_at(modulus, bytes, at)?;
    let (pid, at) = pid_at(&control, bytes, at)?;
    Ok((control, pid, at))
}

/// Puts the repeaters into the path. They stand behind destination and source, where the source isn't the last
/// address. No caller takes this in, so that the path stays one place in memory.
#[inline(never)]
fn repeaters(bytes: &[u8], path: &mut Path) -> Result<(), FrameRefusal>
    requires len { 14 ≤ length bytes.now }
    requires empty { path.old.items ≡ [] }
    ensures judged { MatchResult result
        (λ _. reading.addresses_end 8 14 bytes.now ≡ Ok (14 + 7 * length path.new.items))
        (λ e. reading.addresses_end 8 14 bytes.now ≡ Err e) }
    ensures found { OnOk result (SpellsLast 14 bytes.now path.new.items) }
{
    for nth in 0..MAX_REPEATERS {
        let (repeater, last) = address_at(bytes, 14 + 7 * nth)?;
        path.push(repeater);
        if last {
            return Ok(());
        }
    }
    Err(FrameRefusal::TooManyRepeaters)
}

/// The address at a place, and its extension bit.
#[inline(always)]
fn address_at(bytes: &[u8], at: usize) -> Result<(Address, bool), FrameRefusal>
    requires { at ≤ length bytes.now }
    ensures judged { MatchResult result (λ x. reading.extension_at at bytes.now ≡ Ok x.1)
        (λ e. reading.extension_at at bytes.now ≡ Err e) }
    ensures found { IfOk result (λ x. (at + 7 ≤ length bytes.now)
        × SpellsAddress x.0 x.1 (take 7 (drop at bytes.now))) }
{
    let octets = &bytes[at..];
    match octets.first_chunk::<7>() {
        Some(octets) => match read_address(octets) {
            Ok(read) => Ok(read),
            Err(refusal) => Err(FrameRefusal::BadCall {
                at: at + refusal.at(),
            }),
        },
        None => match address_fault(octets) {
            Some(refusal) => Err(FrameRefusal::BadCall {
                at: at + refusal.at(),
            }),
            None => Err(FrameRefusal::Short { at: bytes.len() }),
        },
    }
}

/// The control field at a place, and where it ends.
#[tactic(auto, unfolding(crate::specs::Reading::control_at))]
fn control_at(
    modulus: LinkModulus,
    bytes: &[u8],
    at: usize,
) -> Result<(Control, usize), FrameRefusal>
    requires { at ≤ length bytes.now }
    ensures { result ≡ reading.control_at (modulus_size modulus) at bytes.now }
{
    match bytes.get(at).copied() {
        None => Err(FrameRefusal::Short { at }),
        Some(first) => control_from(modulus, at, first, bytes.get(at + 1).copied()),
    }
}

fn control_from(
    modulus: LinkModulus,
    at: usize,
    first: u8,
    next: Option<u8>,
) -> Result<(Control, usize), FrameRefusal>
    requires { at + 2 < 2 ^ 64 }
    ensures { result ≡ reading.control_from (modulus_size modulus) at first next }
{
    let pf = (first >> 4) % 2 == 1;
    if first % 4 == 3 {
        field_end(at, at + 1, unnumbered(first - 16 * ((first >> 4) % 2), pf))
    } else if matches!(modulus, LinkModulus::Modulo8) {
        field_end(
            at,
            at + 1,
            numbered(first % 16, (first >> 1) % 8, first >> 5, pf),
        )
    } else {
        two_octets(at, first, next)
    }
}

fn field_end(
    at: usize,
    end: usize,
    control: Option<Control>,
) -> Result<(Control, usize), FrameRefusal>
    ensures { result ≡ reading.field_end at end control }
{
    match control {
        None => Err(FrameRefusal::BadControl { at }),
        Some(control) => Ok((control, end)),
    }
}

fn two_octets(at: usize, first: u8, next: Option<u8>) -> Result<(Control, usize), FrameRefusal>
    requires { at + 2 < 2 ^ 64 }
    ensures { result ≡ reading.two_octets at first next }
{
    match next {
        Some(next) => field_end(
            at,
            at + 2,
            numbered(first, first >> 1, next >> 1, next % 2 == 1),
        ),
        None if numbered(first, 0, 0, false).is_some() => Err(FrameRefusal::Short { at: at + 1 }),
        None => Err(FrameRefusal::BadControl { at }),
    }
}

fn numbered(code: u8, ns: u8, nr: u8, pf: bool) -> Option<Control>
    ensures { result ≡ reading.numbered code ns nr pf }
{
    match code {
        _ if code % 2 == 0 => Some(Control::I { ns, nr, pf }),
        0x01 => Some(Control::Rr { nr, pf }),
        0x05 => Some(Control::Rnr { nr, pf }),
        0x09 => Some(Control::Rej { nr, pf }),
        0x0D => Some(Control::Srej { nr, pf }),
        _ => None,
    }
}

fn unnumbered(code: u8, pf: bool) -> Option<Control>
    ensures { result ≡ reading.unnumbered code pf }
{
    match code {
        0x2F => Some(Control::Sabm { pf }),
        0x6F => Some(Control::Sabme { pf }),
        0x43 => Some(Control::Disc { pf }),
        0x0F => Some(Control::Dm { pf }),
        0x63 => Some(Control::Ua { pf }),
        0x87 => Some(Control::Frmr { pf }),
        0x03 => Some(Control::Ui { pf }),
        0xAF => Some(Control::Xid { pf }),
        0xE3 => Some(Control::Test { pf }),
        _ => None,
    }
}

/// The PID at a place, where the kind has one, and where the information begins.
#[tactic(auto, unfolding(crate::specs::Reading::pid_at))]
fn pid_at(control: &Control, bytes: &[u8], at: usize) -> Result<(Option<u8>, usize), FrameRefusal>
    requires { at ≤ length bytes.now }
    ensures { result ≡ reading.pid_at control.now at bytes.now }
{
    if control.has_pid() {
        return match bytes.get(at).copied() {
            None => Err(FrameRefusal::NoPid { at }),
            Some(pid) => Ok((Some(pid), at + 1)),
        };
    }
    if control.takes_info() || bytes.len() <= at {
        Ok((None, at))
    } else {
        Err(FrameRefusal::ExtraInfo { at })
    }
}
