//! The lines that stand at `Forwarder`, and what is lent until it is fetched. Called by `rt test`.
use ax_address::{Address, Call, Path};
use ax_frame::{Control, FrameView, Head};
use ax_ip::{ARP_PID, Forwarder, IP_PID, IpDone, IpOut};
use std::process::Abort;

const OWN: u32 = 0x2C000001;

const PACKET: &[u8; 28] =
    b"\x45\x00\x00\x1C\x00\x01\x00\x00\x40\x01\x21\xD5\x2C\x00\x00\x03\x2C\x00\x01\x09\x01\x02\x03\x04\x05\x06\x07\x08";

const ONWARD: &[u8] =
    b"\x45\x00\x00\x1C\x00\x01\x00\x00\x3F\x01\x22\xD5\x2C\x00\x00\x03\x2C\x00\x01\x09\x01\x02\x03\x04\x05\x06\x07\x08";

const ASKED: &[u8] =
    b"\x00\x03\x00\xCC\x07\x04\x00\x01\x9C\x60\x82\x82\x82\x40\x60\x2C\x00\x00\x01\x00\x00\x00\x00\x00\x00\x00\x2C\x00\x00\x02";

/// N0BBB at 44.0.0.2 answers N0AAA.
const HEARD: &[u8] =
    b"\x00\x03\x00\xCC\x07\x04\x00\x02\x9C\x60\x84\x84\x84\x40\x60\x2C\x00\x00\x02\x9C\x60\x82\x82\x82\x40\x60\x2C\x00\x00\x01";

const LONGER: (u32, u8, u32) = (0x2C000100, 24, 0x2C000002);

fn call(rt: &impl Abort, text: &str) -> Call {
    Call::read(text.as_bytes()).ok().expect(rt, "a call")
}

fn address(rt: &impl Abort, text: &str) -> Address {
    Address {
        call: call(rt, text),
        bit7: false,
        reserved: 3,
    }
}

/// A frame: its receiver, its PID and its information.
type Frame<'a> = (&'a str, u8, &'a [u8]);

/// A UI frame from N0BBB.
fn ui<'a>(rt: &impl Abort, came: Frame<'a>) -> FrameView<'a> {
    let (dest, pid, info) = came;
    FrameView {
        head: Head {
            dest: address(rt, dest),
            source: address(rt, "N0BBB"),
            path: Path::new(),
        },
        control: Control::Ui { pf: false },
        pid: Some(pid),
        info,
    }
}

fn expect_out(rt: &impl Abort, out: Option<&IpOut>, wanted: Frame<'_>) {
    let (to, pid, info) = wanted;
    match out {
        Some(out) => {
            assert!(rt; out.to == call(rt, to));
            assert!(rt; out.pid == pid);
            assert!(rt; out.info.as_slice() == info);
        }
        None => rt.abort(),
    }
}

/// The lines that stand at `Forwarder`.
#[test]
fn a_forwarder_in_use(rt: HostRuntime) {
    let (call, addr, (prefix, len, hop)) = (call(&rt, "N0AAA"), OWN, LONGER);
    let packet = ui(&rt, ("N0AAA", IP_PID, PACKET));
    let reply = ui(&rt, ("N0AAA", ARP_PID, HEARD));

    let mut forwarder = Forwarder::new(call, addr);
    let routed = forwarder.route(prefix, len, hop); // Ok
    let asks = forwarder.arrive(&packet); // Asked: the hop isn't known yet
    let request = forwarder.next_out(); // a request of ARP to QST
    let learns = forwarder.arrive(&reply); // Learned
    let none = forwarder.next_out(); // None
    let sends = forwarder.arrive(&packet); // Forwarded
    let onward = forwarder.next_out(); // the packet, with one hop less

    assert!(rt; routed == Ok(()));
    assert!(rt; asks == IpDone::Asked);
    expect_out(&rt, request.as_ref(), ("QST", ARP_PID, ASKED));
    assert!(rt; learns == IpDone::Learned);
    assert!(rt; none == None);
    assert!(rt; sends == IpDone::Forwarded);
    expect_out(&rt, onward.as_ref(), ("N0BBB", IP_PID, ONWARD));
}

#[test]
fn what_is_sent_is_lent_until_it_is_fetched(rt: HostRuntime) {
    let (prefix, len, hop) = LONGER;
    let mut own = Forwarder::new(call(&rt, "N0AAA"), OWN);
    assert!(rt; own.route(prefix, len, hop) == Ok(()));
    let packet = ui(&rt, ("N0AAA", IP_PID, PACKET));
    assert!(rt; own.waiting().is_none());

    let _ = own.arrive(&packet);
    expect_out(&rt, own.waiting(), ("QST", ARP_PID, ASKED));
    own.fetched();
    assert!(rt; own.waiting().is_none());

    let _ = own.arrive(&packet);
    expect_out(&rt, own.waiting(), ("QST", ARP_PID, ASKED));
    let out = own.next_out();
    expect_out(&rt, out.as_ref(), ("QST", ARP_PID, ASKED));
    assert!(rt; own.waiting().is_none());
    assert!(rt; own.next_out().is_none());
}
