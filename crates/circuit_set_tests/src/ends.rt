//! The lines that stand at `End`. Called by `rt test`.
use arrayvec::ArrayVec;
use ax_address::Call;
use circuit_l4::{End, EndConfig, EndNotice, Flags, Pair, Transport};
use radio_base::Moment;
use std::process::Abort;

const CONFIG: EndConfig = EndConfig {
    window: 4,
    timeout: 1000,
    retries: 2,
    busy: 60_000,
    inactive: 900_000,
};

const NOW: Moment = Moment(0);

const OWN: Pair = Pair { index: 1, ident: 2 };

const PARTNER: Pair = Pair { index: 3, ident: 4 };

/// What carries the first message, where nothing was got.
fn info(message: &[u8]) -> Transport {
    let mut text = ArrayVec::new();
    let _ = text.try_extend_from_slice(message);
    Transport::Info {
        to: PARTNER,
        tx: 0,
        rx: 0,
        flags: Flags::default(),
        text,
    }
}

/// The lines that stand at `End`, in three steps.
#[test]
fn an_end_in_use(rt: HostRuntime) {
    let (user, node) = (Call::default(), Call::default());
    let made = End::requester(rt.alloc(), OWN, user, node, CONFIG, NOW);
    let mut end = made.ok().expect(&rt, "memory");
    open(&rt, &mut end);
    write(&rt, &mut end);
    close(&rt, &mut end);
}

/// The next transport is this one, with the number of its fragment, and none is behind it.
fn expect_out(rt: &impl Abort, end: &mut End, wanted: Transport, number: Option<u64>) {
    assert!(rt; end.next_out() == Some((wanted, number)));
    assert!(rt; end.next_out().is_none());
}

fn open(rt: &impl Abort, end: &mut End) {
    let asked = Transport::Request {
        pair: OWN,
        window: 4,
        user: Call::default(),
        node: Call::default(),
    };
    expect_out(rt, end, asked, None);
    assert!(rt; end.drained());
    let accept = Transport::Accept {
        to: OWN,
        own: PARTNER,
        window: 4,
    };
    end.arrive(&accept, NOW);
    assert!(rt; end.notice() == Some(EndNotice::Opened { window: 4 }));
}

fn write(rt: &impl Abort, end: &mut End) {
    assert!(rt; end.drained());
    assert!(rt; end.write(&[7], NOW) == Ok(()));
    expect_out(rt, end, info(&[7]), Some(0));
}

/// A Disconnect follows once the message is acknowledged.
fn close(rt: &impl Abort, end: &mut End) {
    assert!(rt; end.drained());
    end.close(NOW);
    assert!(rt; end.drained());
    let got = Transport::InfoAck {
        to: OWN,
        rx: 1,
        flags: Flags::default(),
    };
    end.arrive(&got, NOW);
    expect_out(rt, end, Transport::Disconnect { to: PARTNER }, None);
}
