//! The lines that stand at `Link`. Called by `rt test`.
use crate::common::{CONFIG, NOW};
use arrayvec::ArrayVec;
use ax_frame::Control;
use ax_link::{Link, LinkNotice};
use radio_base::{M8, Payload};
use std::process::Abort;

fn payload() -> Payload {
    let mut info = ArrayVec::new();
    let _ = info.try_push(7);
    Payload { pid: 0xF0, info }
}

/// The lines that stand at `Link`, in three steps.
#[test]
fn a_link_in_use(rt: HostRuntime) {
    let made = Link::<M8>::new(rt.alloc(), CONFIG);
    let mut link = made.ok().expect(&rt, "memory");
    set_up(&rt, &mut link);
    send(&rt, &mut link);
    close(&rt, &mut link);
}

/// The next frame is this one, and none is behind it.
fn expect_out(rt: &impl Abort, link: &mut Link<M8>, control: Control, payload: Option<Payload>) {
    match link.next_out() {
        Some(out) => assert!(rt; out.control == control && out.payload == payload),
        None => rt.abort(),
    }
    assert!(rt; link.next_out().is_none());
}

fn set_up(rt: &impl Abort, link: &mut Link<M8>) {
    assert!(rt; link.drained());
    link.set_up(NOW);
    expect_out(rt, link, Control::Sabm { pf: true }, None);
    assert!(rt; link.drained());
    link.arrive(false, &Control::Ua { pf: true }, None, &[], NOW);
    assert!(rt; link.notice() == Some(LinkNotice::Opened));
}

fn send(rt: &impl Abort, link: &mut Link<M8>) {
    assert!(rt; link.drained());
    assert!(rt; link.send(&payload(), NOW) == Ok(()));
    let text = Control::I {
        ns: 0,
        nr: 0,
        pf: false,
    };
    expect_out(rt, link, text, Some(payload()));
}

/// A DISC follows once the payload is acknowledged.
fn close(rt: &impl Abort, link: &mut Link<M8>) {
    assert!(rt; link.drained());
    link.close(NOW);
    assert!(rt; link.drained());
    link.arrive(false, &Control::Rr { nr: 1, pf: false }, None, &[], NOW);
    expect_out(rt, link, Control::Disc { pf: true }, None);
}
