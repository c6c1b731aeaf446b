//! A letter goes from one post to another, is stored once, and stays away once it is killed.
use ax_address::Call;
use l3_datagram::Message;
use mail_box::{BoxRefusal, MailBox};
use mail_records::{Failure, LogFailed, MemoryLog};
use node_mail::Heard;
use std::alloc::Global;
use std::process::Abort;

pub fn call(rt: &impl Abort, text: &[u8]) -> Call {
    Call::read(text).ok().expect(rt, "a call")
}

fn post_of(
    rt: &impl Abort,
    alloc: Global,
    own: &Call,
    failure: Option<Failure>,
) -> MailBox<MemoryLog> {
    let log = MemoryLog::new(alloc, failure);
    MailBox::over(alloc, *own, log, &[])
        .ok()
        .expect(rt, "a post")
}

/// The same post after its end.
pub fn restarted(
    rt: &impl Abort,
    alloc: Global,
    own: &Call,
    post: MailBox<MemoryLog>,
) -> MailBox<MemoryLog> {
    let mut log = post.into_log().opened_again(None);
    let records = mail_records::Log::records(&mut log, alloc)
        .ok()
        .expect(rt, "records");
    MailBox::over(alloc, *own, log, &records)
        .ok()
        .expect(rt, "a post")
}

fn expect_heard(
    rt: &impl Abort,
    post: &mut MailBox<MemoryLog>,
    from: &Call,
    message: &[u8],
    heard: Heard,
    answered: bool,
) {
    let mut out = Message::new();
    assert!(rt; post.hear(from, message, &mut out) == Ok(heard));
    assert!(rt; out.is_empty() != answered);
}

/// The message that offers the mail which K1ABC gets.
fn offer(rt: &impl Abort, post: &mut MailBox<MemoryLog>, dest: &Call) -> Message {
    let mut out = Message::new();
    assert!(rt; post.post(&call(rt, b"K1ABC"), dest, b"hello") == Ok(1));
    assert!(rt; post.mails().store().wire(1, &mut out));
    out
}

/// How long the text is of the first mail that was stored.
fn text_left(post: &MailBox<MemoryLog>) -> Option<usize> {
    match post.mails().store().stored(0) {
        Some(mail) => Some(mail.text.len()),
        None => None,
    }
}

#[test]
fn a_mail_is_stored_once_over_restarts_and_a_kill(rt: HostRuntime) {
    let alloc = rt.alloc();
    let (here, there) = (call(&rt, b"N0AAA-8"), call(&rt, b"N0BBB-8"));
    let mut first = post_of(&rt, alloc, &here, None);
    let message = offer(&rt, &mut first, &there);
    let mut second = post_of(&rt, alloc, &there, None);
    let stored = Heard::Stored {
        number: 1,
        to: call(&rt, b"K1ABC"),
    };
    expect_heard(&rt, &mut second, &here, &message, stored, true);
    let mut second = restarted(&rt, alloc, &there, second);
    expect_heard(
        &rt,
        &mut second,
        &here,
        &message,
        Heard::Again { number: 1 },
        true,
    );
    assert!(&rt; second.mails().letters().len() == 1);
    assert!(&rt; text_left(&second) == Some(5));
    assert!(&rt; second.kill(1) == Ok(()));
    assert!(&rt; text_left(&second) == Some(0));
    let mut second = restarted(&rt, alloc, &there, second);
    expect_heard(
        &rt,
        &mut second,
        &here,
        &message,
        Heard::Again { number: 1 },
        true,
    );
    assert!(&rt; second.mails().letters().is_empty());
    assert!(&rt; text_left(&second) == Some(0));
}

#[test]
fn a_settled_mail_is_queued_no_more(rt: HostRuntime) {
    let alloc = rt.alloc();
    let (here, there) = (call(&rt, b"N0AAA-8"), call(&rt, b"N0BBB-8"));
    let mut first = post_of(&rt, alloc, &here, None);
    let _message = offer(&rt, &mut first, &there);
    let receipt = b"A\x00\x00\x00\x00\x00\x00\x00\x01";
    expect_heard(
        &rt,
        &mut first,
        &there,
        receipt,
        Heard::Settled { number: 1 },
        false,
    );
    let mut first = restarted(&rt, alloc, &here, first);
    expect_heard(
        &rt,
        &mut first,
        &there,
        receipt,
        Heard::Stray { number: 1 },
        false,
    );
}

#[test]
fn no_receipt_goes_out_for_what_was_not_kept(rt: HostRuntime) {
    let alloc = rt.alloc();
    let (here, there) = (call(&rt, b"N0AAA-8"), call(&rt, b"N0BBB-8"));
    let mut first = post_of(&rt, alloc, &here, None);
    let message = offer(&rt, &mut first, &there);
    let failure = Failure {
        after: 0,
        is_found: false,
    };
    let mut second = post_of(&rt, alloc, &there, Some(failure));
    let mut out = Message::new();
    assert!(&rt;
        second.hear(&here, &message, &mut out) == Err(BoxRefusal::NotKept(LogFailed::Disk))
    );
    assert!(&rt; out.is_empty());
    assert!(&rt; second.mails().letters().is_empty());
}
