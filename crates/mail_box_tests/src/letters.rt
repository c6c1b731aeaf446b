//! Letters between users of one post.
use crate::handing_over::{call, restarted};
use ax_address::Call;
use mail_box::{BoxRefusal, MailBox};
use mail_records::MemoryLog;

/// Whether the letter of a number is for a user, where it is kept.
fn is_for(post: &MailBox<MemoryLog>, number: u64, user: &Call) -> Option<bool> {
    match post.mails().letter(number) {
        Some(letter) => Some(letter.is_for(user)),
        None => None,
    }
}

#[test]
fn letters_keep_their_numbers_and_marks(rt: HostRuntime) {
    let alloc = rt.alloc();
    let own = call(&rt, b"N0AAA-8");
    let log = MemoryLog::new(alloc, None);
    let mut post = MailBox::over(alloc, own, log, &[])
        .ok()
        .expect(&rt, "a post");
    assert!(&rt; post.post_here(&call(&rt, b"K1ABC"), b"one") == Ok(1));
    assert!(&rt; post.post_here(&call(&rt, b"ALL"), b"two") == Ok(2));
    assert!(&rt; is_for(&post, 1, &call(&rt, b"K1ABC-5")) == Some(true));
    assert!(&rt; is_for(&post, 1, &call(&rt, b"K1ABD")) == Some(false));
    assert!(&rt; is_for(&post, 2, &call(&rt, b"K1ABD")) == Some(true));
    assert!(&rt; is_for(&post, 3, &call(&rt, b"K1ABD")).is_none());
    assert!(&rt; post.read(2) == Ok(()));
    assert!(&rt; post.kill(1) == Ok(()));
    assert!(&rt; post.kill(1) == Err(BoxRefusal::NoLetter));
    let mut post = restarted(&rt, alloc, &own, post);
    assert!(&rt; post.mails().is_read(2));
    assert!(&rt; post.post_here(&call(&rt, b"K1ABC"), b"three") == Ok(3));
    assert!(&rt; post.read(1) == Err(BoxRefusal::NoLetter));
}
