//! The mail of the nodes of a network: a store at the place of each node that keeps mail. Called by net_world.
ghost use Rattle.std.specs.Prelude.{◌≡◌, ℕ, List, [], Option, OnOk, OnErr, IfOk, is_some, length, slice_get};
ghost use Rattle.std.specs.Option.{option_copied, option_map};
ghost use Rattle.node_mail.specs.Lists.{Lists, letter_of, number_and_dest, octets_or};
ghost use Rattle.net_model.specs.Stores as stores;
ghost use Rattle.net_model.specs.Mailing.{mail_in, queued_of};
ghost use Rattle.net_model.specs.Starting.{Placed};
ghost use Rattle.net_model.specs.Standing.{MailStands, MembersStand};

use crate::members::Member;
use crate::posting::Posting;
use ax_address::Call;
use l3_datagram::Message;
use node_mail::{Heard, Store};
use radio_base::NoMemory;

/// A mail that was offered: the end's number at its node, and the mail's.
#[derive(Clone, Copy, Debug)]
pub struct Offer {
    pub id: u64,
    pub number: u64,
}

/// A mail that is stored: where it was posted, its number there, its user, and how many octets its text has.
#[derive(Clone, Copy, Debug)]
pub struct StoredMail {
    pub origin: Call,
    pub number: u64,
    pub to: Call,
    pub len: usize,
}

/// The mail of the node at a place.
fn store_at(members: &[Member], at: usize) -> Option<&Store>
    ensures { (ps : List Placed) (ls : List (Option Lists)) → MembersStand members.now ps ls → MailStands (option_copied result) (mail_in at ls) }
{
    match members.get(at) {
        Some(member) => member.mail.as_ref(),
        None => None,
    }
}

/// Whether the node at a place keeps mail.
pub fn keeps_mail(members: &[Member], at: usize) -> bool
    ensures { (ps : List Placed) (ls : List (Option Lists)) → MembersStand members.now ps ls → result ≡ is_some (mail_in at ls) }
{
    store_at(members, at).is_some()
}

/// A mail is posted at the node at a place.
pub fn post_at(members: &mut [Member], at: usize, to: &Call, dest: &Call, text: &[u8]) -> Posting
    ensures answer { (ps : List Placed) (ls : List (Option Lists)) → MembersStand members.old ps ls
        → stores.PostsAt result (mail_in at ls) dest.now text.now }
    ensures goes { (ps : List Placed) (ls : List (Option Lists)) → MembersStand members.old ps ls
        → MembersStand members.new ps (stores.posted_at result at to.now dest.now text.now ls) }
{
    if at >= members.len() {
        return Posting::NoMail;
    }
    match &mut members[at].mail {
        Some(store) => match store.post(to, dest, text) {
            Ok(number) => Posting::Posted(number),
            Err(why) => Posting::Refused(why),
        },
        None => Posting::NoMail,
    }
}

/// The node at a place hears what another has written; None where it keeps no mail. After `NoMemory` nothing is changed.
pub fn hear_at(
    members: &mut [Member],
    at: usize,
    from: &Call,
    bytes: &[u8],
    out: &mut Message,
) -> Result<Option<Heard>, NoMemory>
    ensures answer { IfOk result (λ heard. (ps : List Placed) (ls : List (Option Lists)) → MembersStand members.old ps ls
        → stores.HearsAt heard (mail_in at ls) from.now bytes.now) }
    ensures message { IfOk result (λ heard. out.new.items ≡ stores.answer_octets heard out.old.items) }
    ensures goes { OnOk result ((ps : List Placed) (ls : List (Option Lists)) → MembersStand members.old ps ls
        → MembersStand members.new ps (stores.heard_at at from.now bytes.now ls)) }
    ensures err { OnErr result (members.new ≡ members.old) }
    ensures err_out { OnErr result (out.new ≡ out.old) }
{
    if at >= members.len() {
        return Ok(None);
    }
    match &mut members[at].mail {
        Some(store) => {
            let heard = store.hear(from, bytes, out)?;
            Ok(Some(heard))
        }
        None => Ok(None),
    }
}

/// How many mails are queued at the node at a place.
pub fn queued_count(members: &[Member], at: usize) -> usize
    ensures { (ps : List Placed) (ls : List (Option Lists)) → MembersStand members.now ps ls → result ≡ length (queued_of (mail_in at ls)) }
{
    match store_at(members, at) {
        Some(store) => store.counts().0,
        None => 0,
    }
}

/// The number and the destination of the nth mail that is queued at the node at a place.
pub fn queued_at(members: &[Member], at: usize, nth: usize) -> Option<(u64, Call)>
    ensures { (ps : List Placed) (ls : List (Option Lists)) → MembersStand members.now ps ls
        → result ≡ option_map number_and_dest (slice_get (queued_of (mail_in at ls)) nth) }
{
    match store_at(members, at) {
        Some(store) => store.queued(nth),
        None => None,
    }
}

/// The message that offers the queued mail of a number.
pub fn wire_at(members: &[Member], at: usize, number: u64) -> Message
    ensures { (ps : List Placed) (ls : List (Option Lists)) → MembersStand members.now ps ls
        → result.items ≡ octets_or [] (letter_of number (queued_of (mail_in at ls))) }
{
    let mut out = Message::new();
    match store_at(members, at) {
        Some(store) => {
            store.wire(number, &mut out);
            out
        }
        None => out,
    }
}
