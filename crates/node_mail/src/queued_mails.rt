//! The places of queued mails, found by binary search. Called by `queue`.
ghost use Rattle.std.specs.Prelude.{◌≡◌, ◌<◌, ◌≤◌, ℕ, length, is_some, slice_index_or, IfSome, IfNone};
ghost use Rattle.node_mail.specs.Lists.{is_queued_for};
ghost use Rattle.node_mail.specs.Queues.{HasNone, Rises, letters};
ghost use Rattle.node_mail.specs.declared.queued_mails.QueuedMail.{QueuedMail as Seen};

use ax_address::Call;

/// A mail that was posted here and isn't settled.
#[derive(Debug, Drop)]
pub(crate) struct QueuedMail {
    pub(crate) number: u64,
    /// The user for whom it is.
    pub(crate) to: Call,
    /// The node of that user.
    pub(crate) dest: Call,
    pub(crate) text: Vec<u8>,
}

/// Where the mails of that number and of greater ones begin.
fn start_of(mails: &[QueuedMail], number: u64) -> usize
    requires { Rises (letters mails.now) }
    ensures bound { result ≤ length mails.now }
    ensures before { (i : ℕ) (d : Seen) → i < result → (slice_index_or mails.now i d).number < number }
    ensures after { (i : ℕ) (d : Seen) → result ≤ i → i < length mails.now →
        number ≤ (slice_index_or mails.now i d).number }
{
    mails.partition_point(|mail| mail.number < number)
}

/// The place of the mail of a number.
pub(crate) fn place_of(mails: &[QueuedMail], number: u64) -> Option<usize>
    requires { Rises (letters mails.now) }
    ensures within { IfSome result (λ at. at < length mails.now) }
    ensures found { IfSome result (λ at. (d : Seen) → (slice_index_or mails.now at d).number ≡ number) }
    ensures none { IfNone result (HasNone number (letters mails.now)) }
{
    let at = start_of(mails, number);
    if at < mails.len() && mails[at].number == number {
        Some(at)
    } else {
        None
    }
}

/// The place of the mail of a number, where it is queued for that node.
pub(crate) fn place_for(mails: &[QueuedMail], dest: &Call, number: u64) -> Option<usize>
    requires { Rises (letters mails.now) }
    ensures answer { is_some result ≡ is_queued_for (letters mails.now) dest.now number }
    ensures within { IfSome result (λ at. at < length mails.now) }
    ensures found { IfSome result (λ at. (d : Seen) → (slice_index_or mails.now at d).number ≡ number) }
{
    match place_of(mails, number) {
        Some(at) => {
            if mails[at].dest == *dest {
                Some(at)
            } else {
                None
            }
        }
        None => None,
    }
}
