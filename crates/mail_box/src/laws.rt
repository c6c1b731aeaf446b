//! What follows for a post whose log is opened again. No code calls these: they are for who reads what a post promises.
ghost use Rattle.std.specs.Prelude.{◌≡◌, List};
ghost use Rattle.mail_records.specs.declared.record.Record.{Record as Written};
ghost use Rattle.mail_box.specs.Between.{MailIsStoredOnceOverLogs};
ghost use Rattle.mail_box.specs.Kept.{IsKept};
ghost use Rattle.mail_box.specs.Letters.{LettersAreItsMails};
ghost use Rattle.mail_box.specs.Runs.{TellsOnlyWhatIsKept};
ghost use Rattle.mail_box.specs.Steps.{HasItsMails, HearsAsMail, KillsAsMail, PostsAsMail};

use crate::post_mail::MailBox;
use mail_records::Log;

/// Wherever the program ends after a call, an opening finds the records of the post: those of all that was told, and
/// nothing else.
pub fn found_again<L: Log + Drop>(post: &MailBox<L>)
    ensures { (kept found : List Written) → IsKept L.holds post.now kept → L.may_find post.now.log found →
        found ≡ kept }
{}

/// Two posts of one call with the same records have the same mails and letters, under the same numbers and with the same
/// marks. So the one that is opened again over the records is as the one before.
pub fn same_post<L: Log + Drop, K: Log + Drop>(before: &MailBox<L>, again: &MailBox<K>)
    ensures { (kept : List Written) → IsKept L.holds before.now kept → IsKept K.holds again.now kept →
        before.now.mails.store.own ≡ again.now.mails.store.own → again.now.mails ≡ before.now.mails }
{}

/// Whatever a post is asked, in whatever order, and wherever the program ends, between two inputs or within one, and the
/// log is opened again: the post is the one after some of the records that were to be written, in their order, and among
/// them is every one of which a user was told or a receipt was written.
///
/// Each public call of `MailBox` is such a step: by `kept` where it is done, by `err` where it is refused, and by `crash`
/// where the program ends within it. Between two calls it is `found_again`.
pub fn kept()
    ensures { TellsOnlyWhatIsKept }
{}

/// What a post writes down of a mail, and does then, are the steps of `node_mail`: so what holds of its runs holds of
/// posts, that mail is stored once among it (`node_mail::laws::mail_once_or_killed`).
pub fn steps_as_mail()
    ensures heard { HearsAsMail }
    ensures posted { PostsAsMail }
    ensures killed { KillsAsMail }
{}

/// The mails of a post are those of which its records say that they were posted, and that they were stored, each with its
/// text, or killed: so a mail that a user was told is posted is one of them.
pub fn mails_of_records()
    ensures { HasItsMails }
{}

/// The letters that are kept and came from other posts are the mails that are stored and weren't killed, with their users
/// and texts, in the same order.
pub fn letters_are_its_mails()
    ensures { LettersAreItsMails }
{}

/// Between any posts that keep their logs, whatever is asked of them, whatever nodes without a post write, and wherever
/// their programs end: of any two posts, what one has stored from the other has different numbers, and each has the user
/// of the mail that was posted there under that number for it, and its text, or none where its letter was killed; and each
/// mail that was posted there for it is queued there, or stored here with its text, or was stored here and killed.
pub fn mail_once_over_logs()
    ensures { MailIsStoredOnceOverLogs }
{
    node_mail::laws::mail_once_or_killed();
}
