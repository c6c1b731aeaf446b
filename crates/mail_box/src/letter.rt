//! A letter, and for whom it is. Called by `mails`, and by whoever shows letters.
ghost use Rattle.std.specs.Prelude.{◌≡◌};
ghost use Rattle.mail_box.specs.Users as users;

use ax_address::{Call, write_net_call};
use mail_records::LetterText;
use node_mail::MailName;

/// A letter for a user of the post.
#[derive(Debug, Drop)]
pub struct Letter {
    /// Its number at the post, from 1 on, in the order in which the letters came.
    pub number: u64,
    /// The mail as which it came from another post; `None` where it was posted here.
    pub mail: Option<MailName>,
    /// The user for whom it is.
    pub user: Call,
    pub text: LetterText,
}

impl Letter {
    /// Whether it is for this user, whatever the SSID of his call, or for everybody, as one for `ALL` is.
    pub fn is_for(&self, user: &Call) -> bool
        ensures { result ≡ users.is_for user.now self.now }
    {
        is_user(&self.user, user) || is_user(&self.user, &everybody())
    }
}

fn is_user(call: &Call, user: &Call) -> bool
    ensures { result ≡ users.is_user call.now user.now }
{
    let (call, user) = (write_net_call(call), write_net_call(user));
    let (call, user) = (&call[..6], &user[..6]);
    call == user
}

/// The user whose letters are for everybody.
fn everybody() -> Call
    ensures { result ≡ users.everybody }
{
    Call::from_letters(*b"ALL   ", 0)
}
