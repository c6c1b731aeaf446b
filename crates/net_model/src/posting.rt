//! What became of a post. `mails` answers so, and net_world tells it.
use node_mail::PostRefusal;

/// What became of a post.
#[derive(Clone, Copy, Debug, PartialEq, Eq)]
pub enum Posting {
    /// The node keeps no mail.
    NoMail,
    /// The mail has this number.
    Posted(u64),
    Refused(PostRefusal),
}
