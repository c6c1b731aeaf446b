//! Why a post didn't do what was asked. Called by `changing` and `post_mail`.
use mail_records::LogFailed;
use node_mail::PostRefusal;

/// Why a post didn't do what was asked.
#[derive(Clone, Copy, Debug, PartialEq, Eq)]
pub enum BoxRefusal {
    /// A mail isn't posted.
    Post(PostRefusal),
    /// There is no room for a letter more.
    NoRoom,
    /// No such letter is kept.
    NoLetter,
    /// It isn't kept: the log has failed so, or there is no memory. The log may have to be opened again.
    NotKept(LogFailed),
    /// A record was written before that wasn't applied, for want of memory: the log has to be opened again.
    Behind,
}
