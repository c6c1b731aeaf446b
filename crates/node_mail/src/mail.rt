//! Mail, and what tells one from all others. Own profile. Used by most files here.
use arrayvec::ArrayVec;
use ax_address::Call;

/// The most octets of the text of a mail.
pub const MAX_MAIL: usize = 1024;
/// The most mails that are queued at a node.
pub const MAX_QUEUED: usize = 1000;
/// The most mails that are stored at a node with their texts.
pub const MAX_STORED: usize = 4096;
/// The most mails that were ever stored at a node: of those that were killed it keeps the names.
pub const MAX_EVER_STORED: usize = 65_536;

/// A mail that is stored at the node of its user.
#[derive(Debug, Drop)]
pub struct Mail {
    /// The node where it was posted.
    pub origin: Call,
    /// Its number there, from 1 on.
    pub number: u64,
    /// The user for whom it is.
    pub to: Call,
    /// Its text, of 1 to 1,024 octets, and empty where it was killed.
    pub text: ArrayVec<u8, MAX_MAIL>,
}

/// What tells a mail from all others: the node where it was posted, and its number there.
#[derive(Clone, Copy, Debug, PartialEq, Eq, Hash)]
pub struct MailName {
    pub origin: Call,
    pub number: u64,
}
