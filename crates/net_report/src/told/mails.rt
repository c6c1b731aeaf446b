//! What a report says of mail. Called by `events` and `reports`.
ghost use Rattle.std.specs.Prelude.{◌≡◌, IfOk, string_bytes};
ghost use Rattle.net_report.specs.ToldLines as mails;

use net_model::StoredMail;
use std::alloc::{AllocError, Global};

/// `stored N ORIGIN NUMBER TO LEN`
pub(crate) fn stored_line(alloc: Global, node: u8, mail: &StoredMail) -> Result<String, AllocError>
    ensures { IfOk result (λ s. string_bytes s
        ≡ mails.stored_line node mail.now.origin mail.now.number mail.now.to mail.now.len) }
{
    let origin = mail.origin.show();
    let origin = origin.as_str();
    let number = mail.number;
    let to = mail.to.show();
    let to = to.as_str();
    let len = mail.len;
    format!(in alloc; "stored {node} {origin} {number} {to} {len}\n")
}

/// `mail N queued=Q stored=S`
pub(crate) fn mail_line(
    alloc: Global,
    node: u8,
    queued: usize,
    stored: usize,
) -> Result<String, AllocError>
    ensures { IfOk result (λ s. string_bytes s ≡ mails.mail_line node queued stored) }
{
    format!(in alloc; "mail {node} queued={queued} stored={stored}\n")
}
