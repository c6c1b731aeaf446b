//! What a trace tells of mail. Called by `events` and `left`.
ghost use Rattle.std.specs.Prelude.{◌≡◌, ◌++◌, OnOk, IfOk, Option, string_bytes};
ghost use Rattle.trace_lines.specs.Json.{fields_text};
ghost use Rattle.net_model.specs.Standing.{MailStands};
ghost use Rattle.node_mail.specs.Lists.{Lists};
ghost use Rattle.trace_lines.specs.Mails as mails;

use crate::lines::Lines;
use crate::stands::{AtNode, Stand};
use net_model::StoredMail;
use node_mail::Store;
use radio_base::NoMemory;
use std::alloc::{AllocError, Global};

/// A mail is stored at the node.
#[tactic(auto, unfolding(crate::specs::Json::object))]
pub(crate) fn write_stored(at: AtNode, stored: &StoredMail, out: &mut Lines) -> Result<(), NoMemory>
    ensures { OnOk result (out.new
        ≡ out.old ++ mails.stored_line at stored.now.origin stored.now.number stored.now.to stored.now.len) }
{
    let Stand { event, line } = at.stand;
    let node = at.node;
    let fields = stored_fields(out.alloc(), stored)?;
    let fields = fields.as_str();
    let object = format!(in out.alloc();
        "{{\"kind\":\"stored\",\"event\":{event},\"line\":{line},\"node\":{node}{fields}"
    )?;
    out.text(object.as_str())?;
    Ok(())
}

/// The fields of a mail that is stored, and the end of their object.
fn stored_fields(alloc: Global, stored: &StoredMail) -> Result<String, AllocError>
    ensures { IfOk result (λ s. string_bytes s
        ≡ fields_text (mails.stored_fields stored.now.origin stored.now.number stored.now.to stored.now.len)) }
{
    let origin = stored.origin.show();
    let origin = origin.as_str();
    let mail = stored.number;
    let to = stored.to.show();
    let to = to.as_str();
    let bytes = stored.len;
    let fields = format!(in alloc;
        ",\"origin\":\"{origin}\",\"mail\":{mail},\"to\":\"{to}\",\"bytes\":{bytes}}}\n"
    )?;
    Ok(fields)
}

/// How much mail a node has left, where it keeps mail.
pub(crate) fn write_left_mail(
    node: u8,
    mail: &Option<Store>,
    out: &mut Lines,
) -> Result<(), NoMemory>
    ensures { OnOk result ((kept : Option Lists) → MailStands mail.now kept
        → out.new ≡ out.old ++ mails.mail_trace node kept) }
{
    match mail {
        Some(store) => {
            let (queued, stored) = store.counts();
            write_counts(node, queued, stored, out)?;
            Ok(())
        }
        None => Ok(()),
    }
}

#[tactic(auto, unfolding(crate::specs::Json::object))]
fn write_counts(node: u8, queued: usize, stored: usize, out: &mut Lines) -> Result<(), NoMemory>
    ensures { OnOk result (out.new ≡ out.old ++ mails.mail_line node queued stored) }
{
    let object = format!(in out.alloc();
        "{{\"kind\":\"mail\",\"node\":{node},\"queued\":{queued},\"stored\":{stored}}}\n"
    )?;
    out.text(object.as_str())?;
    Ok(())
}
