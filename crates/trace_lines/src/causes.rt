//! The verdict, and its cause. Called by `traces`.
ghost use Rattle.std.specs.Prelude.{◌≡◌, ◌++◌, OnOk, IfOk, Some, string_bytes};
ghost use Rattle.net_verdict.specs.declared.sign.Sign.TheVariants as signs;
ghost use Rattle.net_report.specs.Reports.{late_word};
ghost use Rattle.trace_lines.specs.Json.{fields_text};
ghost use Rattle.trace_lines.specs.Verdicts as verdicts;

use crate::lines::Lines;
use circuit_verdict::{Late, LateWhy};
use net_verdict::{LateCause, Sign};
use radio_base::NoMemory;
use std::alloc::{AllocError, Global};

/// Appends the verdict.
#[tactic(auto, unfolding(crate::specs::Json::object))]
pub(crate) fn write_verdict(late: Option<Late>, out: &mut Lines) -> Result<(), NoMemory>
    ensures { OnOk result (out.new ≡ out.old ++ verdicts.verdict_line late) }
{
    match late {
        Some(late) => write_late(late, out),
        None => out.text("{\"kind\":\"verdict\",\"late\":false}\n"),
    }
}

#[tactic(auto, unfolding(crate::specs::Json::object))]
fn write_late(late: Late, out: &mut Lines) -> Result<(), NoMemory>
    ensures { OnOk result (out.new ≡ out.old ++ verdicts.verdict_line (Some late)) }
{
    let line = late.line;
    let why = late_word(late.why);
    let object = format!(in out.alloc();
        "{{\"kind\":\"verdict\",\"late\":true,\"line\":{line},\"why\":\"{why}\"}}\n"
    )?;
    out.text(object.as_str())?;
    Ok(())
}

fn late_word(why: LateWhy) -> &'static str
    ensures { result.now ≡ late_word why }
{
    match why {
        LateWhy::Overtaken => "overtaken",
        LateWhy::Returned => "returned",
    }
}

/// Appends the cause of a verdict, if there is one.
pub(crate) fn write_cause(cause: Option<LateCause>, out: &mut Lines) -> Result<(), NoMemory>
    ensures { OnOk result (out.new ≡ out.old ++ verdicts.cause_text cause) }
{
    match cause {
        Some(cause) => write_sign(cause, out),
        None => Ok(()),
    }
}

#[tactic(auto, unfolding(crate::specs::Json::object))]
fn write_sign(cause: LateCause, out: &mut Lines) -> Result<(), NoMemory>
    ensures { OnOk result (out.new ≡ out.old ++ verdicts.cause_line cause) }
{
    let event = cause.event;
    let sign = sign_fields(out.alloc(), cause.sign)?;
    let sign = sign.as_str();
    let object = format!(in out.alloc(); "{{\"kind\":\"cause\",\"event\":{event}{sign}")?;
    out.text(object.as_str())?;
    Ok(())
}

/// The fields of a sign, and the end of their object.
fn sign_fields(alloc: Global, sign: Sign) -> Result<String, AllocError>
    ensures { IfOk result (λ s. string_bytes s ≡ fields_text (verdicts.sign_fields sign)) }
{
    match sign {
        Sign::Unsent => ",\"sign\":\"unsent\"}\n".to_string(alloc),
        Sign::Overtaken {
            sent,
            overtakers,
            allowance,
        } => overtaken_fields(alloc, sent, overtakers, allowance),
        Sign::Unasked => ",\"sign\":\"unasked\"}\n".to_string(alloc),
        Sign::Held { node, end } => held_fields(alloc, node, end),
    }
}

fn overtaken_fields(
    alloc: Global,
    sent: u64,
    overtakers: u64,
    allowance: u64,
) -> Result<String, AllocError>
    ensures { IfOk result (λ s. string_bytes s
        ≡ fields_text (verdicts.sign_fields (signs.Overtaken sent overtakers allowance))) }
{
    let fields = format!(in alloc;
        ",\"sign\":\"overtaken\",\"sent\":{sent},\"overtakers\":{overtakers},\"allowance\":{allowance}}}\n"
    )?;
    Ok(fields)
}

fn held_fields(alloc: Global, node: u8, end: u64) -> Result<String, AllocError>
    ensures { IfOk result (λ s. string_bytes s ≡ fields_text (verdicts.sign_fields (signs.Held node end))) }
{
    let fields = format!(in alloc; ",\"sign\":\"held\",\"node\":{node},\"end\":{end}}}\n")?;
    Ok(fields)
}
