//! Values of JSON (RFC 8259). Called by `circuits`, `events`, `heads` and `left`.
ghost use Rattle.std.specs.Prelude.{◌≡◌, ◌<◌, ◌++◌, flat_map, codes, OnOk, IfOk, string_bytes};
ghost use Rattle.std.specs.Fmt.{decimal};
ghost use Rattle.ax_address.specs.Alias as aliases;
ghost use Rattle.radio_base.specs.Text as digits;
ghost use Rattle.trace_lines.specs.Json as json;

use ax_address::Alias;
use std::alloc::{AllocError, Global};

/// Bytes as a string, each as the character of that number (Latin-1).
#[tactic(auto, unfolding(crate::specs::Json::string_text))]
pub(crate) fn string_text(alloc: Global, bytes: &[u8]) -> Result<String, AllocError>
    ensures { IfOk result (λ s. string_bytes s ≡ json.string_text bytes.now) }
{
    let mut text = String::new(alloc);
    text.push('"')?;
    push_characters(bytes, &mut text)?;
    text.push('"')?;
    Ok(text)
}

/// An alias as a string.
pub(crate) fn alias_text(alloc: Global, alias: Alias) -> Result<String, AllocError>
    ensures { IfOk result (λ s. string_bytes s ≡ json.string_text (aliases.shown alias)) }
{
    let shown = alias.show();
    string_text(alloc, shown.as_str().as_bytes())
}

fn push_characters(bytes: &[u8], text: &mut String) -> Result<(), AllocError>
    ensures { OnOk result (string_bytes text.new ≡ string_bytes text.old ++ flat_map json.character bytes.now) }
{
    for byte in bytes {
        push_character(*byte, text)?;
    }
    Ok(())
}

/// A character stands for itself, or is written by its number.
fn push_character(byte: u8, text: &mut String) -> Result<(), AllocError>
    ensures { OnOk result (string_bytes text.new ≡ string_bytes text.old ++ json.character byte) }
{
    if is_plain(byte) {
        text.push(byte as char)?;
        Ok(())
    } else {
        text.push_str("\\u00")?;
        push_hex(byte, text)?;
        Ok(())
    }
}

fn is_plain(byte: u8) -> bool
    ensures { result ≡ json.is_plain byte }
{
    byte >= 0x20 && byte <= 0x7E && byte != b'"' && byte != b'\\'
}

/// Octets as a string of two capital hexadecimal digits each.
#[tactic(auto, unfolding(crate::specs::Json::hex_text))]
pub(crate) fn hex_text(alloc: Global, octets: &[u8]) -> Result<String, AllocError>
    ensures { IfOk result (λ s. string_bytes s ≡ json.hex_text octets.now) }
{
    let mut text = String::new(alloc);
    text.push('"')?;
    push_octets(octets, &mut text)?;
    text.push('"')?;
    Ok(text)
}

fn push_octets(octets: &[u8], text: &mut String) -> Result<(), AllocError>
    ensures { OnOk result (string_bytes text.new ≡ string_bytes text.old ++ flat_map digits.hex_of octets.now) }
{
    for octet in octets {
        push_hex(*octet, text)?;
    }
    Ok(())
}

fn push_hex(byte: u8, text: &mut String) -> Result<(), AllocError>
    ensures { OnOk result (string_bytes text.new ≡ string_bytes text.old ++ digits.hex_of byte) }
{
    text.push(hex_digit(byte / 16) as char)?;
    text.push(hex_digit(byte % 16) as char)?;
    Ok(())
}

fn hex_digit(n: u8) -> u8
    requires { n < 16 }
    ensures value { result ≡ digits.hex_digit n }
    ensures ascii { result < 128 }
{
    b"0123456789ABCDEF"[n as usize]
}

/// A number, or null.
#[tactic(auto, unfolding(crate::specs::Json::or_null))]
pub(crate) fn number_or_null(alloc: Global, number: Option<u64>) -> Result<String, AllocError>
    ensures { IfOk result (λ s. string_bytes s ≡ json.or_null decimal number) }
{
    match number {
        Some(number) => format!(in alloc; "{number}"),
        None => "null".to_string(alloc),
    }
}

/// Whether it is so.
pub(crate) fn truth(is_so: bool) -> &'static str
    ensures { result.now ≡ json.truth is_so }
{
    if is_so { "true" } else { "false" }
}
