//! The network that was read, and the lines of its file. Called by `traces`.
ghost use Rattle.std.specs.Prelude.{◌≡◌, ◌++◌, flat_map, OnOk, IfOk, string_bytes, codes};
ghost use Rattle.std.specs.Fmt.{decimal};
ghost use Rattle.ax_address.specs.Callsign as calls;
ghost use Rattle.network_file.specs.Keys.{word_of};
ghost use Rattle.trace_lines.specs.Heads as heads;
ghost use Rattle.trace_lines.specs.Json as json;
ghost use Rattle.trace_lines.specs.Json.{listed, quoted};

use crate::json::{alias_text, string_text};
use crate::lines::Lines;
use ax_address::Call;
use network_file::{Channel, Declaration, Key, Network, Setting, Via};
use radio_base::NoMemory;
use std::alloc::{AllocError, Global};
use text_lines::first_line;

/// Appends the network, its nodes, its channels, its settings and its paths over repeaters, each in the order of the file.
pub(crate) fn write_network(network: &Network, out: &mut Lines) -> Result<(), NoMemory>
    ensures { OnOk result (out.new ≡ out.old ++ heads.network_text network.now) }
{
    write_version(network.version(), out)?;
    write_nodes(network.declared(), out)?;
    write_channels(network.channels(), out)?;
    write_settings(network.settings(), out)?;
    write_paths(network.vias(), out)?;
    Ok(())
}

#[tactic(auto, unfolding(crate::specs::Json::object))]
fn write_version(version: u8, out: &mut Lines) -> Result<(), NoMemory>
    ensures { OnOk result (out.new ≡ out.old ++ heads.version_line version) }
{
    let object = format!(in out.alloc(); "{{\"kind\":\"network\",\"version\":{version}}}\n")?;
    out.text(object.as_str())?;
    Ok(())
}

fn write_nodes(declared: &[Declaration], out: &mut Lines) -> Result<(), NoMemory>
    ensures { OnOk result (out.new ≡ out.old ++ flat_map heads.node_line declared.now) }
{
    for one in declared {
        write_node(one, out)?;
    }
    Ok(())
}

#[tactic(auto, unfolding(crate::specs::Json::object))]
fn write_node(declared: &Declaration, out: &mut Lines) -> Result<(), NoMemory>
    ensures { OnOk result (out.new ≡ out.old ++ heads.node_line declared.now) }
{
    let node = declared.node;
    let call = declared.call.show();
    let call = call.as_str();
    let alias = alias_text(out.alloc(), declared.alias)?;
    let alias = alias.as_str();
    let object = format!(in out.alloc();
        "{{\"kind\":\"node\",\"node\":{node},\"call\":\"{call}\",\"alias\":{alias}}}\n"
    )?;
    out.text(object.as_str())?;
    Ok(())
}

fn write_channels(channels: &[Channel], out: &mut Lines) -> Result<(), NoMemory>
    ensures { OnOk result (out.new ≡ out.old ++ flat_map heads.channel_line channels.now) }
{
    for channel in channels {
        write_channel(channel, out)?;
    }
    Ok(())
}

#[tactic(auto, unfolding(crate::specs::Json::object))]
fn write_channel(channel: &Channel, out: &mut Lines) -> Result<(), NoMemory>
    ensures { OnOk result (out.new ≡ out.old ++ heads.channel_line channel.now) }
{
    let nodes = nodes_text(out.alloc(), channel)?;
    let nodes = nodes.as_str();
    let object = format!(in out.alloc(); "{{\"kind\":\"channel\",\"nodes\":[{nodes}]}}\n")?;
    out.text(object.as_str())?;
    Ok(())
}

fn nodes_text(alloc: Global, channel: &Channel) -> Result<String, AllocError>
    ensures { IfOk result (λ s. string_bytes s ≡ listed decimal channel.now.nodes.items) }
{
    numbers_text(alloc, channel.nodes.as_slice())
}

/// Numbers, with commas between them.
#[tactic(auto, unfolding(crate::specs::Json::listed))]
fn numbers_text(alloc: Global, numbers: &[u8]) -> Result<String, AllocError>
    ensures { IfOk result (λ s. string_bytes s ≡ listed decimal numbers.now) }
{
    match numbers {
        [] => Ok(String::new(alloc)),
        [first, others @ ..] => {
            let mut text = format!(in alloc; "{first}")?;
            push_numbers(alloc, others, &mut text)?;
            Ok(text)
        }
    }
}

fn push_numbers(alloc: Global, numbers: &[u8], text: &mut String) -> Result<(), AllocError>
    ensures { OnOk result (string_bytes text.new
        ≡ string_bytes text.old ++ flat_map (λ n. codes "," ++ decimal n) numbers.now) }
{
    for number in numbers {
        let more = format!(in alloc; ",{number}")?;
        text.push_str(more.as_str())?;
    }
    Ok(())
}

fn write_settings(settings: &[Setting], out: &mut Lines) -> Result<(), NoMemory>
    ensures { OnOk result (out.new ≡ out.old ++ flat_map heads.setting_line settings.now) }
{
    for setting in settings {
        write_setting(setting, out)?;
    }
    Ok(())
}

#[tactic(auto, unfolding(crate::specs::Json::object))]
fn write_setting(setting: &Setting, out: &mut Lines) -> Result<(), NoMemory>
    ensures { OnOk result (out.new ≡ out.old ++ heads.setting_line setting.now) }
{
    let node = setting.node();
    let key = key_text(out.alloc(), setting.key())?;
    let key = key.as_str();
    let value = setting.value();
    let object = format!(in out.alloc();
        "{{\"kind\":\"setting\",\"node\":{node},\"key\":{key},\"value\":{value}}}\n"
    )?;
    out.text(object.as_str())?;
    Ok(())
}

fn key_text(alloc: Global, key: Key) -> Result<String, AllocError>
    ensures { IfOk result (λ s. string_bytes s ≡ json.string_text (word_of key)) }
{
    string_text(alloc, key.word().as_bytes())
}

fn write_paths(vias: &[Via], out: &mut Lines) -> Result<(), NoMemory>
    ensures { OnOk result (out.new ≡ out.old ++ flat_map heads.path_line vias.now) }
{
    for via in vias {
        write_path(via, out)?;
    }
    Ok(())
}

#[tactic(auto, unfolding(crate::specs::Json::object))]
fn write_path(via: &Via, out: &mut Lines) -> Result<(), NoMemory>
    ensures { OnOk result (out.new ≡ out.old ++ heads.path_line via.now) }
{
    let node = via.node;
    let peer = via.peer.show();
    let peer = peer.as_str();
    let repeaters = repeaters_text(out.alloc(), via)?;
    let repeaters = repeaters.as_str();
    let object = format!(in out.alloc();
        "{{\"kind\":\"path\",\"node\":{node},\"peer\":\"{peer}\",\"repeaters\":[{repeaters}]}}\n"
    )?;
    out.text(object.as_str())?;
    Ok(())
}

fn repeaters_text(alloc: Global, via: &Via) -> Result<String, AllocError>
    ensures { IfOk result (λ s. string_bytes s ≡ listed (λ c. quoted (calls.shown c)) via.now.repeaters.items) }
{
    calls_text(alloc, via.repeaters.as_slice())
}

/// Calls as strings, with commas between them.
#[tactic(auto, unfolding(crate::specs::Json::listed))]
fn calls_text(alloc: Global, names: &[Call]) -> Result<String, AllocError>
    ensures { IfOk result (λ s. string_bytes s ≡ listed (λ c. quoted (calls.shown c)) names.now) }
{
    match names {
        [] => Ok(String::new(alloc)),
        [first, others @ ..] => {
            let first = first.show();
            let first = first.as_str();
            let mut text = format!(in alloc; "\"{first}\"")?;
            push_calls(alloc, others, &mut text)?;
            Ok(text)
        }
    }
}

fn push_calls(alloc: Global, names: &[Call], text: &mut String) -> Result<(), AllocError>
    ensures { OnOk result (string_bytes text.new
        ≡ string_bytes text.old ++ flat_map (λ c. codes "," ++ quoted (calls.shown c)) names.now) }
{
    for name in names {
        let name = name.show();
        let name = name.as_str();
        let more = format!(in alloc; ",\"{name}\"")?;
        text.push_str(more.as_str())?;
    }
    Ok(())
}

/// Appends each line of a file with its number, from 1.
pub(crate) fn write_lines(bytes: &[u8], out: &mut Lines) -> Result<(), NoMemory>
    ensures { OnOk result (out.new ≡ out.old ++ heads.file_text bytes.now) }
{
    let mut number: u64 = 0;
    let mut rest = bytes;
    while !rest.is_empty() {
        let (line, more) = first_line(rest);
        number += 1;
        write_line(number, line, out)?;
        rest = more;
    }
    Ok(())
}

#[tactic(auto, unfolding(crate::specs::Json::object))]
fn write_line(number: u64, line: &[u8], out: &mut Lines) -> Result<(), NoMemory>
    ensures { OnOk result (out.new ≡ out.old ++ heads.line_line number line.now) }
{
    let said = string_text(out.alloc(), line)?;
    let said = said.as_str();
    let object = format!(in out.alloc();
        "{{\"kind\":\"line\",\"line\":{number},\"text\":{said}}}\n"
    )?;
    out.text(object.as_str())?;
    Ok(())
}
