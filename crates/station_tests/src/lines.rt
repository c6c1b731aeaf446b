//! What users type. Called by `rt test`.
use crate::frames::call;
use ax_address::Alias;
use station_prompt::{
    Command, MailCommand, NodesAsked, Verb, age_text, capitals_of, command_of, mail_command_of,
    reply,
};
use std::alloc::Global;
use std::process::Abort;
use text_lines::words_of;

fn expect_verb(rt: &impl Abort, word: &[u8], wanted: Option<Verb>) {
    assert!(rt; Verb::of(word) == wanted);
}

#[test]
fn each_verb_has_its_shortest_form(rt: HostRuntime) {
    expect_verb(&rt, b"C", Some(Verb::Connect));
    expect_verb(&rt, b"S", None);
    expect_verb(&rt, b"ST", Some(Verb::Stats));
    expect_verb(&rt, b"B", Some(Verb::Bye));
    expect_verb(&rt, b"BB", Some(Verb::Mail));
    expect_verb(&rt, b"M", Some(Verb::Mail));
    expect_verb(&rt, b"MH", Some(Verb::MHeard));
    expect_verb(&rt, b"Q", Some(Verb::Bye));
    expect_verb(&rt, b"NODESX", None);
}

fn expect_link(rt: &impl Abort, alloc: Global, line: &[u8], repeaters: usize) {
    let capitals = capitals_of(alloc, line).ok().expect(rt, "memory");
    let words = words_of(alloc, &capitals).ok().expect(rt, "memory");
    let over = match command_of(&words) {
        Ok(Command::ConnectByPort { via, .. }) => Some(via.len()),
        _ => None,
    };
    assert!(rt; over == Some(repeaters));
}

#[test]
fn a_link_is_asked_for_by_port(rt: HostRuntime) {
    expect_link(&rt, rt.alloc(), b"c 2m n0xyz", 0);
    expect_link(&rt, rt.alloc(), b"  connect 1  n0xyz v n0rep n0dig-2", 2);
}

fn expect_nodes(rt: &impl Abort, alloc: Global, line: &[u8], front: &[u8]) {
    let capitals = capitals_of(alloc, line).ok().expect(rt, "memory");
    let words = words_of(alloc, &capitals).ok().expect(rt, "memory");
    let is_asked = match command_of(&words) {
        Ok(Command::Nodes(NodesAsked::Beginning(word))) => word == front,
        _ => false,
    };
    assert!(rt; is_asked);
}

#[test]
fn nodes_are_asked_for_by_their_first_letters(rt: HostRuntime) {
    expect_nodes(&rt, rt.alloc(), b"n ab*", b"AB");
}

fn expect_letter(rt: &impl Abort, alloc: Global, line: &[u8], wanted: Option<&[u8]>) {
    let words = words_of(alloc, line).ok().expect(rt, "memory");
    let at = match mail_command_of(&words) {
        Ok(MailCommand::Send { post, .. }) => post,
        _ => Some(b"?".as_slice()),
    };
    assert!(rt; at == wanted);
}

#[test]
fn a_letter_is_for_a_user_here_or_elsewhere(rt: HostRuntime) {
    expect_letter(&rt, rt.alloc(), b"SEND N0ABC", None);
    expect_letter(&rt, rt.alloc(), b"S N0ABC@QMAIL", Some(b"QMAIL"));
    expect_letter(&rt, rt.alloc(), b"S N0ABC @ QMAIL", Some(b"QMAIL"));
}

fn expect_reply(rt: &impl Abort, alloc: Global) {
    let alias = Alias::read(b"ANODE").ok().expect(rt, "an alias");
    let text = reply(alloc, &alias, &call(rt, b"N0AAA-15"))
        .ok()
        .expect(rt, "memory");
    assert!(rt; text.bytes() == b"ANODE:N0AAA-15} ".as_slice());
}

#[test]
fn a_reply_begins_with_the_name_of_the_member(rt: HostRuntime) {
    expect_reply(&rt, rt.alloc());
}

#[test]
fn an_age_is_cut_to_whole_units(rt: HostRuntime) {
    assert!(rt; age_text(59_999).as_str() == "59s");
    assert!(rt; age_text(60_000).as_str() == "1m");
    assert!(rt; age_text(7_199_999).as_str() == "1h");
    assert!(rt; age_text(172_800_000).as_str() == "2d");
}
