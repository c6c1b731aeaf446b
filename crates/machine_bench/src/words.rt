//! The words that name a job. Called by `main`.
use crate::mail::Hearing;
use std::alloc::Global;
use std::{env, io};

/// What is to be done.
#[derive(Clone, Copy, Debug)]
pub enum Job {
    /// So many datagrams go over links of modulo 128 or 8 to so many tables of links, 1 to 64.
    Links {
        modulo128: bool,
        peers: u8,
        count: u32,
    },
    /// So many frames come to a node that holds so many links and ends of circuits, 0 to 64.
    Node {
        held: u8,
        count: u32,
    },
    /// So many messages go over so many circuits, 1 to 64, of one node with another.
    Circuits {
        circuits: u8,
        count: u32,
    },
    /// So many rounds of so many hearings, 1 to 4,096, at a store.
    Mail {
        hearing: Hearing,
        held: u16,
        rounds: u32,
    },
}

/// The words behind the program's name.
pub fn given(rt: &HostRuntime, alloc: Global) -> io::Result<Vec<String>> {
    let mut words = Vec::new(alloc);
    for word in env::args(rt)?.skip(1) {
        words.push(word)?;
    }
    Ok(words)
}

/// The job that the words name.
pub fn job_of(words: &[String]) -> Option<Job> {
    match words {
        [name, modulo, peers, count] if name.as_str() == "links" => Some(Job::Links {
            modulo128: modulo128_of(modulo)?,
            peers: few_of(peers)?,
            count: count.as_str().parse().ok()?,
        }),
        [name, circuits, count] if name.as_str() == "circuits" => Some(Job::Circuits {
            circuits: few_of(circuits)?,
            count: count.as_str().parse().ok()?,
        }),
        [name, held, count] if name.as_str() == "node" => Some(Job::Node {
            held: most_64(held)?,
            count: count.as_str().parse().ok()?,
        }),
        [name, hearing, held, rounds] if name.as_str() == "mail" => Some(Job::Mail {
            hearing: hearing_of(hearing)?,
            held: mails_of(held)?,
            rounds: rounds.as_str().parse().ok()?,
        }),
        _ => None,
    }
}

fn hearing_of(word: &String) -> Option<Hearing> {
    match word.as_str() {
        "new" => Some(Hearing::New),
        "again" => Some(Hearing::Again),
        "receipts" => Some(Hearing::Receipts),
        _ => None,
    }
}

/// A number from 1 to 4,096.
fn mails_of(word: &String) -> Option<u16> {
    let mails: u16 = word.as_str().parse().ok()?;
    if mails == 0 || mails > 4096 {
        return None;
    }
    Some(mails)
}

fn modulo128_of(word: &String) -> Option<bool> {
    match word.as_str() {
        "8" => Some(false),
        "128" => Some(true),
        _ => None,
    }
}

/// A number from 1 to 64.
fn few_of(word: &String) -> Option<u8> {
    let few = most_64(word)?;
    if few == 0 {
        return None;
    }
    Some(few)
}

/// A number from 0 to 64.
fn most_64(word: &String) -> Option<u8> {
    let few: u8 = word.as_str().parse().ok()?;
    if few > 64 {
        return None;
    }
    Some(few)
}
