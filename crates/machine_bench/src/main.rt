//! Drives the machines of a node without a network around them, for the scripts in `bench/`, and prints how many came (for a node, how many
//! frames went out):
//!
//! - `links MODULO PEERS COUNT` hands COUNT datagrams from one table of links to PEERS others, in turn;
//! - `circuits CIRCUITS COUNT` writes COUNT messages over CIRCUITS circuits of one node with another, in turn;
//! - `node HELD COUNT` hands COUNT frames to a node that holds HELD links and as many ends of circuits;
//! - `mail new|again|receipts HELD ROUNDS` has a store of up to HELD mails hear ROUNDS times as many of them, or their receipts.
#![tactic(auto)]

mod circuits;
mod links;
mod mail;
mod node;
mod words;

use radio_base::NoMemory;
use std::alloc::Global;
use std::io;
use std::process::ExitCode;
use words::{Job, job_of};

/// The exit status for words that name no job.
const USAGE: u8 = 2;

/// The exit status where memory ran out.
const NO_MEMORY: u8 = 8;

fn main(rt: HostRuntime) -> io::Result<ExitCode> {
    let alloc = rt.alloc();
    let words = words::given(&rt, alloc)?;
    let Some(job) = job_of(&words) else {
        eprintln!(rt;
            "usage: links 8|128 PEERS COUNT | circuits CIRCUITS COUNT | node HELD COUNT | mail new|again|receipts HELD ROUNDS"
        )?;
        return Ok(ExitCode::from(USAGE));
    };
    match done(alloc, &job) {
        Ok(came) => {
            println!(rt; "{came}")?;
            Ok(ExitCode::SUCCESS)
        }
        Err(_) => Ok(ExitCode::from(NO_MEMORY)),
    }
}

/// Does a job. How many datagrams or messages came.
fn done(alloc: Global, job: &Job) -> Result<u32, NoMemory> {
    match job {
        Job::Links {
            modulo128,
            peers,
            count,
        } => links::carried(alloc, *modulo128, *peers, *count),
        Job::Circuits { circuits, count } => circuits::carried(alloc, *circuits, *count),
        Job::Node { held, count } => node::taken(alloc, *held, *count),
        Job::Mail {
            hearing,
            held,
            rounds,
        } => mail::heard(alloc, *hearing, *held, *rounds),
    }
}
