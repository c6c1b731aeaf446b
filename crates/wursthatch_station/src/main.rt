//! The program `wursthatch-station`: it hands what the system gives it to `run` of `station_run`.
#![tactic(auto)]

use station_run::{run, start};
use std::process::ExitCode;

fn main(rt: HostRuntime) -> ExitCode {
    start(&rt, rt.stdin(), rt.stdout(), rt.stderr(), |mut given| {
        let given = &mut given;
        run(
            &rt,
            &given.words,
            &mut given.source,
            &mut given.sink,
            &mut given.notes,
            &mut given.clock,
        )
    })
}
