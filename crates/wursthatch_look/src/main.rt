//! The program for looking at what goes over the air: it hands what the system gives it to `look` of `look_cmd`.
#![tactic(auto)]

use look_cmd::{look, start};
use std::process::ExitCode;

fn main(rt: HostRuntime) -> ExitCode {
    start(&rt, rt.stdin(), rt.stdout(), rt.stderr(), |mut given| {
        let given = &mut given;
        look(
            given.alloc,
            &given.words,
            &mut given.source,
            &mut given.sink,
            &mut given.notes,
        )
    })
}
