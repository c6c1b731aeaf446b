//! The program: it hands what the system gives it to `run` of `node_cmd`.
#![tactic(auto)]

use node_cmd::{Ran, Status, run, start};
use std::process::ExitCode;

fn main(rt: HostRuntime) -> ExitCode {
    start(&rt, rt.stdin(), rt.stdout(), rt.stderr(), |mut given| {
        let given = &mut given;
        // What ran is left as it stands: the process ends here, and its memory goes back at once.
        let Ok(ran) = Box::new(given.alloc, Ran::Nothing) else {
            return Status::NoMemory;
        };
        run(
            given.alloc,
            &given.words,
            &mut given.source,
            &mut given.sink,
            &mut given.notes,
            &mut given.clock,
            Box::leak(ran),
        )
    })
}
