//! The command `life` over streams in memory. Called by `rt test`.
use crate::runs::{Case, check, replay_of};
use node_cmd::Status;

/// A set-up is repeated, since its answer is lost, and resets the other end.
const SCRIPT: &[u8] = b"setup a
arrive b
lose a
tick 3000
arrive b
arrive a
send a hi
arrive b
arrive a
take b
";

const REPORT: &[u8] = b"air a N0AAA>N0BBB cmd SABM pf=1
notice b opened
air b N0BBB>N0AAA res UA pf=1
air a N0AAA>N0BBB cmd SABM pf=1
notice b reset
air b N0BBB>N0AAA res UA pf=1
notice a opened
air a N0AAA>N0BBB cmd I ns=0 nr=0 pf=0 pid=F0 len=2
air b N0BBB>N0AAA res RR nr=1 pf=0
took b 2
epoch a 1 given=1 got=0 acked=1 partner=2
epoch b 1 given=0 got=0 acked=0 partner=0
epoch b 2 given=0 got=1 acked=0 partner=1
";

/// The most bytes that move at a time, so that the script has five reads and its report 23 writes.
const PIECE: usize = 20;

fn life_of(script: &[u8]) -> Case<'_> {
    Case {
        words: &["life", "modulo=8", "srej=0", "delay=1000"],
        piece: PIECE,
        ..replay_of(script)
    }
}

#[test]
fn a_fault_ends_a_life(rt: HostRuntime) {
    let case = Case {
        failing_reads: &[4],
        ..life_of(SCRIPT)
    };
    check(
        &rt,
        rt.alloc(),
        &case,
        Status::ReadFault,
        b"",
        b"read fault\n",
    );

    let case = Case {
        failing_writes: &[3],
        ..life_of(SCRIPT)
    };
    check(
        &rt,
        rt.alloc(),
        &case,
        Status::WriteFault,
        &REPORT[..2 * PIECE],
        b"",
    );
}
