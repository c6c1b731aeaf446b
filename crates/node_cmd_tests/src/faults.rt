//! Reads and writes that fail, each of the first eight in turn, and a file that ends after any of its bytes. Called by `rt test`.
use crate::runs::{Case, check, frames_of, replay_of};
use node_cmd::Status;

/// Two nodes open a circuit, carry one message and close it.
const CIRCUIT: &[u8] = b"node 1 N0AAA ANODE
node 2 N0BBB BNODE
channel 1 2
set 1 links 0
set 2 links 0
heard 1 N0BBB BNODE
heard 2 N0AAA ANODE
open 1 N0BBB
flow 10
say 1 1 hello
flow 10
take 2 1
close 1 1
flow 10
";

const CIRCUIT_REPORT: &[u8] = b"air 1 1 N0AAA>N0BBB cmd UI pf=0 pid=CF len=35
event 2 1 opened N0AAA window 4
air 2 2 N0BBB>N0AAA cmd UI pf=0 pid=CF len=21
event 1 1 opened N0BBB window 4
air 3 1 N0AAA>N0BBB cmd UI pf=0 pid=CF len=25
air 4 2 N0BBB>N0AAA cmd UI pf=0 pid=CF len=20
took 2 1 5 hello
air 5 1 N0AAA>N0BBB cmd UI pf=0 pid=CF len=20
event 2 1 closed by partner
air 6 2 N0BBB>N0AAA cmd UI pf=0 pid=CF len=20
event 1 1 closed
table 1 N0AAA ANODE
route N0BBB BNODE N0BBB 192 6
end 1 1 N0BBB ended wrote=1 received=0 acked=1
table 2 N0BBB BNODE
route N0AAA ANODE N0AAA 192 6
end 2 1 N0AAA ended wrote=0 received=1 acked=0
verdict done
";

/// The most bytes that move at a time, so that the file has ten reads and its report 31 writes.
const CIRCUIT_PIECE: usize = 20;

/// Two KISS frames, the first of which ends at byte 7; neither holds an address.
const STREAM: &[u8] = b"\xC0\x00\x41\xDB\xDC\x42\xC0\xC0\xC0\x00\x43\xC0";

const STREAM_LINES: &[u8] = b"port=0 bad call 0\nport=0 bad call 0\n";

/// How many bytes the first of these lines has.
const FIRST_LINE: usize = 18;

#[test]
fn each_of_the_first_eight_reads_may_fail(rt: HostRuntime) {
    for number in 1..=8u64 {
        let case = Case {
            piece: CIRCUIT_PIECE,
            failing_reads: &[number],
            ..replay_of(CIRCUIT)
        };
        check(
            &rt,
            rt.alloc(),
            &case,
            Status::ReadFault,
            b"",
            b"read fault\n",
        );

        let case = Case {
            piece: 1,
            failing_reads: &[number],
            ..frames_of(STREAM)
        };
        let listed = if number == 8 { FIRST_LINE } else { 0 };
        let written = &STREAM_LINES[..listed];
        check(
            &rt,
            rt.alloc(),
            &case,
            Status::ReadFault,
            written,
            b"read fault\n",
        );
    }
}

#[test]
fn each_of_the_first_eight_writes_may_fail(rt: HostRuntime) {
    for number in 1..=8u64 {
        let before = number as usize - 1;
        let case = Case {
            piece: CIRCUIT_PIECE,
            failing_writes: &[number],
            ..replay_of(CIRCUIT)
        };
        let written = &CIRCUIT_REPORT[..CIRCUIT_PIECE * before];
        check(&rt, rt.alloc(), &case, Status::WriteFault, written, b"");

        let case = Case {
            piece: 1,
            failing_writes: &[number],
            ..frames_of(STREAM)
        };
        check(
            &rt,
            rt.alloc(),
            &case,
            Status::WriteFault,
            &STREAM_LINES[..before],
            b"",
        );
    }
}

#[test]
fn without_a_fault_all_is_written(rt: HostRuntime) {
    let cases = [
        (
            Case {
                piece: CIRCUIT_PIECE,
                ..replay_of(CIRCUIT)
            },
            CIRCUIT_REPORT,
        ),
        (frames_of(STREAM), STREAM_LINES),
    ];
    for (case, written) in &cases {
        check(&rt, rt.alloc(), case, Status::Done, written, b"");
    }
}
