//! The calls that stand at `Verdict`, with events at two nodes, N0AAA and N0BBB. The first ends of both are partners, and N0AAA's asks.
//! Called by `rt test`.
use ax_address::Call;
use circuit_l4::Pair;
use circuit_verdict::{Allowance, CircuitTold, Event, Late, LateWhy, Verdict};
use l3_datagram::{Datagram, DatagramHead, write_datagram};
use std::process::Abort;
use std::rt::HostRuntime;

const FIRST: Pair = Pair { index: 1, ident: 1 };

fn call_of(node: u64) -> Call {
    let text: &[u8] = if node == 1 { b"N0AAA" } else { b"N0BBB" };
    Call::read(text).unwrap_or_default()
}

/// The call of the other node.
fn partner_of(node: u64) -> Call {
    call_of(if node == 1 { 2 } else { 1 })
}

/// A datagram of a node to the other one.
fn datagram(node: u64, ttl: u8, transport: &[u8]) -> Datagram {
    let head = DatagramHead {
        origin: call_of(node),
        dest: partner_of(node),
        ttl,
    };
    write_datagram(&head, transport).unwrap_or_default()
}

/// A verdict, and the line of the event that it was told last.
#[derive(Drop)]
struct Trial {
    verdict: Verdict,
    line: u32,
}

impl Trial {
    /// This is told at the line after the last one.
    fn tell(&mut self, rt: &impl Abort, event: &Event<'_>) {
        let line = self.line.saturating_add(1);
        self.line = line;
        let heeded = self.verdict.heed(event, line);
        assert!(rt; heeded == Ok(()));
    }

    fn made(&mut self, rt: &impl Abort, node: u64, request: Option<&[u8]>) {
        let told = CircuitTold::Made {
            id: 1,
            pair: FIRST,
            partner: partner_of(node),
            request,
        };
        let own = call_of(node);
        self.tell(rt, &Event { node, own, told });
    }

    fn sent(&mut self, rt: &impl Abort, node: u64, datagram: &[u8]) {
        let told = CircuitTold::Sent {
            id: 1,
            number: None,
            datagram,
        };
        let own = call_of(node);
        self.tell(rt, &Event { node, own, told });
    }

    fn heeded(&mut self, rt: &impl Abort, node: u64, datagram: &[u8]) {
        let told = CircuitTold::Heeded { id: 1, datagram };
        let own = call_of(node);
        self.tell(rt, &Event { node, own, told });
    }
}

fn overtaken(line: u32) -> Option<Late> {
    let why = LateWhy::Overtaken;
    Some(Late { line, why })
}

/// What is heeded at `Verdict`, and the verdict before and behind it.
#[test]
fn a_verdict_in_use(rt: HostRuntime) {
    let mut trial = Trial {
        verdict: Verdict::new(rt.alloc(), Allowance::OfWindow),
        line: 0,
    };
    let request = datagram(1, 25, &[1, 1, 0, 0, 1]);
    let accept = datagram(2, 25, &[1, 1, 1, 1, 2, 4]);
    trial.made(&rt, 1, None);
    trial.sent(&rt, 1, request.as_slice());
    trial.made(&rt, 2, Some(request.as_slice()));
    assert_eq!(rt; trial.verdict.late(), None);
    trial.heeded(&rt, 1, accept.as_slice());
    assert_eq!(rt; trial.verdict.late(), overtaken(4));
}
