//! One end of a circuit: its public calls. Called by `circuit_table` and the replay.
ghost use Rattle.std.specs.Prelude.{◌≡◌, ◌↔◌, ◌≤◌, ◌+◌, ◌*◌, ◌^◌, min, drop, slice_get, nat_lt, length, None, IfOk, OnOk, OnErr, IsOk, IsTrue};
ghost use Rattle.circuit_l4.specs.State.{State, inbox};
ghost use Rattle.circuit_l4.specs.Table as table;
ghost use Rattle.circuit_l4.specs.Opening as opening;
ghost use Rattle.circuit_l4.specs.Opening.{IsConfig};
ghost use Rattle.circuit_l4.specs.Standing.{IsDrained, Stands, StandsFor, kept, share};
ghost use Rattle.circuit_l4.specs.Halves.{first_or};

use crate::arrivals::common_window;
use crate::beginning::Beginning;
use crate::config::EndConfig;
use crate::facts::EndFacts;
use crate::machine::Machine;
use crate::notice::EndNotice;
use crate::output::Output;
use crate::pair::Pair;
use crate::phase::EndPhase;
use crate::refusal::WriteRefusal;
use crate::role::Role;
use crate::transport::Transport;
use ax_address::Call;
use l3_datagram::Message;
use radio_base::{Millis, Moment, NoMemory};
use std::alloc::Global;
use std::marker::Model;

/// One end of a circuit (NET/ROM, Appendix B, level 4): a pure machine, which reads no clock and knows no carrier. Its calls are of three
/// kinds.
///
/// - Inputs, each with its moment in milliseconds: `write`, `close` and `take` of the user, `arrive` of a transport of the other end, `tick`
///   of time. They want `drained()`.
/// - Outputs: `next_out` and `notice`. After `requester`, `responder` and each input both are fetched until they answer None.
/// - Looks, which change nothing: `may_write`, `has_message`, `facts`, `drained`.
///
/// `tick` is called about once a second, since no call tells when something is due. `requester` and `responder` take all the memory that an
/// end needs. What each input does is one row of the table in `specs/Table.antt`, and the phases are drawn at `EndPhase`.
///
/// In use (`circuit_l4_tests`, `an_end_in_use`):
///
/// ```text
/// let mut end = End::requester(alloc, pair, user, node, config, now)?;
/// let request = end.next_out(); // a Request for the other end
/// assert!(rt; end.drained());
/// end.arrive(&accept, now);
/// let told = end.notice(); // Opened, with the window
/// assert!(rt; end.drained());
/// let answer = end.write(&message, now); // Ok
/// let text = end.next_out(); // an Info with the message, and the number of its fragment
/// assert!(rt; end.drained());
/// end.close(now); // a Disconnect follows once the message is acknowledged
/// ```
#[derive(Drop)]
pub struct End {
    machine: Machine,
}

impl Model for End {
    ghost use Rattle.circuit_l4.specs.Standing.{EndView};

    ghost Value = { EndView };

    ghost use Rattle.circuit_l4.specs.Standing.{view_of};

    ghost view = { λ e. view_of e.machine };
}

impl End {
    /// An end that asks for a circuit, for a user at a node. It takes all the memory that it will ever need.
    pub fn requester(
        alloc: Global,
        pair: Pair,
        user: Call,
        node: Call,
        config: EndConfig,
        now: Moment,
    ) -> Result<End, NoMemory>
        requires { IsConfig config }
        ensures opening { IfOk result (λ end. Stands end
            (opening.requesting pair user node config (min now.0 (2 ^ 62)))) }
    {
        let now = Millis::of(now);
        let beginning = Beginning {
            role: Role::Requester { user, node },
            pair,
            to: Pair { index: 0, ident: 0 },
            phase: EndPhase::Connecting,
            window: config.window,
        };
        let mut machine = Machine::new(alloc, beginning, config, now)?;
        machine.wait(now);
        machine.ask();
        Ok(End { machine })
    }

    /// An end that was asked for a circuit by the end with the pair `partner`, and accepts. It takes all the memory that it
    /// will ever need.
    pub fn responder(
        alloc: Global,
        pair: Pair,
        partner: Pair,
        proposed: u8,
        config: EndConfig,
        now: Moment,
    ) -> Result<End, NoMemory>
        requires { IsConfig config }
        ensures opening { IfOk result (λ end. Stands end
            (opening.responding pair partner proposed config (min now.0 (2 ^ 62)))) }
    {
        let window = common_window(config.window, proposed);
        let beginning = Beginning {
            role: Role::Responder,
            pair,
            to: partner,
            phase: EndPhase::Up,
            window,
        };
        let mut machine = Machine::new(alloc, beginning, config, Millis::of(now))?;
        machine.emit(Output::Accept {
            to: partner,
            own: pair,
            window,
        });
        machine.note(EndNotice::Opened { window });
        Ok(End { machine })
    }

    /// Writes a message for the other end.
    ///
    /// Each refusal comes exactly where it says, in the order in which they stand.
    /// After a refusal nothing is changed.
    pub fn write(&mut self, message: &[u8], now: Moment) -> Result<(), WriteRefusal>
        requires { IsDrained self.old }
        ensures answer { (s : State) → StandsFor self.old s → result ≡ table.write_answer s message.now }
        ensures does { OnOk result ((s : State) → StandsFor self.old s
            → Stands self.new (table.step s (table.Write message.now) now.0)) }
        ensures err { OnErr result (self.new ≡ self.old) }
        ensures few { length self.new.outs ≤ 2 * self.old.config.window + 2 }
        ensures kept { kept self.new ≤ share self.new.config.window }
        ensures config { self.new.config ≡ self.old.config }
    {
        self.machine.write(message, Millis::of(now))
    }

    /// What `write` would answer, at any moment.
    pub fn may_write(&self, message: &[u8]) -> Result<(), WriteRefusal>
        ensures { (s : State) → StandsFor self.now s → result ≡ table.write_answer s message.now }
    {
        self.machine.write_answer(message)
    }

    /// Closes the circuit once all that was written is acknowledged.
    pub fn close(&mut self, now: Moment)
        requires { IsDrained self.old }
        ensures does { (s : State) → StandsFor self.old s → Stands self.new (table.step s table.Close now.0) }
        ensures few { length self.new.outs ≤ 2 * self.old.config.window + 2 }
        ensures kept { kept self.new ≤ share self.new.config.window }
        ensures config { self.new.config ≡ self.old.config }
    {
        self.machine.close(Millis::of(now));
    }

    /// Takes in what the other end has sent.
    pub fn arrive(&mut self, transport: &Transport, now: Moment)
        requires { IsDrained self.old }
        ensures does { (s : State) → StandsFor self.old s
            → Stands self.new (table.step s (table.Arrive transport.now) now.0) }
        ensures few { length self.new.outs ≤ 2 * self.old.config.window + 2 }
        ensures kept { kept self.new ≤ share self.new.config.window }
        ensures most { length self.new.outs ≤ 256 }
        ensures config { self.new.config ≡ self.old.config }
    {
        self.machine.arrive(transport, Millis::of(now));
    }

    /// Time has passed.
    pub fn tick(&mut self, now: Moment)
        requires { IsDrained self.old }
        ensures does { (s : State) → StandsFor self.old s → Stands self.new (table.step s table.Tick now.0) }
        ensures few { length self.new.outs ≤ 2 * self.old.config.window + 2 }
        ensures kept { kept self.new ≤ share self.new.config.window }
        ensures config { self.new.config ≡ self.old.config }
    {
        self.machine.tick(Millis::of(now));
    }

    /// Takes the first message that has come; false where none waits, and `out` is as it was then. What it does is the
    /// same at every moment.
    pub fn take(&mut self, out: &mut Message, now: Moment) -> bool
        requires { IsDrained self.old }
        ensures does { (s : State) → StandsFor self.old s → Stands self.new (table.step s table.Take now.0) }
        ensures message { (s : State) → StandsFor self.old s
            → out.new.items ≡ first_or out.old.items (inbox s.receiving) }
        ensures answer { (s : State) → StandsFor self.old s → result ≡ nat_lt 0 (length (inbox s.receiving)) }
        ensures few { length self.new.outs ≤ 2 * self.old.config.window + 2 }
        ensures kept { kept self.new ≤ share self.new.config.window }
        ensures config { self.new.config ≡ self.old.config }
    {
        self.machine.take(out)
    }

    /// Whether a message waits to be taken: what `take` would answer.
    pub fn has_message(&self) -> bool
        ensures { (s : State) → StandsFor self.now s → result ≡ nat_lt 0 (length (inbox s.receiving)) }
    {
        self.machine.incoming.has_message()
    }

    /// The next transport that waits to be sent, with the number of the fragment that it carries.
    pub fn next_out(&mut self) -> Option<(Transport, Option<u64>)>
        ensures value { result ≡ slice_get self.old.outs 0 }
        ensures rest { self.new ≡ record self.old { outs = drop 1 self.old.outs } }
    {
        self.machine.next_out()
    }

    /// The next notice.
    pub fn notice(&mut self) -> Option<EndNotice>
        ensures value { result ≡ self.old.notice }
        ensures rest { self.new ≡ record self.old { notice = None } }
    {
        self.machine.notice.take()
    }

    /// The phase, the window and the counts as they stand.
    pub fn facts(&self) -> EndFacts
        ensures { (s : State) → StandsFor self.now s → result ≡ opening.facts_of s }
    {
        EndFacts {
            phase: self.machine.phase,
            window: self.machine.window,
            wrote: self.machine.outgoing.wrote(),
            received: self.machine.incoming.received(),
            acked: self.machine.outgoing.acked(),
            waiting: self.machine.incoming.waiting(),
            queued: self.machine.outgoing.queued(),
        }
    }

    /// Whether no output and no notice waits.
    pub fn drained(&self) -> bool
        ensures { IsTrue result ↔ IsDrained self.now }
    {
        self.machine.outs.is_empty() && self.machine.notice.is_none()
    }
}
