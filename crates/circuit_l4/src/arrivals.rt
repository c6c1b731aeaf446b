//! What an end does with a transport of the other end (NET/ROM, Appendix B, level 4). Called by `end`.
ghost use Rattle.std.specs.Prelude.{◌≡◌, ◌*◌, ◌≤◌, [], None};
ghost use Rattle.circuit_l4.specs.Table as table;

use crate::info::Info;
use crate::machine::Machine;
use crate::notice::EndNotice;
use crate::output::Output;
use crate::pair::Pair;
use crate::phase::EndPhase;
use crate::piece::piece_of;
use crate::transport::{Flags, Transport};
use radio_base::Millis;

/// The window that both ends take: that of the other end, at most the own one, and at least 1.
pub(crate) fn common_window(own: u8, other: u8) -> u8
    ensures { result ≡ table.common_window own other }
{
    other.min(own).max(1)
}

impl Machine {
    ghost use Rattle.circuit_l4.specs.Calls.{Does, IsIdle};
    ghost use Rattle.circuit_l4.specs.Table.{arrive};

    pub(crate) fn arrive(&mut self, transport: &Transport, now: Millis)
        requires { IsIdle self.old }
        ensures does { Does (arrive now transport.now) self.old self.new }
        ensures config { self.new.config ≡ self.old.config }
    {
        match self.phase {
            EndPhase::Connecting => self.arrive_connecting(transport, now),
            EndPhase::Up => self.arrive_up(transport, now),
            EndPhase::Closing => self.arrive_closing(transport),
            EndPhase::Ended => {}
        }
    }

    fn arrive_connecting(&mut self, transport: &Transport, now: Millis)
        requires { IsIdle self.old }
        ensures does { Does (table.arrive_connecting now transport.now) self.old self.new }
        ensures config { self.new.config ≡ self.old.config }
    {
        match transport {
            Transport::Accept { to: _, own, window } => self.on_accept(*own, *window, now),
            Transport::Refuse { to: _ } => self.end(EndNotice::Refused),
            _ => {}
        }
    }

    fn on_accept(&mut self, own: Pair, window: u8, now: Millis)
        requires { IsIdle self.old }
        ensures does { Does (table.on_accept now own window) self.old self.new }
        ensures config { self.new.config ≡ self.old.config }
    {
        self.to = own;
        self.window = common_window(self.config.window, window);
        self.phase = EndPhase::Up;
        self.answer_due = None;
        self.last_active = now.ms();
        self.note(EndNotice::Opened {
            window: self.window,
        });
        self.finish(now);
    }

    fn arrive_up(&mut self, transport: &Transport, now: Millis)
        requires { IsIdle self.old }
        ensures does { Does (table.arrive_up now transport.now) self.old self.new }
        ensures config { self.new.config ≡ self.old.config }
    {
        match transport {
            Transport::Info {
                to: _,
                tx,
                rx,
                flags,
                text,
            } => {
                let piece = piece_of(text.as_slice(), flags.more);
                let info = Info {
                    tx: *tx,
                    rx: *rx,
                    flags: *flags,
                    piece: &piece,
                };
                self.hear_info(&info, now);
            }
            Transport::InfoAck { to: _, rx, flags } => self.hear_info_ack(*rx, *flags, now),
            Transport::Disconnect { to: _ } => self.closed_by_partner(),
            _ => {}
        }
    }

    fn hear_info(&mut self, info: &Info<'_>, now: Millis)
        requires { IsIdle self.old }
        ensures does { Does
            (table.hear_info now info.now.tx info.now.rx info.now.flags info.now.piece.now) self.old self.new }
        ensures config { self.new.config ≡ self.old.config }
    {
        self.last_active = now.ms();
        self.on_info(info, now);
    }

    fn hear_info_ack(&mut self, rx: u8, flags: Flags, now: Millis)
        requires outs { self.old.outs.items ≡ [] }
        ensures does { Does (table.hear_info_ack now rx flags) self.old self.new }
        ensures config { self.new.config ≡ self.old.config }
    {
        self.last_active = now.ms();
        self.on_info_ack(rx, flags, now);
    }

    fn arrive_closing(&mut self, transport: &Transport)
        requires { IsIdle self.old }
        ensures does { Does (table.arrive_closing transport.now) self.old self.new }
        ensures config { self.new.config ≡ self.old.config }
    {
        match transport {
            Transport::Disconnect { to: _ } => self.closed_by_partner(),
            Transport::Disconnected { to: _ } => self.end(EndNotice::Closed),
            _ => {}
        }
    }

    fn closed_by_partner(&mut self)
        requires { IsIdle self.old }
        ensures does { Does table.closed_by_partner self.old self.new }
        ensures config { self.new.config ≡ self.old.config }
    {
        self.emit(Output::Disconnected { to: self.to });
        self.end(EndNotice::ClosedByPartner);
    }
}
