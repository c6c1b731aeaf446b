//! Answers that wait for something that says more. Used by `station_members`.
ghost use Rattle.std.specs.Prelude.{◌≡◌, ◌<◌, [], length, position, IfSome, OnOk, OnErr};
ghost use Rattle.station_ports.specs.Holding as holding;

use crate::PortFrame;
use ax_address::Call;
use radio_base::{Moment, NoMemory};
use std::alloc::Global;
use std::marker::Model;

/// A frame that is held back.
#[derive(Debug, Drop)]
pub struct Held {
    /// To whom it is.
    pub peer: Call,
    pub frame: PortFrame,
    /// When the first of those came whose place it has taken.
    pub since: Moment,
}

/// The frames that a member holds back, in the order in which the first of those came whose place each has taken.
#[derive(Drop)]
pub struct HeldBack {
    held: Vec<Held>,
}

impl Model for HeldBack {
    ghost use Rattle.std.specs.Prelude.{List};
    ghost use Rattle.station_ports.specs.declared.held_back.Held.{Held};

    ghost Value = { List Held };

    ghost view = { λ h. h.held.items };
}

impl HeldBack {
    /// None yet.
    pub fn new(alloc: Global) -> HeldBack
        ensures { result ≡ [] }
    {
        HeldBack {
            held: Vec::new(alloc),
        }
    }

    /// Holds a frame back. It takes the place of the one that waits for the same peer and port, and that one's moment.
    pub fn hold(&mut self, peer: &Call, frame: PortFrame, now: Moment) -> Result<(), NoMemory>
        ensures ok { OnOk result (self.new ≡ holding.held_with peer.now frame now self.old) }
        ensures err { OnErr result (self.new ≡ self.old) }
    {
        match place_of(&self.held, peer, frame.port) {
            Some(at) => {
                let since = since_at(&self.held, at, now);
                self.held[at] = Held {
                    peer: *peer,
                    frame,
                    since,
                };
                Ok(())
            }
            None => {
                self.held.push(Held {
                    peer: *peer,
                    frame,
                    since: now,
                })?;
                Ok(())
            }
        }
    }

    /// How many wait.
    pub fn len(&self) -> usize
        ensures { result ≡ length self.now }
    {
        self.held.len()
    }

    /// What waits for this peer and port is let fall.
    pub fn drop_for(&mut self, peer: &Call, port: u8)
        ensures { self.new ≡ holding.without peer.now port self.old }
    {
        self.held.retain(|one| !is_for(peer, port, one));
    }

    /// The first frame that has waited so long, in milliseconds: it waits no longer.
    #[tactic(auto, using(crate::proofs::HeldFrames::slice_at))]
    pub fn next_due(&mut self, wait: u64, now: Moment) -> Option<PortFrame>
        ensures due { result ≡ holding.due_frame wait now self.old }
        ensures rest { self.new ≡ holding.behind_due wait now self.old }
    {
        let at = first_due(&self.held, wait, now)?;
        Some(self.held.remove(at).frame)
    }
}

/// Whether a frame waits for this peer on this port.
fn is_for(peer: &Call, port: u8, held: &Held) -> bool
    ensures { result ≡ holding.is_for peer.now port held.now }
{
    held.peer == *peer && held.frame.port == port
}

/// The moment of the frame at a place, or `now` where there is none.
fn since_at(held: &[Held], at: usize, now: Moment) -> Moment
    ensures { result ≡ holding.since_at at now held.now }
{
    match held.get(at) {
        Some(one) => one.since,
        None => now,
    }
}

fn place_of(held: &[Held], peer: &Call, port: u8) -> Option<usize>
    ensures place { result ≡ position (holding.is_for peer.now port) held.now }
    ensures within { IfSome result (λ at. at < length held.now) }
{
    held.iter().position(|one| is_for(peer, port, one))
}

fn first_due(held: &[Held], wait: u64, now: Moment) -> Option<usize>
    ensures place { result ≡ position (holding.is_due wait now) held.now }
    ensures within { IfSome result (λ at. at < length held.now) }
{
    held.iter()
        .position(|one| now.0.saturating_sub(one.since.0) >= wait)
}
