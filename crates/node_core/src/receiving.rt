//! What comes in: KISS items, and the frames in them. Called by `feeding`.
ghost use Rattle.std.specs.Prelude.{◌≡◌, ◌≤◌, [], ◌∷◌, false, OnOk, length, Ok};
ghost use Rattle.ax_frame.specs.Frames.{BeginsWith, view, read_at};
ghost use Rattle.ax_frame.specs.Reading.{head_end};
ghost use Rattle.ax_frame.specs.declared.head.Head.{Head};
ghost use Rattle.digi_path.specs.Paths.{action};
ghost use Rattle.kiss_framing.specs.Feeding.{IsSmall};
ghost use Rattle.nodes_broadcast.specs.Nodes.{nodes_at};
ghost use Rattle.route_table.specs.Log.{broadcast};
ghost use Rattle.node_model.specs.Links as links;
ghost use Rattle.radio_base.specs.Modulus.{modulus_size};
ghost use Rattle.node_core.specs.Receiving as receiving;
ghost use Rattle.node_model.specs.States as states;
ghost use Rattle.node_model.specs.States.{Overflow, State};

use crate::NodeEntry;
use crate::broadcasts::{is_broadcast, is_to_nodes};
use crate::station::Station;
use ax_address::{Address, Alias, Call, Entry};
use ax_frame::{FrameView, Head, read_behind, read_head};
use digi_path::{DigiStep, set_h_bit, step};
use kiss_framing::KissItem;
use link_table::{Octets, Written};
use nodes_broadcast::{Nodes, read_nodes_into};
use radio_base::{LinkModulus, Moment, NoMemory};
use route_table::HeardRefusal;

impl Station {
    ghost use Rattle.node_core.specs.Going.{StationGoes, item_of};
    ghost use Rattle.node_core.specs.Standing.{Holds};

    /// Takes in a KISS item: a node takes data on port 0.
    pub(crate) fn take_item(&mut self, item: &KissItem<'_>, now: Moment) -> Result<(), NoMemory>
        requires { IsSmall item.now }
        ensures { OnOk result (StationGoes (receiving.take_item now.0 (item_of item.now)) self.old self.new) }
    {
        match item {
            KissItem::Frame {
                port: 0,
                command: 0,
                payload,
            } => self.take_octets(payload, now),
            _ => Ok(()),
        }
    }

    /// Takes in a frame, in octets. One that can't be read is dropped.
    fn take_octets(&mut self, octets: &[u8], now: Moment) -> Result<(), NoMemory>
        requires { length octets.now ≤ 1023 }
        ensures { OnOk result (StationGoes (receiving.take_octets now.0 octets.now) self.old self.new) }
    {
        match read_head(octets) {
            Ok((head, at)) => {
                self.take_from(head, at, octets, now)?;
                Ok(())
            }
            Err(_) => Ok(()),
        }
    }

    /// Takes in a frame by its addresses, which end at a place. One of this node itself is dropped. The head is handed on
    /// whole, since the frame keeps it.
    fn take_from(
        &mut self,
        head: Head,
        at: usize,
        octets: &[u8],
        now: Moment,
    ) -> Result<(), NoMemory>
        requires few { length octets.now ≤ 1023 }
        requires begins { BeginsWith octets.now head at }
        requires ends { head_end octets.now ≡ Ok at }
        ensures { OnOk result (StationGoes (receiving.take_from now.0 octets.now head) self.old self.new) }
    {
        let own = self.call();
        if head.source.call == own {
            return Ok(());
        }
        self.take_by_path(head, at, &own, octets, now)?;
        Ok(())
    }

    /// Takes in a frame of another station by its path.
    fn take_by_path(
        &mut self,
        head: Head,
        at: usize,
        own: &Call,
        octets: &[u8],
        now: Moment,
    ) -> Result<(), NoMemory>
        requires few { length octets.now ≤ 1023 }
        requires begins { BeginsWith octets.now head at }
        requires ends { head_end octets.now ≡ Ok at }
        ensures { OnOk result (StationGoes
            (receiving.take_by_path now.0 octets.now head (action head.path.items head.dest.call own.now))
            self.old self.new) }
    {
        match step(&head.path, &head.dest.call, own) {
            DigiStep::Repeat(_) => self.repeat(head.path.as_slice(), octets)?,
            DigiStep::NotYet => {}
            DigiStep::ForMe => self.take_heard(head, at, true, octets, now)?,
            DigiStep::Heard => self.overhear(head, at, octets, now)?,
        }
        Ok(())
    }

    /// Takes in a frame between other stations, of which only broadcasts are read on.
    fn overhear(
        &mut self,
        head: Head,
        at: usize,
        octets: &[u8],
        now: Moment,
    ) -> Result<(), NoMemory>
        requires begins { BeginsWith octets.now head at }
        requires ends { head_end octets.now ≡ Ok at }
        ensures { OnOk result (StationGoes
            (λ n. receiving.take_frame now.0 false (read_at (receiving.modulus_with head.source.call n) octets.now) n)
            self.old self.new) }
    {
        // By the laws of the spelling the frame has this head, and so goes to no node.
        ax_frame::laws::head_spelling();
        if !is_to_nodes(&head) {
            return Ok(());
        }
        self.take_heard(head, at, false, octets, now)?;
        Ok(())
    }

    /// Repeats a frame: the same octets, with the H bit of this node set.
    fn repeat(&mut self, path: &[Address], octets: &[u8]) -> Result<(), NoMemory>
        requires { length octets.now ≤ 1023 }
        ensures { OnOk result (StationGoes (states.put (receiving.repeated_frame path.now octets.now))
            self.old self.new) }
    {
        let mut repeated = octets.to_vec(self.alloc)?;
        set_h_bit(&mut repeated, path);
        self.put(Written {
            octets: Octets::from_vec(repeated),
            modulus: None,
        })?;
        Ok(())
    }

    /// Takes in a frame that no repeater has to repeat any more, by the modulus of the link with its source.
    fn take_heard(
        &mut self,
        head: Head,
        at: usize,
        mine: bool,
        octets: &[u8],
        now: Moment,
    ) -> Result<(), NoMemory>
        requires begins { BeginsWith octets.now head at }
        requires ends { head_end octets.now ≡ Ok at }
        ensures { OnOk result (StationGoes
            (λ n. receiving.take_frame now.0 mine (read_at (receiving.modulus_with head.source.call n) octets.now) n)
            self.old self.new) }
    {
        let modulus = self.modulus_with(&head.source.call);
        match read_behind(modulus, at, octets) {
            Ok(behind) => {
                let frame = FrameView {
                    head,
                    control: behind.control,
                    pid: behind.pid,
                    info: behind.info,
                };
                self.take_frame(&frame, mine, now)?;
                Ok(())
            }
            Err(_) => Ok(()),
        }
    }

    /// By which modulus a frame from a peer is read: that of the link with it, and modulo 8 where none stands.
    fn modulus_with(&self, peer: &Call) -> LinkModulus
        ensures { (n : State) → Holds self.now n → modulus_size result ≡ receiving.modulus_with peer.now n }
    {
        LinkModulus::extended_if(self.set.router().carrier().is_128(peer))
    }

    /// A broadcast is heard, and another frame to this node goes to its links.
    fn take_frame(&mut self, frame: &FrameView<'_>, mine: bool, now: Moment) -> Result<(), NoMemory>
        ensures { OnOk result (StationGoes (receiving.take_frame now.0 mine (Ok (view frame.now))) self.old self.new) }
    {
        if is_broadcast(frame) {
            self.take_broadcast(frame)?;
        } else if mine {
            self.arrive(frame, now)?;
        }
        Ok(())
    }

    /// Hands a frame to this node to its links.
    fn arrive(&mut self, frame: &FrameView<'_>, now: Moment) -> Result<(), NoMemory>
        ensures { OnOk result (StationGoes (states.at_links (links.arrive (view frame.now) now.0)) self.old self.new) }
    {
        self.set.router_mut().carrier_mut().arrive(frame, now)?;
        Ok(())
    }

    /// Hears a broadcast; one that can't be read is dropped.
    fn take_broadcast(&mut self, frame: &FrameView<'_>) -> Result<(), NoMemory>
        ensures { OnOk result (StationGoes (receiving.hear frame.now.head.source.call (nodes_at frame.now.info.now))
            self.old self.new) }
    {
        let mut nodes = Nodes::default();
        match read_nodes_into(&mut nodes, frame.info) {
            Ok(()) => {
                let source = &frame.head.source.call;
                self.hear(source, &nodes.alias, nodes.entries.as_slice())?;
                Ok(())
            }
            Err(_) => Ok(()),
        }
    }

    /// Takes in what a neighbour has broadcast, or tells that there is no room for it.
    fn hear(&mut self, source: &Call, alias: &Alias, reported: &[Entry]) -> Result<(), NoMemory>
        requires { length reported.now ≤ 11 }
        ensures { OnOk result (StationGoes (λ n. receiving.take_in
            (broadcast n.settings.call source.now alias.now (receiving.quality_to source.now n) reported.now) n)
            self.old self.new) }
    {
        let path_quality = self.quality_to(source);
        let table = self.set.router_mut().table_mut();
        match table.heard(source, alias, path_quality, reported) {
            Ok(()) => Ok(()),
            Err(HeardRefusal::TableFull { live, would_be }) => {
                self.tell_overflow(live, would_be)?;
                Ok(())
            }
            Err(HeardRefusal::NoMemory) => Err(NoMemory),
        }
    }

    /// Tells that a broadcast was not taken. It stands apart, so that one that is taken pays nothing for the entry.
    #[inline(never)]
    fn tell_overflow(&mut self, live: usize, would_be: usize) -> Result<(), NoMemory>
        ensures { OnOk result (StationGoes (states.enter (Overflow live would_be ∷ [])) self.old self.new) }
    {
        self.entries
            .push_back(NodeEntry::Overflow { live, would_be })?;
        Ok(())
    }
}
