//! The links of a node, whether or not memory has run out: frames that come, ticks, and links that end (AX.25 2.2, section 6). Called by
//! `offer_calls`, `send_calls`, `table` and `text_calls`.
ghost use Rattle.std.specs.Prelude.{◌≡◌, ◌≤◌, ◌<◌, ℕ, List, None, Some, OnOk, IfOk, if◌then◌else◌, map, length, is_some, true, ◌∷◌, []};
ghost use Rattle.ax_link.specs.State.{count_end};
ghost use Rattle.indexmap.specs.IndexMap.{shift_remove_entry, keys};
ghost use Rattle.std.specs.Map.{keys_of, lookup};
ghost use Rattle.ax_frame.specs.Frames.{HasParts, view};
ghost use Rattle.ax_frame.specs.FrameText.{is_command};
ghost use Rattle.ax_address.specs.Callsign.{same_call};
ghost use Rattle.ax_link.specs.Table as table;
ghost use Rattle.link_table.specs.Works as works;
ghost use Rattle.link_table.specs.Calls as calls;
ghost use Rattle.radio_base.specs.Modulus.{modulus_size};

use crate::MAX_LINKS;
use crate::answers::{answer, refusal, way_back};
use crate::entry::LinkEntry;
use crate::pending::Pending;
use crate::route::{LinkRoute, copy_of};
use crate::work::{bring, note};
use arrayvec::ArrayVec;
use ax_address::{Call, Path};
use ax_frame::{Control, FrameView, is_command};
use ax_link::{LinkConfig, LinkNotice};
use indexmap::IndexMap;
use l3_datagram::MAX_DATAGRAM;
use radio_base::{LinkModulus, Moment, NETROM_PID, NoMemory};
use std::alloc::Global;

#[derive(Drop)]
pub(crate) struct HeldLinks {
    pub(crate) alloc: Global,
    pub(crate) own: Call,
    pub(crate) by_links: bool,
    /// The modulus of the links that the node itself sets up.
    pub(crate) modulus: LinkModulus,
    pub(crate) config: LinkConfig,
    pub(crate) links: IndexMap<Call, LinkEntry>,
    pub(crate) paths: IndexMap<Call, Path>,
    pub(crate) pending: Pending,
    ghost t1_fits: { config.t1 ≤ count_end },
    ghost t3_fits: { config.t3 ≤ count_end },
}

impl HeldLinks {
    ghost use Rattle.link_table.specs.Table.{Table, path_to};
    ghost use Rattle.link_table.specs.Standing.{CoreGoes, CoreStands, Rests, down_at, drop_if_down, modulus_at};

    /// The modulus of the link with a peer: none where no link stands.
    fn modulus_with(&self, peer: &Call) -> Option<LinkModulus>
        ensures { result ≡ modulus_at peer.now self.now.links.entries }
    {
        match self.links.get(peer) {
            Some(entry) => Some(entry.modulus()),
            None => None,
        }
    }

    /// A link that is Down leaves at once. The caller has had it in hand and says whether it is, so that a link that stays isn't
    /// looked up again.
    pub(crate) fn drop_if_down(&mut self, peer: &Call, down: bool)
        requires { down ≡ down_at peer.now self.old.links.entries }
        ensures rest { self.new ≡ record self.old { links = self.new.links } }
        ensures left { self.new.links.entries ≡ drop_if_down peer.now self.old.links.entries }
    {
        if down {
            let _ = self.remove(peer);
        }
    }

    /// Whether a link with this peer stands that the peer has set up.
    pub(crate) fn is_called(&self, peer: &Call) -> bool
        ensures { (t : Table) → CoreStands self.now t → result ≡ calls.is_called peer.now t }
    {
        match self.links.get(peer) {
            Some(entry) => entry.called,
            None => false,
        }
    }

    /// The repeaters to a peer.
    pub(crate) fn path_to(&self, peer: &Call) -> Path
        ensures { result ≡ path_to peer.now self.now.paths.entries }
    {
        match self.paths.get(peer) {
            Some(path) => copy_of(path),
            None => Path::new(),
        }
    }

    /// One link more, which is Down.
    pub(crate) fn make(&mut self, modulus: LinkModulus, route: LinkRoute) -> Result<(), NoMemory>
        requires rests { Rests self.old }
        requires none { lookup (same_call route.peer) self.old.links.entries ≡ None }
        requires room { length self.old.links.entries < calls.most_links }
        requires own { route.own ≡ self.old.own }
        ensures rests { OnOk result (Rests self.new) }
        ensures goes { OnOk result (CoreGoes (calls.made route.peer (modulus_size modulus) route.path) self.old self.new) }
        ensures same { OnOk result (self.new ≡ record self.old { links = self.new.links }) }
        ensures pending { self.new.pending ≡ self.old.pending }
    {
        let peer = route.peer;
        let entry = LinkEntry::new(self.alloc, modulus, self.config, route)?;
        self.links.insert(peer, entry)?;
        Ok(())
    }

    /// A link ends without a frame.
    pub(crate) fn end(&mut self, peer: &Call, notice: LinkNotice) -> Result<(), NoMemory>
        requires { Rests self.old }
        ensures rests { OnOk result (Rests self.new) }
        ensures goes { OnOk result (CoreGoes (calls.end peer.now (notice ∷ [])) self.old self.new) }
        ensures gone { OnOk result (lookup (same_call peer.now) self.new.links.entries ≡ None) }
        ensures same { OnOk result (self.new ≡ record self.old { links = self.new.links; pending = self.new.pending }) }
    {
        if self.remove(peer) {
            note(notice, peer, &mut self.pending)?;
        }
        Ok(())
    }

    /// Takes the link with a peer out, and says whether one stood.
    fn remove(&mut self, peer: &Call) -> bool
        ensures stood { result ≡ is_some (lookup (same_call peer.now) self.old.links.entries) }
        ensures rest { self.new ≡ record self.old { links = self.new.links } }
        ensures left { self.new.links.entries ≡ shift_remove_entry (same_call peer.now) self.old.links.entries }
        ensures gone { lookup (same_call peer.now) self.new.links.entries ≡ None }
    {
        self.links.shift_remove(peer).is_some()
    }

    /// Hands a frame to the link with its source, and says whether one stood.
    fn to_link(&mut self, frame: &FrameView<'_>, now: Moment) -> Result<bool, NoMemory>
        requires { Rests self.old }
        ensures rests { OnOk result (Rests self.new) }
        ensures goes { OnOk result (CoreGoes (calls.to_link (view frame.now) now.0) self.old self.new) }
        ensures stood { IfOk result (λ stood. stood
            ≡ is_some (lookup (same_call (calls.source (view frame.now))) self.old.links.entries)) }
    {
        let peer = frame.head.source.call;
        let down = match self.links.get_mut(&peer) {
            Some(entry) => {
                entry.arrive(&mut self.pending, frame, now)?;
                entry.is_down()
            }
            None => return Ok(false),
        };
        self.drop_if_down(&peer, down);
        Ok(true)
    }

    fn answer(
        &mut self,
        frame: &FrameView<'_>,
        control: &Control,
        info: &[u8],
    ) -> Result<(), NoMemory>
        requires { HasParts 8 control.now None info.now }
        ensures goes { OnOk result (CoreGoes (calls.answer (view frame.now) control.now info.now) self.old self.new) }
        ensures links { self.new.links ≡ self.old.links }
    {
        answer(&mut self.pending.frames, &self.own, frame, control, info)?;
        Ok(())
    }

    fn set_up_new(
        &mut self,
        modulus: LinkModulus,
        pf: bool,
        frame: &FrameView<'_>,
        now: Moment,
    ) -> Result<(), NoMemory>
        requires rests { Rests self.old }
        requires none { lookup (same_call (calls.source (view frame.now))) self.old.links.entries ≡ None }
        ensures rests { OnOk result (Rests self.new) }
        ensures goes { OnOk result (CoreGoes
            (calls.set_up_new (modulus_size modulus) pf (view frame.now) now.0) self.old self.new) }
    {
        if self.links.len() >= MAX_LINKS {
            self.answer(frame, &Control::Dm { pf }, &[])?;
            return Ok(());
        }
        let route = way_back(&self.own, frame);
        self.make(modulus, route)?;
        self.to_link(frame, now)?;
        Ok(())
    }

    fn set_up(
        &mut self,
        modulus: LinkModulus,
        pf: bool,
        frame: &FrameView<'_>,
        now: Moment,
    ) -> Result<(), NoMemory>
        requires { Rests self.old }
        ensures rests { OnOk result (Rests self.new) }
        ensures goes { OnOk result (CoreGoes (calls.set_up (modulus_size modulus) pf (view frame.now) now.0) self.old self.new) }
    {
        match self.modulus_with(&frame.head.source.call) {
            None => {
                self.set_up_new(modulus, pf, frame, now)?;
                Ok(())
            }
            Some(of_link) => {
                if of_link == modulus {
                    self.to_link(frame, now)?;
                    return Ok(());
                }
                self.end(&frame.head.source.call, LinkNotice::Closed)?;
                self.set_up_new(modulus, pf, frame, now)?;
                Ok(())
            }
        }
    }

    fn no_set_up(
        &mut self,
        command: bool,
        frame: &FrameView<'_>,
        now: Moment,
    ) -> Result<(), NoMemory>
        requires rests { Rests self.old }
        requires command { command ≡ is_command frame.now.head }
        ensures rests { OnOk result (Rests self.new) }
        ensures goes { OnOk result (CoreGoes (calls.no_set_up (view frame.now) now.0) self.old self.new) }
    {
        let stood = self.to_link(frame, now)?;
        if stood {
            return Ok(());
        }
        if command {
            self.answer_down(frame)?;
        }
        Ok(())
    }

    /// Where no link stands, a command is answered as by a link that is Down.
    fn answer_down(&mut self, frame: &FrameView<'_>) -> Result<(), NoMemory>
        ensures goes { OnOk result (CoreGoes (calls.answer_down (view frame.now)) self.old self.new) }
        ensures links { self.new.links ≡ self.old.links }
    {
        match refusal(&frame.control) {
            Some(pf) => {
                self.answer(frame, &Control::Dm { pf }, &[])?;
                Ok(())
            }
            None => Ok(()),
        }
    }

    /// A datagram in a UI frame.
    fn ui(&mut self, frame: &FrameView<'_>) -> Result<(), NoMemory>
        ensures goes { OnOk result (CoreGoes (calls.ui (view frame.now) frame.now.pid) self.old self.new) }
        ensures links { self.new.links ≡ self.old.links }
    {
        if frame.pid == Some(NETROM_PID) && frame.info.len() <= MAX_DATAGRAM {
            bring(
                &frame.head.source.call,
                frame.info,
                &mut self.pending.waiting,
            )?;
        }
        Ok(())
    }

    /// Takes in a frame to this node.
    pub(crate) fn arrive(&mut self, frame: &FrameView<'_>, now: Moment) -> Result<(), NoMemory>
        requires { Rests self.old }
        ensures rests { OnOk result (Rests self.new) }
        ensures goes { OnOk result (CoreGoes (calls.arrive (view frame.now) now.0) self.old self.new) }
    {
        if is_command(&frame.head) {
            self.arrive_command(frame, now)?;
            return Ok(());
        }
        match frame.control {
            Control::Ui { .. } => self.ui(frame)?,
            _ => self.no_set_up(false, frame, now)?,
        }
        Ok(())
    }

    fn arrive_command(&mut self, frame: &FrameView<'_>, now: Moment) -> Result<(), NoMemory>
        requires rests { Rests self.old }
        requires command { is_command frame.now.head ≡ true }
        ensures rests { OnOk result (Rests self.new) }
        ensures goes { OnOk result (CoreGoes
            (calls.arrive_kind true frame.now.control (view frame.now) now.0) self.old self.new) }
    {
        match frame.control {
            Control::Ui { .. } => self.ui(frame)?,
            Control::Test { pf } => self.answer(frame, &Control::Test { pf }, frame.info)?,
            Control::Sabm { pf } => self.set_up(LinkModulus::Modulo8, pf, frame, now)?,
            Control::Sabme { pf } => self.set_up(LinkModulus::Modulo128, pf, frame, now)?,
            _ => self.no_set_up(true, frame, now)?,
        }
        Ok(())
    }

    /// The peers, in the order in which their links were made.
    pub(crate) fn peers(&self) -> ArrayVec<Call, 64>
        requires { Rests self.now }
        ensures { result.items ≡ keys_of self.now.links.entries }
    {
        let mut peers = ArrayVec::new();
        let _ = peers.try_extend_from_slice(self.links.keys().as_slice());
        peers
    }

    fn tick_link(&mut self, peer: &Call, now: Moment) -> Result<(), NoMemory>
        requires { Rests self.old }
        ensures rests { OnOk result (Rests self.new) }
        ensures goes { OnOk result (CoreGoes
            (λ t. calls.at_link peer.now (works.step_link t.own table.Tick now.0) t) self.old self.new) }
    {
        let down = match self.links.get_mut(peer) {
            Some(entry) => {
                entry.tick(&mut self.pending, now)?;
                entry.is_down()
            }
            None => return Ok(()),
        };
        self.drop_if_down(peer, down);
        Ok(())
    }

    pub(crate) fn tick(&mut self, now: Moment) -> Result<(), NoMemory>
        requires { Rests self.old }
        ensures rests { OnOk result (Rests self.new) }
        ensures goes { OnOk result (CoreGoes (calls.tick now.0) self.old self.new) }
    {
        let peers = self.peers();
        for peer in peers.as_slice() {
            self.tick_link(peer, now)?;
        }
        Ok(())
    }

    pub(crate) fn close(&mut self, peer: &Call, now: Moment) -> Result<(), NoMemory>
        requires { Rests self.old }
        ensures rests { OnOk result (Rests self.new) }
        ensures goes { OnOk result (CoreGoes (calls.close peer.now now.0) self.old self.new) }
    {
        let down = match self.links.get_mut(peer) {
            Some(entry) => {
                entry.close(&mut self.pending, now)?;
                entry.is_down()
            }
            None => return Ok(()),
        };
        self.drop_if_down(peer, down);
        Ok(())
    }

    pub(crate) fn set_path(&mut self, peer: &Call, path: &Path) -> Result<(), NoMemory>
        ensures goes { OnOk result (CoreGoes (calls.with_path peer.now path.now) self.old self.new) }
        ensures links { self.new.links ≡ self.old.links }
    {
        self.paths.insert(*peer, copy_of(path))?;
        Ok(())
    }
}
