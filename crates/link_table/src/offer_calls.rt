//! Datagrams that are offered to the links of a node (NET/ROM, Appendix B). Called by `table`.
ghost use Rattle.std.specs.Prelude.{◌≡◌, ◌≤◌, ◌<◌, ℕ, None, Some, OnOk, IfOk, IsErrOf, if◌then◌else◌, length, is_some};
ghost use Rattle.std.specs.Map.{lookup};
ghost use Rattle.std.specs.Option.{unwrap_or};
ghost use Rattle.ax_address.specs.Callsign.{same_call};
ghost use Rattle.ax_link.specs.Table as table;
ghost use Rattle.l3_datagram.specs.declared.carrier.Offered.TheVariants.{Dropped};
ghost use Rattle.link_table.specs.declared.open_refusal.OpenRefusal.TheVariants as open_refusals;
ghost use Rattle.link_table.specs.Works as works;
ghost use Rattle.link_table.specs.Calls as calls;

use crate::held_links::HeldLinks;
use crate::offers::pack;
use crate::pending::put;
use crate::route::{LinkRoute, copy_of};
use crate::{MAX_LINKS, MAX_ORIGINATED, OpenRefusal};
use ax_address::{Call, Path};
use ax_frame::Control;
use l3_datagram::{Datagram, Offered};
use radio_base::{M8, Moment, NETROM_PID, NoMemory};

impl HeldLinks {
    ghost use Rattle.link_table.specs.Table.{Table};
    ghost use Rattle.link_table.specs.Standing.{CoreGoes, CoreStands, Rests};

    fn offer_ui(&mut self, to: &Call, datagram: &Datagram) -> Result<(), NoMemory>
        ensures goes { OnOk result (CoreGoes (calls.offer_ui to.now datagram.now) self.old self.new) }
        ensures links { self.new.links ≡ self.old.links }
        ensures waiting { self.new.pending.waiting ≡ self.old.pending.waiting }
        ensures lost { self.new.pending.lost ≡ self.old.pending.lost }
    {
        let route = LinkRoute {
            own: self.own,
            peer: *to,
            path: self.path_to(to),
        };
        put::<M8>(
            &mut self.pending.frames,
            &route.head(true),
            &Control::Ui { pf: false },
            Some(NETROM_PID),
            datagram.as_slice(),
        )
    }

    fn set_up_link(&mut self, to: &Call, now: Moment) -> Result<(), NoMemory>
        requires { Rests self.old }
        ensures rests { OnOk result (Rests self.new) }
        ensures goes { OnOk result (CoreGoes
            (λ t. calls.at_link to.now (works.step_link t.own table.Set_up now.0) t) self.old self.new) }
        ensures waiting { self.new.pending.waiting ≡ self.old.pending.waiting }
        ensures lost { self.new.pending.lost ≡ self.old.pending.lost }
    {
        match self.links.get_mut(to) {
            Some(entry) => {
                entry.set_up(&mut self.pending.frames, now)?;
                Ok(())
            }
            None => Ok(()),
        }
    }

    /// A link is made and set up.
    fn set_up_over(&mut self, peer: &Call, path: Path, now: Moment) -> Result<(), NoMemory>
        requires rests { Rests self.old }
        requires none { lookup (same_call peer.now) self.old.links.entries ≡ None }
        requires room { length self.old.links.entries < calls.most_links }
        ensures rests { OnOk result (Rests self.new) }
        ensures goes { OnOk result (CoreGoes (calls.set_up_over peer.now path now.0) self.old self.new) }
        ensures waiting { self.new.pending.waiting ≡ self.old.pending.waiting }
        ensures lost { self.new.pending.lost ≡ self.old.pending.lost }
    {
        let route = LinkRoute {
            own: self.own,
            peer: *peer,
            path,
        };
        self.make(self.modulus, route)?;
        self.set_up_link(peer, now)?;
        Ok(())
    }

    /// Sets a link up over these repeaters, or where there are none over those that are set for the peer.
    pub(crate) fn open(&mut self, peer: &Call, path: &Path, now: Moment) -> Result<(), NoMemory>
        requires rests { Rests self.old }
        requires none { lookup (same_call peer.now) self.old.links.entries ≡ None }
        requires short { length path.now.items ≤ calls.most_repeaters }
        requires room { length self.old.links.entries < calls.most_links }
        ensures rests { OnOk result (Rests self.new) }
        ensures goes { OnOk result (CoreGoes (calls.open_link peer.now path.now now.0) self.old self.new) }
    {
        let over = self.open_path(peer, path);
        self.set_up_over(peer, over, now)?;
        Ok(())
    }

    fn open_path(&self, peer: &Call, path: &Path) -> Path
        ensures { result ≡ calls.open_path peer.now path.now self.now.paths.entries }
    {
        if path.is_empty() {
            return self.path_to(peer);
        }
        copy_of(path)
    }

    /// Why a link isn't opened, where it isn't.
    pub(crate) fn open_answer(&self, peer: &Call, path: &Path) -> Result<(), OpenRefusal>
        ensures answer { (t : Table) → CoreStands self.now t → result ≡ calls.open_answer peer.now path.now t }
        ensures none { OnOk result (lookup (same_call peer.now) self.now.links.entries ≡ None) }
        ensures short { OnOk result (length path.now.items ≤ calls.most_repeaters) }
        ensures room { OnOk result (length self.now.links.entries < calls.most_links) }
        ensures memory { IsErrOf result open_refusals.NoMemory → ⊥ }
    {
        if self.links.contains_key(peer) {
            return Err(OpenRefusal::Standing);
        }
        if path.len() > MAX_ORIGINATED {
            return Err(OpenRefusal::TooLong);
        }
        if self.links.len() >= MAX_LINKS {
            return Err(OpenRefusal::Full);
        }
        Ok(())
    }

    /// Offers a datagram to the link with a peer. None where no link stands: then nothing is changed.
    fn send(
        &mut self,
        to: &Call,
        datagram: &Datagram,
        now: Moment,
    ) -> Result<Option<Offered>, NoMemory>
        requires { Rests self.old }
        ensures rests { OnOk result (Rests self.new) }
        ensures stood { IfOk result (λ answer. is_some answer
            ≡ is_some (lookup (same_call to.now) self.old.links.entries)) }
        ensures offers { IfOk result (λ answer. (t : Table) → CoreStands self.old t →
            (unwrap_or answer Dropped ≡ (calls.offer_standing to.now datagram.now now.0 t).answer)
            × CoreStands self.new (calls.offer_standing to.now datagram.now now.0 t).table) }
        ensures none { IfOk result (λ answer. answer ≡ None → self.new ≡ self.old) }
        ensures waiting { self.new.pending.waiting ≡ self.old.pending.waiting }
        ensures lost { self.new.pending.lost ≡ self.old.pending.lost }
    {
        let payload = pack(datagram);
        match self.links.get_mut(to) {
            Some(entry) => {
                let offered = entry.send(&mut self.pending.frames, &payload, now)?;
                Ok(Some(offered))
            }
            None => Ok(None),
        }
    }

    pub(crate) fn offer(
        &mut self,
        to: &Call,
        datagram: &Datagram,
        now: Moment,
    ) -> Result<Offered, NoMemory>
        requires { Rests self.old }
        ensures rests { OnOk result (Rests self.new) }
        ensures offers { IfOk result (λ answer. (t : Table) → CoreStands self.old t →
            (answer ≡ (calls.offer to.now datagram.now now.0 t).answer)
            × CoreStands self.new (calls.offer to.now datagram.now now.0 t).table) }
        ensures waiting { self.new.pending.waiting ≡ self.old.pending.waiting }
        ensures lost { self.new.pending.lost ≡ self.old.pending.lost }
    {
        if !self.by_links {
            self.offer_ui(to, datagram)?;
            return Ok(Offered::Taken);
        }
        let answer = self.send(to, datagram, now)?;
        if let Some(offered) = answer {
            return Ok(offered);
        }
        if self.links.len() >= MAX_LINKS {
            return Ok(Offered::Dropped);
        }
        let offered = self.offer_new(to, datagram, now)?;
        Ok(offered)
    }

    /// Offers a datagram to a link that is made for it.
    fn offer_new(
        &mut self,
        to: &Call,
        datagram: &Datagram,
        now: Moment,
    ) -> Result<Offered, NoMemory>
        requires rests { Rests self.old }
        requires none { lookup (same_call to.now) self.old.links.entries ≡ None }
        requires room { length self.old.links.entries < calls.most_links }
        ensures rests { OnOk result (Rests self.new) }
        ensures offers { IfOk result (λ answer. (t : Table) → CoreStands self.old t →
            (answer ≡ (calls.offer_standing to.now datagram.now now.0 (calls.set_up_link to.now now.0 t)).answer)
            × CoreStands self.new
            (calls.offer_standing to.now datagram.now now.0 (calls.set_up_link to.now now.0 t)).table) }
        ensures waiting { self.new.pending.waiting ≡ self.old.pending.waiting }
        ensures lost { self.new.pending.lost ≡ self.old.pending.lost }
    {
        let path = self.path_to(to);
        self.set_up_over(to, path, now)?;
        let offered = self.send(to, datagram, now)?;
        Ok(offered.unwrap_or(Offered::Dropped))
    }
}
