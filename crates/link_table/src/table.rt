//! The table of links, and what it is to a router: a carrier of datagrams (AX.25 2.2, section 6; NET/ROM, Appendix B). Called by
//! `node_core`.
ghost use Rattle.std.specs.Prelude.{◌≡◌, ◌≤◌, ◌<◌, ◌↔◌, ℕ, List, [], ◌∷◌, Bool, true, false, None, Some, OnOk, OnErr, IfOk, IsOk, IsErr, IsErrOf, IsTrue, slice_get, drop, length};
ghost use Rattle.ax_link.specs.State.{count_end};
ghost use Rattle.l3_datagram.specs.Datagrams.{Collect, Fail, Offer};
ghost use Rattle.link_table.specs.Table.{Table};
ghost use Rattle.link_table.specs.Calls as calls;
ghost use Rattle.link_table.specs.Texts as texts;

use crate::held_links::HeldLinks;
use crate::pending::Pending;
use crate::{MAX_ORIGINATED, MAX_PATHS, OpenRefusal, PathRefusal, TextRefusal, Written, laws};
use ax_address::{Call, Path};
use ax_frame::FrameView;
use ax_link::{LinkConfig, LinkNotice};
use indexmap::IndexMap;
use l3_datagram::{Carrier, Datagram, Message, Offered};
use radio_base::{LinkModulus, Moment, NoMemory};
use std::alloc::Global;
use std::marker::Model;

/// A node's links by peer, and a carrier of datagrams (AX.25 2.2, section 6; NET/ROM, Appendix B): a pure machine, which reads no clock and
/// no stream. Its calls are of three kinds.
///
/// - Inputs, each but `set_path` and `break_link` with its moment in milliseconds: `offer` of a router, `open`, `send_text`, `take_text`,
///   `set_path`, `close` and `break_link` of the node, `arrive` of a frame to the node's own call, `tick` of time.
/// - Outputs: `next_out` and `notice`, and for a router `collect` and `failed`. After each input they are fetched, in any order, until they
///   answer None.
/// - Looks, which change nothing: `peers`, `link`, `link_path`, `is_128`, `is_called`, `texts`, `first_text`, `room`, `has_notices`,
///   `is_idle`.
///
/// `tick` is called about once a second, since no call tells when the next timer is due. Where `texts` names a peer, its text waits for
/// `take_text`, and holds back what came behind it over that link. Links and what waits take memory; once it has answered NoMemory it is
/// spent: it answers that ever after, and changes nothing any more. What each input does stands in `specs/Calls.antt`. What becomes of the
/// link with a peer, whose phases are drawn at `LinkPhase`:
///
/// ```text
///              offer, open / SABM(E), SABM(E) / UA,
/// +---------+  where fewer than 64 stand          +------+ --.  SABM(E) of the other modulus / UA:
/// | no link | ----------------------------------> | link | <-'  told Closed, and another link
/// |         | <---------------------------------- |      |
/// +---------+  Down: told Closed, Refused, Failed +------+
///              break_link: told Failed
/// ```
///
/// In use (`link_table_tests`, `a_table_in_use`):
///
/// ```text
/// let mut table = LinkTable::new(alloc, own, true, false, config)?;
/// let offered = table.offer(&peer, &datagram, now)?; // Taken
/// let set_up = table.next_out(); // a SABM for the peer, in octets
/// table.arrive(&accept, now)?; // its UA
/// let told = table.notice(); // the peer, and Opened
/// let sent = table.next_out(); // an I with the datagram
/// table.arrive(&answer, now)?; // an I of the peer
/// let came = table.collect(); // the peer, and its datagram
/// table.break_link(&peer)?;
/// let lost = table.failed(); // the peer
/// ```
#[derive(Drop)]
pub struct LinkTable {
    pub(crate) core: HeldLinks,
    pub(crate) spent: bool,
}

impl Model for LinkTable {
    ghost use Rattle.std.specs.Prelude.{◌≡◌, false};
    ghost use Rattle.link_table.specs.Standing.{TableView, Rests, shown};

    ghost Value = { TableView };

    ghost view = { λ t. shown t.core t.spent };

    ghost invariant = { λ t. t.spent ≡ false → Rests t.core };
}

impl LinkTable {
    ghost use Rattle.link_table.specs.Standing.{NotNoMemory, OpenNotNoMemory, TableGoes, TableStands, TextNotNoMemory, text_given};
    ghost use Rattle.radio_base.specs.Modulus.{extended_if, modulus_size};
    ghost use Rattle.link_table.specs.Table.{written};
    ghost use Rattle.link_table.specs.Kept.{KeepsOn};
    ghost use Rattle.ax_frame.specs.Frames.{view};
    ghost use Rattle.std.specs.Option.{option_map};
    ghost use Rattle.link_table.specs.declared.path_refusal.PathRefusal.TheVariants as refusals;
    ghost use Rattle.link_table.specs.declared.open_refusal.OpenRefusal.TheVariants as open_refusals;
    ghost use Rattle.link_table.specs.declared.text_refusal.TextRefusal.TheVariants as text_refusals;

    /// A table without links, of the node `own`. With `links`, datagrams go over links, else each in a UI frame; links that
    /// the node itself sets up are of modulo 128 where `modulo128` says so, else of modulo 8. The times of `config` are at
    /// most 2^62 ms.
    #[tactic(auto, unfolding(crate::specs::Standing::kept_size))]
    pub fn new(
        alloc: Global,
        own: Call,
        links: bool,
        modulo128: bool,
        config: LinkConfig,
    ) -> Result<LinkTable, NoMemory>
        requires t1 { config.t1 ≤ count_end }
        requires t3 { config.t3 ≤ count_end }
        ensures stands { IfOk result (λ table. TableStands table (calls.no_links own links
            (modulus_size (extended_if modulo128)) config)) }
        ensures ok { IsOk result }
    {
        Ok(LinkTable {
            core: HeldLinks {
                alloc,
                own,
                by_links: links,
                modulus: LinkModulus::extended_if(modulo128),
                config,
                links: IndexMap::new(alloc),
                paths: IndexMap::new(alloc),
                pending: Pending::new(alloc),
            },
            spent: false,
        })
    }

    /// Sets the repeaters over which the node reaches a peer, in the place of those before. It is refused, in this order:
    /// `TooLong` where there are more than two, `Full` where 16 other peers have some. A refusal but `NoMemory` changes nothing.
    pub fn set_path(&mut self, peer: &Call, path: &Path) -> Result<(), PathRefusal>
        ensures goes { OnOk result (TableGoes (calls.with_path peer.now path.now) self.old self.new) }
        ensures answer { NotNoMemory result → (t : Table) → TableStands self.old t
            → result ≡ calls.path_answer peer.now path.now t }
        ensures err { OnErr result (NotNoMemory result → self.new ≡ self.old) }
        ensures few { OnOk result (length self.new.links ≤ 64) }
        ensures kept { OnOk result (KeepsOn self.old self.new) }
        ensures memory { IsErrOf result refusals.NoMemory ↔ IsTrue self.new.spent }
        ensures spent { IsTrue self.old.spent → self.new ≡ self.old }
    {
        if self.spent {
            return Err(PathRefusal::NoMemory);
        }
        if path.len() > MAX_ORIGINATED {
            return Err(PathRefusal::TooLong);
        }
        if self.core.paths.len() >= MAX_PATHS && !self.core.paths.contains_key(peer) {
            return Err(PathRefusal::Full);
        }
        laws::kept();
        match self.core.set_path(peer, path) {
            Ok(()) => Ok(()),
            Err(NoMemory) => {
                self.spent = true;
                Err(PathRefusal::NoMemory)
            }
        }
    }

    /// Takes in a frame to this node, whatever it is. It has to be read by the modulus that `is_128` tells of its source.
    pub fn arrive(&mut self, frame: &FrameView<'_>, now: Moment) -> Result<(), NoMemory>
        ensures goes { OnOk result (TableGoes (calls.arrive (view frame.now) now.0) self.old self.new) }
        ensures few { OnOk result (length self.new.links ≤ 64) }
        ensures kept { OnOk result (KeepsOn self.old self.new) }
        ensures memory { IsErr result ↔ IsTrue self.new.spent }
        ensures spent { IsTrue self.old.spent → self.new ≡ self.old }
    {
        if self.spent {
            return Err(NoMemory);
        }
        laws::kept();
        let taken = self.core.arrive(frame, now);
        self.spent = taken.is_err();
        taken
    }

    /// Time has passed: each link looks at its timers, in the order in which the links were made.
    pub fn tick(&mut self, now: Moment) -> Result<(), NoMemory>
        ensures goes { OnOk result (TableGoes (calls.tick now.0) self.old self.new) }
        ensures few { OnOk result (length self.new.links ≤ 64) }
        ensures kept { OnOk result (KeepsOn self.old self.new) }
        ensures memory { IsErr result ↔ IsTrue self.new.spent }
        ensures spent { IsTrue self.old.spent → self.new ≡ self.old }
    {
        if self.spent {
            return Err(NoMemory);
        }
        laws::kept();
        let ticked = self.core.tick(now);
        self.spent = ticked.is_err();
        ticked
    }

    /// Sets a link up over these repeaters, or where there are none over those that `set_path` has set for the peer. The link keeps its
    /// repeaters, and what `set_path` has set stays. It is refused, in this order: `Standing` where a link with the peer stands,
    /// `TooLong` where there are more than two repeaters, `Full` where 64 links stand. A refusal but `NoMemory` changes nothing.
    pub fn open(&mut self, peer: &Call, path: &Path, now: Moment) -> Result<(), OpenRefusal>
        ensures goes { OnOk result (TableGoes (calls.open_link peer.now path.now now.0) self.old self.new) }
        ensures answer { OpenNotNoMemory result → (t : Table) → TableStands self.old t
            → result ≡ calls.open_answer peer.now path.now t }
        ensures err { OnErr result (OpenNotNoMemory result → self.new ≡ self.old) }
        ensures few { OnOk result (length self.new.links ≤ 64) }
        ensures kept { OnOk result (KeepsOn self.old self.new) }
        ensures memory { IsErrOf result open_refusals.NoMemory ↔ IsTrue self.new.spent }
        ensures spent { IsTrue self.old.spent → self.new ≡ self.old }
    {
        if self.spent {
            return Err(OpenRefusal::NoMemory);
        }
        if let Err(refusal) = self.core.open_answer(peer, path) {
            return Err(refusal);
        }
        laws::kept();
        match self.core.open(peer, path, now) {
            Ok(()) => Ok(()),
            Err(NoMemory) => {
                self.spent = true;
                Err(OpenRefusal::NoMemory)
            }
        }
    }

    /// Releases the link with a peer once all is acknowledged. Nothing where no link stands.
    pub fn close(&mut self, peer: &Call, now: Moment) -> Result<(), NoMemory>
        ensures goes { OnOk result (TableGoes (calls.close peer.now now.0) self.old self.new) }
        ensures few { OnOk result (length self.new.links ≤ 64) }
        ensures kept { OnOk result (KeepsOn self.old self.new) }
        ensures memory { IsErr result ↔ IsTrue self.new.spent }
        ensures spent { IsTrue self.old.spent → self.new ≡ self.old }
    {
        if self.spent {
            return Err(NoMemory);
        }
        laws::kept();
        let closed = self.core.close(peer, now);
        self.spent = closed.is_err();
        closed
    }

    /// The link with a peer is lost, and nothing is sent: it ends with Failed. Nothing where no link stands.
    pub fn break_link(&mut self, peer: &Call) -> Result<(), NoMemory>
        ensures goes { OnOk result (TableGoes (calls.break_link peer.now) self.old self.new) }
        ensures few { OnOk result (length self.new.links ≤ 64) }
        ensures kept { OnOk result (KeepsOn self.old self.new) }
        ensures memory { IsErr result ↔ IsTrue self.new.spent }
        ensures spent { IsTrue self.old.spent → self.new ≡ self.old }
    {
        if self.spent {
            return Err(NoMemory);
        }
        laws::kept();
        let ended = self.core.end(peer, LinkNotice::Failed);
        self.spent = ended.is_err();
        ended
    }

    /// Takes the text that waits at the link with a peer, and says whether one did. Where none did, and where memory runs out, `out`
    /// stays as it was.
    pub fn take_text(
        &mut self,
        peer: &Call,
        out: &mut Message,
        now: Moment,
    ) -> Result<bool, NoMemory>
        ensures goes { OnOk result (TableGoes (texts.take_text peer.now now.0) self.old self.new) }
        ensures answer { IfOk result (λ taken. (t : Table) → TableStands self.old t
            → text_given taken out.new.items ≡ texts.text_with peer.now t) }
        ensures out { IfOk result (λ taken. taken ≡ false → out.new ≡ out.old) }
        ensures err { OnErr result (out.new ≡ out.old) }
        ensures few { OnOk result (length self.new.links ≤ 64) }
        ensures kept { OnOk result (KeepsOn self.old self.new) }
        ensures memory { IsErr result ↔ IsTrue self.new.spent }
        ensures spent { IsTrue self.old.spent → self.new ≡ self.old }
    {
        if self.spent {
            return Err(NoMemory);
        }
        laws::kept();
        if !self.core.text_waits(peer) {
            return Ok(false);
        }
        let taken = self.core.take_text(peer, out, now);
        self.spent = taken.is_err();
        taken?;
        Ok(true)
    }

    /// Sends a text over the link with a peer, which has to stand: in one payload where it has at most 256 bytes; else in segments
    /// over a link of modulo 128, and in pieces of 256 bytes over one of modulo 8. An empty text sends nothing. It is refused,
    /// in this order: `NoLink`, `TooLong`, `Full`. A refusal but `NoMemory` changes nothing.
    pub fn send_text(&mut self, peer: &Call, text: &[u8], now: Moment) -> Result<(), TextRefusal>
        ensures goes { OnOk result (TableGoes (texts.send_text peer.now text.now now.0) self.old self.new) }
        ensures answer { TextNotNoMemory result → (t : Table) → TableStands self.old t
            → result ≡ texts.text_answer peer.now text.now t }
        ensures err { OnErr result (TextNotNoMemory result → self.new ≡ self.old) }
        ensures few { OnOk result (length self.new.links ≤ 64) }
        ensures kept { OnOk result (KeepsOn self.old self.new) }
        ensures memory { IsErrOf result text_refusals.NoMemory ↔ IsTrue self.new.spent }
        ensures spent { IsTrue self.old.spent → self.new ≡ self.old }
    {
        if self.spent {
            return Err(TextRefusal::NoMemory);
        }
        if let Err(refusal) = self.core.text_answer(peer, text) {
            return Err(refusal);
        }
        laws::kept();
        match self.core.send_text(peer, text, now) {
            Ok(()) => Ok(()),
            Err(NoMemory) => {
                self.spent = true;
                Err(TextRefusal::NoMemory)
            }
        }
    }

    /// The next frame that waits to be sent, and how its octets were written: the oldest one. None where no frame waits.
    pub fn next_out(&mut self) -> Option<Written>
        ensures answer { (t : Table) → TableStands self.old t
            → result ≡ option_map written (slice_get t.pending.frames 0) }
        ensures rest { TableGoes calls.fetch self.old self.new }
        ensures first { result ≡ slice_get self.old.frames 0 }
        ensures left { self.new ≡ record self.old { frames = drop 1 self.old.frames } }
    {
        self.core.pending.frames.pop_front()
    }

    /// The next notice, the oldest one, with the peer of its link. None where none waits.
    pub fn notice(&mut self) -> Option<(Call, LinkNotice)>
        ensures answer { (t : Table) → TableStands self.old t → result ≡ slice_get t.pending.notices 0 }
        ensures rest { TableGoes calls.notice self.old self.new }
        ensures first { result ≡ slice_get self.old.notices 0 }
        ensures left { self.new ≡ record self.old { notices = drop 1 self.old.notices } }
    {
        self.core.pending.notices.pop_front()
    }
}

impl Carrier for LinkTable {
    ghost use Rattle.link_table.specs.Kept.{KeepsOn};
    ghost use Rattle.link_table.specs.Standing.{Made, more_made};

    ghost waiting = { λ k. k.waiting };

    ghost lost = { λ k. k.lost };

    ghost made = { Made };

    fn offer(&mut self, to: &Call, datagram: &Datagram, now: Moment) -> Result<Offered, NoMemory>
        ensures few { OnOk result (length self.new.links ≤ 64) }
        ensures kept { OnOk result (KeepsOn self.old self.new) }
        ensures memory { IsErr result ↔ IsTrue self.new.spent }
        ensures spent { IsTrue self.old.spent → self.new ≡ self.old }

        // What each carrier says.
        ensures made { IfOk result (λ answer. Made self.old (Offer to.now datagram.now now.0 answer ∷ []) self.new) }
        ensures waiting { self.new.waiting ≡ self.old.waiting }
        ensures lost { self.new.lost ≡ self.old.lost }
    {
        if self.spent {
            return Err(NoMemory);
        }
        laws::kept();
        let offered = self.core.offer(to, datagram, now);
        self.spent = offered.is_err();
        offered
    }

    fn collect(&mut self) -> Option<(Call, Datagram)>
        ensures left { self.new ≡ record self.old { waiting = drop 1 self.old.waiting } }

        // What each carrier says.
        ensures made { Made self.old (Collect result ∷ []) self.new }
        ensures answer { result ≡ slice_get self.old.waiting 0 }
        ensures waiting { self.new.waiting ≡ drop 1 self.old.waiting }
        ensures lost { self.new.lost ≡ self.old.lost }
    {
        self.core.pending.waiting.pop_front()
    }

    fn failed(&mut self) -> Option<Call>
        ensures left { self.new ≡ record self.old { lost = drop 1 self.old.lost } }

        // What each carrier says.
        ensures made { Made self.old (Fail result ∷ []) self.new }
        ensures answer { result ≡ slice_get self.old.lost 0 }
        ensures lost { self.new.lost ≡ drop 1 self.old.lost }
        ensures waiting { self.new.waiting ≡ self.old.waiting }
    {
        self.core.pending.lost.pop_front()
    }

    fn is_idle(&self) -> bool {
        self.core.pending.lost.is_empty() && self.core.pending.waiting.is_empty()
    }

    ghost none_made = { λ c t s. (tt, s) };

    ghost more_made = { more_made };
}
