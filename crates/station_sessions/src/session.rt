//! A session: a user, and what he is doing. Used by `far_notes` and `thing`, and by the crates that run a station.
ghost use Rattle.std.specs.Prelude.{◌≡◌, ◌≤◌, ◌^◌, ◌-◌, [], length, min, drop, OnOk, Some};
ghost use Rattle.station_sessions.specs.Sessions as sessions;
ghost use Rattle.station_sessions.specs.declared.far.Stage.TheVariants.{AtPrompt, Trying};

use crate::place::is_same;
use crate::{Far, Place, Presence, Stage, Unsent};
use ax_address::Call;
use radio_base::{Moment, NoMemory, TextOut};
use std::alloc::Global;
use std::collections::VecDeque;
use std::marker::Model;
use std::mem;

/// A user, and what he is doing.
#[derive(Drop)]
pub struct Session {
    user: Call,
    member: usize,
    partner: Option<Call>,
    place: Place,
    unsent: Unsent,
    presence: Presence,
    pub(crate) stage: Stage,
    replies: VecDeque<TextOut>,
    typed: VecDeque<TextOut>,
    /// The text of the user that was taken last, and how many bytes of it are done with.
    text: Vec<u8>,
    done: usize,
    since: Moment,
}

impl Model for Session {
    ghost use Rattle.std.specs.Prelude.{◌≤◌, drop, length};
    ghost use Rattle.station_sessions.specs.Sessions.{Session};

    ghost Value = { Session };

    ghost view = { λ s. record {
      user = s.user;
      member = s.member;
      partner = s.partner;
      place = s.place;
      unsent = s.unsent;
      presence = s.presence;
      stage = s.stage;
      replies = s.replies.items;
      typed = s.typed.items;
      rest = drop s.done s.text.items;
      since = s.since.0;
    } };

    ghost invariant = { λ s. s.done ≤ length s.text.items };
}

impl Session {
    /// A session at its start: of a user at the prompt of the member at a place, who has come over a circuit from a partner, if over one.
    pub fn new(
        alloc: Global,
        user: Call,
        member: usize,
        partner: Option<Call>,
        place: Place,
        now: Moment,
    ) -> Session
        ensures { result ≡ sessions.new_session user member partner place now.0 }
    {
        Session {
            user,
            member,
            partner,
            place,
            unsent: Unsent::new(alloc),
            presence: Presence::Here,
            stage: Stage::AtPrompt,
            replies: VecDeque::new(alloc),
            typed: VecDeque::new(alloc),
            text: Vec::new(alloc),
            done: 0,
            since: now,
        }
    }

    /// His call.
    pub fn user(&self) -> Call
        ensures { result ≡ self.now.user }
    {
        self.user
    }

    /// The member at whose prompt he is.
    pub fn member(&self) -> usize
        ensures { result ≡ self.now.member }
    {
        self.member
    }

    /// The node from which he comes, where he comes over a circuit.
    pub fn partner(&self) -> Option<Call>
        ensures { result ≡ self.now.partner }
    {
        self.partner
    }

    /// Where he is.
    pub fn place(&self) -> Place
        ensures { result ≡ self.now.place }
    {
        self.place
    }

    /// How his side stands.
    pub fn presence(&self) -> Presence
        ensures { result ≡ self.now.presence }
    {
        self.presence
    }

    /// What of the text that he was given last waits for room on his link.
    pub fn unsent(&self) -> &Unsent
        ensures { result.now ≡ self.now.unsent }
    {
        &self.unsent
    }

    /// How far it has come.
    pub fn stage(&self) -> &Stage
        ensures { result.now ≡ self.now.stage }
    {
        &self.stage
    }

    /// The far side, where one is tried or stands.
    pub fn far(&self) -> Option<&Far>
        ensures { sessions.lent_far result ≡ sessions.far_of self.now.stage }
    {
        match &self.stage {
            Stage::AtPrompt => None,
            Stage::Trying(far) | Stage::With(far) => Some(far),
        }
    }

    /// When something came from him last, or when he came back to the prompt.
    pub fn since(&self) -> Moment
        ensures { result.0 ≡ self.now.since }
    {
        self.since
    }

    /// Whether something that he is told waits.
    pub fn has_replies(&self) -> bool
        ensures { result ≡ sessions.has_some self.now.replies }
    {
        !self.replies.is_empty()
    }

    /// What is left of the text that was taken last.
    pub fn rest(&self) -> &[u8]
        ensures { result.now ≡ self.now.rest }
    {
        &self.text[self.done..]
    }

    /// Whether anything of it is left.
    pub fn has_rest(&self) -> bool
        ensures { result ≡ sessions.has_some self.now.rest }
    {
        !self.rest().is_empty()
    }

    /// Whether a text of his waits that wasn't taken: one that was typed, or one that came over his circuit or link, where that is so.
    pub fn has_next_text(&self, came: bool) -> bool
        ensures { result ≡ sessions.has_next_text self.now came }
    {
        !self.typed.is_empty() || (self.presence != Presence::Gone && came)
    }

    /// Whether nothing is said to him any more, where his circuit has ended, if that is so.
    pub fn is_deaf(&self, ended: bool) -> bool
        ensures { result ≡ sessions.is_deaf self.now.presence ended }
    {
        match self.presence {
            Presence::Here | Presence::Leaving => ended,
            Presence::LetGo | Presence::Gone => true,
        }
    }

    /// Whether it is shown: his side stands, and he wasn't told the last.
    pub fn is_shown(&self, ended: bool) -> bool
        ensures { result ≡ sessions.is_shown self.now.presence ended }
    {
        self.presence == Presence::Here && !ended
    }

    /// Whether the user is at this place, and his side hasn't ended.
    pub fn is_at(&self, place: &Place) -> bool
        ensures { result ≡ sessions.is_at place.now self.now }
    {
        self.presence != Presence::Gone && is_same(&self.place, place)
    }

    /// Whether the far side is at this place.
    pub fn is_far_at(&self, place: &Place) -> bool
        ensures { result ≡ sessions.is_far_at place.now self.now.stage }
    {
        match &self.stage {
            Stage::AtPrompt => false,
            Stage::Trying(far) => is_same(&far.place, place),
            Stage::With(far) => is_same(&far.place, place),
        }
    }

    /// Whether it is over: the user is gone, and so is the far side, and nothing is left of his texts and replies.
    pub fn is_over(&self) -> bool
        ensures { result ≡ sessions.is_over self.now }
    {
        self.presence == Presence::Gone
            && self.far().is_none()
            && self.replies.is_empty()
            && self.typed.is_empty()
            && !self.has_rest()
    }

    /// This text was taken from the user.
    pub fn begin(&mut self, text: Vec<u8>, now: Moment)
        ensures { self.new ≡ sessions.begin text.items now.0 self.old }
    {
        self.text = text;
        self.done = 0;
        self.since = now;
    }

    /// All of it is done with but what stands behind its first line, of which there are so many bytes.
    pub fn cut(&mut self, size: usize)
        requires { size ≤ length self.old.rest }
        ensures { self.new ≡ sessions.cut size self.old }
    {
        self.done += size;
    }

    /// All of it is done with.
    pub fn drop_rest(&mut self)
        ensures { self.new ≡ sessions.drop_rest self.old }
    {
        self.done = self.text.len();
    }

    /// He is told this as soon as there is room.
    pub fn tell(&mut self, reply: TextOut) -> Result<(), NoMemory>
        ensures { OnOk result (self.new ≡ sessions.tell reply self.old) }
    {
        self.replies.push_back(reply)?;
        Ok(())
    }

    /// The first thing that he is told and that waits: it waits no longer.
    pub fn next_reply(&mut self) -> Option<TextOut>
        ensures reply { result ≡ sessions.first self.old.replies }
        ensures rest { self.new ≡ sessions.drop_reply self.old }
    {
        self.replies.pop_front()
    }

    /// This was typed at his console.
    pub fn type_text(&mut self, text: TextOut) -> Result<(), NoMemory>
        ensures { OnOk result (self.new ≡ sessions.type_text text self.old) }
    {
        self.typed.push_back(text)?;
        Ok(())
    }

    /// How many bytes were typed and weren't taken; at most 2^64 - 1 are counted.
    #[tactic(auto, using(crate::proofs::Counting::counts_next, crate::proofs::Counting::counts_end))]
    pub fn typed_size(&self) -> usize
        ensures { result ≡ min (sessions.typed_size self.now.typed) (2 ^ 64 - 1) }
    {
        let mut size: usize = 0;
        for text in self.typed.iter() {
            size = size.saturating_add(text.bytes().len());
        }
        size
    }

    /// What waits for room on his link.
    pub fn wait_with(&mut self, text: &[u8]) -> Result<(), NoMemory>
        ensures { OnOk result (self.new ≡ sessions.wait_with text.now self.old) }
    {
        self.unsent.set(text)
    }

    /// So many bytes of that have gone.
    pub fn went(&mut self, count: usize)
        requires { count ≤ length self.old.unsent }
        ensures { self.new ≡ sessions.went count self.old }
    {
        self.unsent.went(count);
    }

    /// Something is tried.
    pub fn tries(&mut self, far: Far)
        ensures { self.new ≡ sessions.with_stage (Trying far) self.old }
    {
        self.stage = Stage::Trying(far);
    }

    /// The stage, which is the prompt from now on: what was tried or stood is the caller's.
    pub fn take_stage(&mut self) -> Stage
        ensures stage { result ≡ self.old.stage }
        ensures rest { self.new ≡ sessions.with_stage AtPrompt self.old }
    {
        mem::replace(&mut self.stage, Stage::AtPrompt)
    }

    /// Where that brings the session.
    pub fn set_stage(&mut self, stage: Stage)
        ensures { self.new ≡ sessions.with_stage stage self.old }
    {
        self.stage = stage;
    }

    /// The user is at the prompt again.
    pub fn come_back(&mut self, now: Moment)
        ensures { self.new ≡ sessions.come_back now.0 self.old }
    {
        self.stage = Stage::AtPrompt;
        self.since = now;
    }

    /// The first text that was typed: it waits no longer.
    pub fn next_typed(&mut self) -> Option<TextOut>
        ensures text { result ≡ sessions.first self.old.typed }
        ensures rest { self.new ≡ sessions.drop_typed self.old }
    {
        self.typed.pop_front()
    }

    /// What was typed and wasn't taken is let fall, and so is what is left of the last text.
    pub fn forget_typed(&mut self)
        ensures { self.new ≡ sessions.forget_typed self.old }
    {
        self.drop_rest();
        self.typed.clear();
    }

    /// His side stands so from now on. Where it has ended, what waits for room there is let fall.
    pub fn set_presence(&mut self, presence: Presence)
        ensures { self.new ≡ sessions.with_presence presence self.old }
    {
        self.presence = presence;
        if presence == Presence::Gone {
            self.unsent.forget();
        }
    }
}
