//! What a session does next. Called by the crates that run a station.
ghost use Rattle.std.specs.Prelude.{◌≡◌, Some};
ghost use Rattle.station_sessions.specs.Things as things;

use crate::{Far, Presence, Session, Sight, Stage};

/// What a session does next: the first of these that can be done.
#[derive(Clone, Copy, Debug, PartialEq, Eq)]
pub enum Thing {
    /// Pieces that waited go to the user.
    GoOn,
    /// Pieces that waited go to the far side.
    GoOnFar,
    /// A reply that waits is given to the user.
    GiveReply,
    /// Nothing waits for the user any more, who was told the last: his side is closed.
    LetGo,
    /// A text of the far side is given to the user.
    GiveText,
    /// A text of a user to whom nothing is said any more is let fall.
    DropText,
    /// The user's next line is done.
    DoLine,
    /// The user's next text is given to the far side.
    PassOn,
    /// The next line of the user ends the try.
    Stop,
    /// The user's side has ended and nothing of his waits: the far side is closed.
    CloseFar,
}

impl Session {
    /// What it does next, if anything, by what it sees.
    pub fn next_thing(&self, sight: &Sight) -> Option<Thing>
        ensures { result ≡ things.next_thing self.now sight.now }
    {
        if self.is_deaf(sight.user_ended) {
            return self.next_without_user(sight);
        }
        if !self.unsent().is_empty() && sight.user_goes_on {
            return Some(Thing::GoOn);
        }
        if self.far_goes_on(sight) {
            return Some(Thing::GoOnFar);
        }
        match self.next_for_user(sight) {
            Some(thing) => Some(thing),
            None => self.next_of_texts(sight),
        }
    }

    /// What is given to the user next.
    fn next_for_user(&self, sight: &Sight) -> Option<Thing>
        ensures { result ≡ things.next_for_user self.now sight.now }
    {
        if self.has_replies() {
            return given_where(self.can_give(sight), Thing::GiveReply);
        }
        if self.presence() == Presence::Leaving {
            return given_where(self.unsent().is_empty(), Thing::LetGo);
        }
        given_where(
            self.far_has_text(sight) && self.can_give(sight),
            Thing::GiveText,
        )
    }

    /// The same where nothing is said to the user any more: what is for him is let fall.
    fn next_without_user(&self, sight: &Sight) -> Option<Thing>
        ensures { result ≡ things.next_without_user self.now sight.now }
    {
        if self.far_goes_on(sight) {
            return Some(Thing::GoOnFar);
        }
        if self.has_replies() {
            return Some(Thing::GiveReply);
        }
        if self.far_has_text(sight) {
            return Some(Thing::GiveText);
        }
        match self.next_of_texts(sight) {
            Some(thing) => Some(thing),
            None => self.next_at_end(sight),
        }
    }

    /// The far side is closed where the user's side has ended and nothing of his waits.
    fn next_at_end(&self, sight: &Sight) -> Option<Thing>
        ensures { result ≡ things.next_at_end self.now sight.now }
    {
        match self.far() {
            Some(far) => given_where(
                !far.closed && far.unsent.is_empty() && !self.has_text(sight),
                Thing::CloseFar,
            ),
            None => None,
        }
    }

    /// What is to be done with the user's next text.
    fn next_of_texts(&self, sight: &Sight) -> Option<Thing>
        ensures { result ≡ things.next_of_texts self.now sight.now }
    {
        match self.stage() {
            Stage::AtPrompt => self.next_at_prompt(sight),
            Stage::Trying(_) => self.next_of_try(sight),
            Stage::With(far) => self.next_with(far, sight),
        }
    }

    fn next_at_prompt(&self, sight: &Sight) -> Option<Thing>
        ensures { result ≡ things.next_at_prompt self.now sight.now }
    {
        if !self.has_text(sight) {
            return None;
        }
        if !self.is_shown(sight.user_ended) {
            return Some(Thing::DropText);
        }
        given_where(self.can_give(sight), Thing::DoLine)
    }

    /// Whether the next line ends the try.
    fn next_of_try(&self, sight: &Sight) -> Option<Thing>
        ensures { result ≡ things.next_of_try self.now sight.now }
    {
        let can = self.is_deaf(sight.user_ended) || self.can_give(sight);
        given_where(self.has_rest() && sight.stops && can, Thing::Stop)
    }

    fn next_with(&self, far: &Far, sight: &Sight) -> Option<Thing>
        ensures { result ≡ things.next_with self.now far.now sight.now }
    {
        let takes = !far.closed && far.unsent.is_empty() && sight.far_room;
        given_where(takes && self.has_text(sight), Thing::PassOn)
    }

    /// Whether the far side stands and a text of it waits.
    fn far_has_text(&self, sight: &Sight) -> bool
        ensures { result ≡ things.far_has_text self.now.stage sight.now }
    {
        match self.stage() {
            Stage::With(_) => sight.far_text,
            Stage::AtPrompt | Stage::Trying(_) => false,
        }
    }

    fn far_goes_on(&self, sight: &Sight) -> bool
        ensures { result ≡ things.far_goes_on self.now.stage sight.now }
    {
        match self.far() {
            Some(far) => !far.unsent.is_empty() && sight.far_goes_on,
            None => false,
        }
    }

    /// Whether a text of the user waits.
    fn has_text(&self, sight: &Sight) -> bool
        ensures { result ≡ things.has_text self.now sight.now }
    {
        self.has_rest() || self.has_next_text(sight.user_text)
    }

    /// Whether the user's side has room, and nothing waits for it.
    fn can_give(&self, sight: &Sight) -> bool
        ensures { result ≡ things.can_give self.now sight.now }
    {
        self.unsent().is_empty() && sight.user_room
    }
}

/// A thing, where it can be done.
fn given_where(can: bool, thing: Thing) -> Option<Thing>
    ensures { result ≡ things.given_where can (Some thing) }
{
    if can { Some(thing) } else { None }
}
