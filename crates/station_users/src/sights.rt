//! What a session sees of its sides. Called before each thing that it does.
ghost use Rattle.std.specs.Prelude.{◌≡◌, IfOk};
ghost use Rattle.station_places.specs.Looks as seen;
ghost use Rattle.station_places.specs.Sides.{SidesState, SidesStand};
ghost use Rattle.station_users.specs.Sights as sights;
ghost use Rattle.station_users.specs.Steps as steps;
ghost use Rattle.station_users.specs.Steps.{session_at};

use radio_base::NoMemory;
use station_places::Sides;
use station_prompt::{capitals_of, ends_try, next_line};
use station_sessions::{Place, Session, Sight, Stage};
use std::alloc::Global;
use text_lines::words_of;

/// What a session sees.
#[tactic(auto, unfolding(crate::specs::Sights::sight_of))]
pub(crate) fn sight_of(session: &Session, sides: &Sides, alloc: Global) -> Result<Sight, NoMemory>
    ensures { IfOk result (λ sight. (s : SidesState) → SidesStand sides.now s → sight ≡ sights.sight_of (session_at s session.now)) }
{
    let user = session.place();
    let far = far_place(session);
    Ok(Sight {
        user_ended: sides.has_ended(&user),
        user_room: sides.has_room(&user),
        user_goes_on: sides.goes_on(&user),
        user_text: sides.has_text(&user),
        stops: stops_at(session, alloc)?,
        far_room: far_has_room(far, sides),
        far_goes_on: far_goes_on(far, sides),
        far_text: far_has_text(far, sides),
    })
}

/// Where its far side is.
pub(crate) fn far_place(session: &Session) -> Option<Place>
    ensures { result ≡ steps.far_place session.now }
{
    match session.far() {
        Some(far) => Some(far.place),
        None => None,
    }
}

/// Whether the far side has room for a text.
fn far_has_room(far: Option<Place>, sides: &Sides) -> bool
    ensures { (s : SidesState) → SidesStand sides.now s → result ≡ sights.far_sees seen.has_room far s }
{
    match far {
        Some(place) => sides.has_room(&place),
        None => false,
    }
}

/// Whether it has room for a piece.
fn far_goes_on(far: Option<Place>, sides: &Sides) -> bool
    ensures { (s : SidesState) → SidesStand sides.now s → result ≡ sights.far_sees seen.goes_on far s }
{
    match far {
        Some(place) => sides.goes_on(&place),
        None => false,
    }
}

/// Whether a text waits there.
pub(crate) fn far_has_text(far: Option<Place>, sides: &Sides) -> bool
    ensures { (s : SidesState) → SidesStand sides.now s → result ≡ sights.far_sees seen.has_text far s }
{
    match far {
        Some(place) => sides.has_text(&place),
        None => false,
    }
}

/// Whether something is tried, and the line that is next ends the try.
fn stops_at(session: &Session, alloc: Global) -> Result<bool, NoMemory>
    ensures { IfOk result (λ stops. stops ≡ sights.stops session.now) }
{
    match session.stage() {
        Stage::Trying(_) => stops(next_line(session.rest()).0, alloc),
        Stage::AtPrompt | Stage::With(_) => Ok(false),
    }
}

/// Whether a line ends a try.
fn stops(line: &[u8], alloc: Global) -> Result<bool, NoMemory>
    ensures { IfOk result (λ stops. stops ≡ sights.is_stop line.now) }
{
    let capitals = capitals_of(alloc, line)?;
    let words = words_of(alloc, &capitals)?;
    Ok(ends_try(&words))
}
