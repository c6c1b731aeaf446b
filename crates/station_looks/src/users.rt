//! The users of a station. Called by `looks`.
ghost use Rattle.std.specs.Prelude.{◌≡◌, ◌++◌, count_by, map, IfOk, OnOk};
ghost use Rattle.station_lists.specs.Lists as lists;
ghost use Rattle.station_members.specs.Standing.{MembersStand};
ghost use Rattle.station_members.specs.States.{State};
ghost use Rattle.station_looks.specs.Ended.{is_user};
ghost use Rattle.station_looks.specs.Rows as rows;

use crate::About;
use crate::adding::push_row;
use crate::ended::is_user;
use crate::reached::link_place;
use radio_base::{NoMemory, TextOut};
use station_lists::{Doing, UserRow, Where, add_users};
use station_members::Members;
use station_sessions::{Place, Session, Stage};
use std::alloc::Global;

/// Adds the users: those whose side stands, in the order in which they came.
pub(crate) fn see_users(
    alloc: Global,
    members: &Members,
    about: &About,
    sessions: &[Session],
    text: &mut TextOut,
) -> Result<(), NoMemory>
    ensures { OnOk result ((s : State) → MembersStand members.now s
        → text.new ≡ text.old ++ lists.users_text (rows.user_rows about.now sessions.now s)) }
{
    let all = user_rows(alloc, members, about, sessions)?;
    add_users(alloc, &all, text)?;
    Ok(())
}

fn user_rows<'a>(
    alloc: Global,
    members: &Members,
    about: &'a About,
    sessions: &[Session],
) -> Result<Vec<UserRow<'a>>, NoMemory>
    ensures { IfOk result (λ all. (s : State) → MembersStand members.now s
        → map lists.user_line all.items ≡ map lists.user_line (rows.user_rows about.now sessions.now s)) }
{
    let mut all = Vec::new(alloc);
    for session in sessions {
        add_row(members, about, session, &mut all)?;
    }
    Ok(all)
}

/// How many users there are.
pub(crate) fn count_users(members: &Members, sessions: &[Session]) -> usize
    ensures { (s : State) → MembersStand members.now s → result ≡ count_by (is_user s) sessions.now }
{
    let mut count: usize = 0;
    for session in sessions {
        if is_user(members, session) {
            count += 1;
        }
    }
    count
}

/// Adds the row of a session, where its user is shown.
fn add_row<'a>(
    members: &Members,
    about: &'a About,
    session: &Session,
    all: &mut Vec<UserRow<'a>>,
) -> Result<(), NoMemory>
    ensures { OnOk result ((s : State) → MembersStand members.now s
        → map lists.user_line all.new.items ≡ map lists.user_line all.old.items
        ++ map lists.user_line (rows.user_by about.now s session.now)) }
{
    if is_user(members, session) {
        push_row(&row_of(members, about, session), all)
    } else {
        Ok(())
    }
}

fn row_of<'a>(members: &Members, about: &'a About, session: &Session) -> UserRow<'a>
    ensures { (s : State) → MembersStand members.now s
        → lists.user_line result ≡ lists.user_line (rows.user_row about.now s session.now) }
{
    UserRow {
        call: session.user(),
        from: from_of(members, about, session, &session.place()),
        doing: doing_of(session.stage()),
    }
}

/// Where he comes from: over a circuit he is shown by the node there.
fn from_of<'a>(members: &Members, about: &'a About, session: &Session, place: &Place) -> Where<'a>
    ensures { (s : State) → MembersStand members.now s
        → lists.where_text result ≡ lists.where_text (rows.from_of about.now s session.now place.now) }
{
    match place {
        Place::End { .. } => Where::Circuit(session.partner().unwrap_or(session.user())),
        Place::Link { member, peer } => Where::Link(link_place(members, about, *member, peer)),
        Place::Console(_) => Where::Console,
    }
}

fn doing_of(stage: &Stage) -> Doing
    ensures { result ≡ rows.doing_of stage.now }
{
    match stage {
        Stage::AtPrompt => Doing::Prompt,
        Stage::Trying(far) => Doing::Trying(far.name),
        Stage::With(far) => Doing::With(far.name),
    }
}
