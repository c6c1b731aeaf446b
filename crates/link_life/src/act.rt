//! What is done in a life. Used by most files here.
use crate::sent_text::SentText;

/// One of the two stations: N0AAA or N0BBB.
#[derive(Clone, Copy, Debug, PartialEq, Eq)]
pub enum Side {
    A,
    B,
}

/// What is done at one end.
#[derive(Debug, Drop)]
pub enum EndAct<'a> {
    /// The end sets a link up.
    SetUp,
    /// It is given a payload.
    Send(SentText<'a>),
    /// It is to release its link.
    Close,
    /// Its user takes a payload.
    Take,
    /// The oldest frame under way to it arrives.
    Arrive,
    /// The oldest frame under way to it is lost.
    Lose,
}

/// What a line of a script asks for.
#[derive(Debug, Drop)]
pub enum LifeAct<'a> {
    At(Side, EndAct<'a>),
    /// Time goes by, in milliseconds.
    Tick(u64),
}

/// What a line asks for, with the number of the line, from 1.
#[derive(Debug, Drop)]
pub struct NumberedAct<'a> {
    pub line: u32,
    pub act: LifeAct<'a>,
}
