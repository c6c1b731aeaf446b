//! What comes of an act at a node, as far as it is told. Called by net_world.
ghost use Rattle.std.specs.Prelude.{IfOk, Ok};
ghost use Rattle.node_core.specs.Standing.{IsAnswer};
ghost use Rattle.net_model.specs.Answers as answers_to;

use crate::refusals::LineRefusal;
use crate::refused::of_act;
use node_core::{ActDone, ActRefusal};
use radio_base::NoMemory;

/// What came of an act.
#[derive(Debug, Drop)]
pub enum Answer {
    /// It was done.
    Done,
    /// It was done: this message was taken.
    Took(Vec<u8>),
    /// It wasn't done.
    Refused(LineRefusal),
}

impl Answer {
    ghost use Rattle.std.specs.Prelude.{◌≡◌};
    ghost use Rattle.net_model.specs.Answers.{refusal_in};

    /// Why it wasn't done.
    pub fn refusal(&self) -> Option<LineRefusal>
        ensures { result ≡ refusal_in self.now }
    {
        match self {
            Answer::Done => None,
            Answer::Took(_) => None,
            Answer::Refused(why) => Some(*why),
        }
    }
}

/// What came of an act that a node answered so. Want of memory is no answer.
pub fn answer_of(outcome: Result<ActDone, ActRefusal>) -> Result<Answer, NoMemory>
    ensures outcome { IfOk result (λ _. IsAnswer outcome) }
    ensures answer { IfOk result (λ answer. answers_to.IsAnswerTo answer outcome) }
{
    match outcome {
        Ok(done) => Ok(done_answer(done)),
        Err(refusal) => match of_act(refusal) {
            Some(why) => Ok(Answer::Refused(why)),
            None => Err(NoMemory),
        },
    }
}

/// What came of an act that was done.
fn done_answer(done: ActDone) -> Answer
    ensures { answers_to.IsAnswerTo result (Ok done) }
{
    match done {
        ActDone::Took(message) => Answer::Took(message.into_vec()),
        ActDone::Done => Answer::Done,
        ActDone::Made(_) => Answer::Done,
    }
}
