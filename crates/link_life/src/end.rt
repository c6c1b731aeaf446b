//! One end of a life, and its settings. Called by `epoch_lines`, `life`, `settle` and `turn`.
ghost use Rattle.std.specs.Prelude.{◌≡◌, [], None, IfOk};
ghost use Rattle.ax_frame.specs.Controls.{IsLinkModulus};
ghost use Rattle.ax_link.specs.Opening.{rules_new};
ghost use Rattle.ax_link.specs.Standing.{IsDrained};
ghost use Rattle.link_life.specs.Lives as lives;
ghost use Rattle.link_life.specs.Standing as standing;

use crate::book::Book;
use ax_link::{Link, LinkConfig};
use radio_base::{Modulus, NoMemory};
use std::alloc::Global;

/// One end: its link, and what is kept beside it.
#[derive(Drop)]
pub struct End<M: Modulus> {
    pub link: Link<M>,
    pub book: Book,
}

/// The settings of both ends.
pub(crate) fn config(srej: bool) -> LinkConfig
    ensures { result ≡ lives.settings srej }
{
    LinkConfig {
        window: 0,
        srej,
        t1: 3000,
        t3: 300_000,
        retries: 10,
    }
}

impl<M: Modulus> End<M> {
    ghost use Rattle.std.specs.Prelude.{[], None, IfOk, ◌≡◌};
    ghost use Rattle.ax_frame.specs.Controls.{IsLinkModulus};
    ghost use Rattle.ax_link.specs.Standing.{IsDrained};
    ghost use Rattle.ax_link.specs.Opening.{rules_new};
    ghost use Rattle.link_life.specs.Standing as standing;
    ghost use Rattle.link_life.specs.Lives as lives;

    /// An end that is Down and has known nothing yet.
    pub fn new(alloc: Global, srej: bool) -> Result<End<M>, NoMemory>
        requires { IsLinkModulus M.SIZE }
        ensures stands { IfOk result (λ e. standing.EndStands M.SIZE e
            (lives.new_end (rules_new M.SIZE (lives.settings srej)))) }
        ensures drained { IfOk result (λ e. IsDrained e.link) }
    {
        let link = Link::new(alloc, config(srej))?;
        Ok(End {
            link,
            book: Book::new(alloc),
        })
    }
}
