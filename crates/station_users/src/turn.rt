//! What each thing that is done needs. Used by all that serve sessions.

use radio_base::Moment;
use std::alloc::Global;

/// When something is done, and from where memory for it comes.
#[derive(Clone, Copy)]
pub(crate) struct Turn {
    pub(crate) alloc: Global,
    pub(crate) moment: Moment,
}
