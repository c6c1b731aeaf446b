//! The verdict on a replay: the first line at which a datagram or a pair came back too late, and by what that shows.
#![tactic(auto)]

mod causes;
mod late;
mod sign;

pub use causes::{LateCause, late_cause};
pub use late::too_late;
pub use sign::Sign;
