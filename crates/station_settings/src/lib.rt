//! How the members of a station start, by its file: each with its settings, the ports on which it stands, its peers over repeaters, the
//! qualities of its neighbours and its locked routes; and the beacons. Own profile.
//!
//! Who runs a station reads the file, and hands it on with the pair that its members give first.
#![tactic(auto)]

mod beacons;
mod member_setting;
mod setting_up;
mod starting;

pub use starting::members_of;
