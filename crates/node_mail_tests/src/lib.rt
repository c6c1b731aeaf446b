//! Tests of mail: octets worked by hand, the way of one mail, what is refused, and that memory is found at the limits.
//!
//! They stand here and not in `node_mail`, since a crate with tests is proved twice.
#![tactic(auto)]

#[cfg(test)]
mod limits;
#[cfg(test)]
mod rows;
#[cfg(test)]
mod stores;
