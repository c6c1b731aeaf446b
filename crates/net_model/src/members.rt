//! A node of a replay, with what it was declared as and its mail. `stations` makes it, `mails` and `places` look at it, net_world keeps it,
//! and the crates of reports, verdicts and traces read it.
use network_file::Declaration;
use node_core::Node;
use node_mail::Store;

/// A node of a replay.
#[derive(Drop)]
pub struct Member {
    pub declared: Declaration,
    pub node: Node,
    /// Its mail; None where it keeps none.
    pub mail: Option<Store>,
}
