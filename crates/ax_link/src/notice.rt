//! What a link tells of what has become of it. Used by `arrivals`, `expiry`, `link` and `machine`, and by `link_life`, `link_table` and
//! crates above.

/// What has become of a link.
#[derive(Clone, Copy, Debug, PartialEq, Eq)]
pub enum LinkNotice {
    /// The link is Up.
    Opened,
    /// The link was set up anew: what was under way is lost.
    Reset,
    /// The link has ended.
    Closed,
    /// The other station has refused the link.
    Refused,
    /// The other station has not answered.
    Failed,
}
