//! Where an end of a link stands. Used by most files here, and by `link_life` and `link_table`.

/// Where an end of a link stands. The standard's names are Disconnected, Awaiting Connection, Connected (while a poll isn't answered:
/// Timer Recovery) and Awaiting Release.
///
/// ```text
///                 set_up / SABM(E)
/// +------+ -----------------------------> +-----------+ --.  T1: SABM(E) again
/// |      | <----------------------------- | SettingUp | <-'
/// |      |   DM F=1; T1 after N2 tries    +-----------+
/// |      |                                      | UA F=1
/// | Down |   SABM(E) / UA                       v
/// |      | -----------------------------> +-----------+ --.  SABM(E) / UA: reset
/// |      | <----------------------------- |    Up     | <-'  FRMR / SABM(E): to SettingUp
/// |      |   DISC / UA; DM; T1 after N2   +-----------+
/// |      |                                      | closing, all acknowledged / DISC
/// |      |                                      v
/// |      | <----------------------------- +-----------+ --.  T1: DISC again
/// +------+   UA or DM F=1; T1 after N2    | Releasing | <-'
///                                         +-----------+
/// ```
#[derive(Clone, Copy, Debug, PartialEq, Eq)]
pub enum LinkPhase {
    /// There is no link.
    Down,
    /// A set-up command was put out, and its answer is awaited.
    SettingUp,
    /// Payloads go both ways.
    Up,
    /// A DISC was put out, and its answer is awaited.
    Releasing,
}
