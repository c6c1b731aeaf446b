//! What holds of the file of every number. Called by `soaks` of `node_cmd`.
ghost use Rattle.network_soak.specs.Laws.{AreNetworks, AreShort};

/// It is the file of a network: no line of it is bad, and it has no more bytes than a network file may have.
pub fn soak_files_are_networks()
    ensures networks { AreNetworks }
    ensures short { AreShort }
{}
