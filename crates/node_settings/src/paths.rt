//! The repeaters over which a node reaches its peers. Called by the replay and `node_cmd`.
ghost use Rattle.std.specs.Prelude.{◌≡◌, ◌<◌, ◌+◌, ◌++◌, ◌∷◌, [], filter, OnOk};
ghost use Rattle.arrayvec.specs.ArrayVec.{array_vec_len};
ghost use Rattle.node_core.specs.Standing.{NodeGoes};
ghost use Rattle.node_settings.specs.Settings as node_settings;

use ax_address::{Address, Call, Path};
use link_table::PathRefusal;
use network_file::Via;
use node_core::Node;
use radio_base::NoMemory;

/// Sets the repeaters over which a node reaches its peers.
pub fn set_paths(node: &mut Node, number: u8, vias: &[Via]) -> Result<(), NoMemory>
    ensures { OnOk result (NodeGoes
        (node_settings.with_vias (filter (node_settings.is_via_of number) vias.now)) node.old node.new) }
{
    for via in vias {
        set_own_path(node, number, via)?;
    }
    Ok(())
}

/// Sets the repeaters over which a node reaches a peer, if they are those of the node of that number.
fn set_own_path(node: &mut Node, number: u8, via: &Via) -> Result<(), NoMemory>
    ensures { OnOk result (NodeGoes
        (node_settings.with_vias (filter (node_settings.is_via_of number) (via.now ∷ []))) node.old node.new) }
{
    if via.node == number {
        set_path(node, via)
    } else {
        Ok(())
    }
}

/// Sets the repeaters over which a node reaches a peer.
fn set_path(node: &mut Node, via: &Via) -> Result<(), NoMemory>
    ensures { OnOk result (NodeGoes (node_settings.with_via via.now) node.old node.new) }
{
    match node.set_path(&via.peer, &path_of(via)) {
        Ok(()) => Ok(()),
        Err(PathRefusal::NoMemory) => Err(NoMemory),
        Err(PathRefusal::TooLong) => Ok(()),
        Err(PathRefusal::Full) => Ok(()),
    }
}

/// The repeaters of a peer as a path, none of which has repeated yet.
pub fn path_of(via: &Via) -> Path
    ensures { result ≡ node_settings.path_of via.now }
{
    let mut path = Path::new();
    for call in via.repeaters.as_slice() {
        add_repeater(&mut path, *call);
    }
    path
}

fn add_repeater(path: &mut Path, call: Call)
    requires { array_vec_len path.old < 8 }
    ensures items { path.new.items ≡ path.old.items ++ node_settings.repeater call ∷ [] }
    ensures len { array_vec_len path.new ≡ array_vec_len path.old + 1 }
{
    let _ = path.try_push(repeater(call));
}

fn repeater(call: Call) -> Address
    ensures { result ≡ node_settings.repeater call }
{
    Address {
        call,
        bit7: false,
        reserved: 3,
    }
}
