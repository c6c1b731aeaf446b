//! What the operator says of a station to its users, by its file. Called where the station is made.
ghost use Rattle.std.specs.Prelude.{◌≡◌, ◌++◌, IfOk, OnOk, map, option_copied, string_bytes};
ghost use Rattle.station_start.specs.Starts as starts;

use radio_base::NoMemory;
use station_file::{Port, StationFile};
use station_looks::About;
use std::alloc::Global;

pub(crate) fn about_of(alloc: Global, file: &StationFile) -> Result<About, NoMemory>
    ensures { IfOk result (starts.IsAbout file.now) }
{
    let mut ports = Vec::new(alloc);
    add_names(alloc, &mut ports, file.ports())?;
    let name = file.name().as_bytes().to_vec(alloc)?;
    let info = file.info().as_bytes().to_vec(alloc)?;
    Ok(About {
        name,
        info,
        ports,
        idle: file.idle() as u64 * 1_000,
        post: post_place(file.members().len(), file.post().is_some()),
    })
}

fn add_names(alloc: Global, names: &mut Vec<String>, ports: &[Port]) -> Result<(), NoMemory>
    ensures { OnOk result (map (λ s. string_bytes s) names.new.items
        ≡ map (λ s. string_bytes s) names.old.items ++ starts.names_of ports.now) }
{
    match ports {
        [] => Ok(()),
        [port, more @ ..] => {
            names.push(String::from_str(alloc, port.name.as_str())?)?;
            add_names(alloc, names, more)?;
            Ok(())
        }
    }
}

/// The post stands behind the other members.
fn post_place(members: usize, has_post: bool) -> Option<usize>
    ensures { result ≡ starts.post_place members has_post }
{
    if has_post { Some(members) } else { None }
}
