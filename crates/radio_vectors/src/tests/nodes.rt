//! NODES broadcasts. Called by `rt test`.
use super::{alias, call, expect};
use crate::nodes::{NODES, NodesVector, REFUSED_NODES};
use arrayvec::ArrayVec;
use ax_address::Entry;
use nodes_broadcast::{Nodes, read_nodes, write_nodes};
use std::process::Abort;

fn nodes(rt: &impl Abort, row: &NodesVector) -> Nodes {
    let mut entries = ArrayVec::new();
    for entry in row.entries {
        let _ = entries.try_push(Entry {
            dest: call(rt, entry.dest),
            alias: alias(rt, entry.alias),
            best: call(rt, entry.best),
            quality: entry.quality,
        });
    }
    Nodes {
        alias: alias(rt, row.alias),
        entries,
    }
}

fn broadcast_is_read_and_written(rt: &impl Abort, row: &NodesVector) {
    let nodes = nodes(rt, row);
    expect(rt, write_nodes(&nodes).as_slice() == row.written, row.info);
    expect(
        rt,
        read_nodes(row.written) == read_nodes(row.info),
        row.info,
    );
    expect(rt, read_nodes(row.info) == Ok(nodes), row.info);
}

#[test]
fn broadcasts_are_read_and_written(rt: HostRuntime) {
    for row in &NODES {
        broadcast_is_read_and_written(&rt, row);
    }
}

#[test]
fn what_is_no_broadcast(rt: HostRuntime) {
    for (info, refusal) in REFUSED_NODES {
        expect(&rt, read_nodes(info) == Err(refusal), info);
    }
}
