//! The lines of the replies. Called by `prompt`.
ghost use Rattle.std.specs.Prelude.{◌≡◌, ◌≤◌, ◌<◌, ◌+◌, ◌*◌, ◌++◌, length, codes};
ghost use Rattle.std.specs.Fmt.{decimal};
ghost use Rattle.std.specs.List.{flat_map};
ghost use Rattle.node_prompt.specs.Replies.{ended};
ghost use Rattle.node_prompt.specs.Replies as replies;

use arrayvec::ArrayString;
use ax_address::Call;
use itoa::Buffer;
use l3_datagram::Message;
use route_table::Route;

/// Room for the longest line that tells of one thing.
type Line = ArrayString<32>;

/// Appends a text, for which there must be room.
pub fn add(text: &str, reply: &mut Message)
    requires { length reply.old.items + length text.now ≤ 8192 }
    ensures text { reply.new.items ≡ reply.old.items ++ text.now }
    ensures len { length reply.new.items ≡ length reply.old.items + length text.now }
{
    let _ = reply.try_extend_from_slice(text.as_bytes());
}

/// Appends the destinations, and how many there are beside them.
pub fn add_nodes(nodes: &[Route], more: usize, reply: &mut Message)
    requires begun { length reply.old.items ≤ 18 }
    requires few { length nodes.now ≤ 64 }
    ensures text { reply.new.items ≡ reply.old.items ++ replies.nodes_text nodes.now more }
    ensures len { length reply.new.items ≤ 18 + 7 + 64 * 17 + 30 }
{
    add_node_lines(nodes, reply);
    if more > 0 {
        add(more_line(more).as_str(), reply);
    }
}

fn add_node_lines(nodes: &[Route], reply: &mut Message)
    requires begun { length reply.old.items ≤ 18 }
    requires few { length nodes.now ≤ 64 }
    ensures text { reply.new.items ≡ reply.old.items ++ ended (codes "Nodes:") ++ flat_map replies.node_line nodes.now }
    ensures len { length reply.new.items ≤ 18 + 7 + 64 * 17 }
{
    add("Nodes:\r", reply);
    for route in nodes {
        add(node_line(route).as_str(), reply);
    }
}

/// Appends the routes to a destination.
pub fn add_routes_to(dest: &Call, routes: &[Route], reply: &mut Message)
    requires begun { length reply.old.items ≤ 18 }
    requires few { length routes.now ≤ 3 }
    ensures text { reply.new.items ≡ reply.old.items ++ replies.routes_to_text dest.now routes.now }
    ensures len { length reply.new.items ≤ 18 + 21 + 3 * 21 }
{
    add("Routes to ", reply);
    add(dest.show().as_str(), reply);
    add(":\r", reply);
    for route in routes {
        add(route_line(route).as_str(), reply);
    }
}

/// Appends the neighbours: the destinations that have a direct route.
pub fn add_routes(neighbours: &[Route], reply: &mut Message)
    requires begun { length reply.old.items ≤ 18 }
    requires few { length neighbours.now ≤ 64 }
    ensures text { reply.new.items ≡ reply.old.items ++ replies.routes_text neighbours.now }
    ensures len { length reply.new.items ≤ 18 + 8 + 64 * 14 }
{
    add("Routes:\r", reply);
    for route in neighbours {
        add(neighbour_line(route).as_str(), reply);
    }
}

/// Appends the partners of the ends that are held.
pub fn add_users(users: &[Call], reply: &mut Message)
    requires begun { length reply.old.items ≤ 18 }
    requires few { length users.now ≤ 64 }
    ensures text { reply.new.items ≡ reply.old.items ++ replies.users_text users.now }
    ensures len { length reply.new.items ≤ 18 + 7 + 64 * 10 }
{
    add("Users:\r", reply);
    for user in users {
        add(user_line(user).as_str(), reply);
    }
}

fn node_line(route: &Route) -> Line
    ensures text { result.bytes ≡ replies.node_line route.now }
    ensures len { length result.bytes ≤ 17 }
{
    let mut line = Line::new();
    line.push_str(route.alias.show().as_str());
    line.push(':');
    line.push_str(route.dest.show().as_str());
    line.push('\r');
    line
}

fn more_line(more: usize) -> Line
    ensures text { result.bytes ≡ ended (codes "and " ++ decimal more ++ codes " more") }
    ensures len { length result.bytes ≤ 30 }
{
    let mut line = Line::new();
    line.push_str("and ");
    line.push_str(Buffer::new().format(more));
    line.push_str(" more\r");
    line
}

fn route_line(route: &Route) -> Line
    ensures text { result.bytes ≡ replies.route_line route.now }
    ensures len { length result.bytes ≤ 21 }
{
    let mut line = Line::new();
    line.push_str(Buffer::new().format(route.quality));
    line.push(' ');
    push_count(route.count, &mut line);
    line.push(' ');
    line.push_str(route.neighbour.show().as_str());
    line.push('\r');
    line
}

fn push_count(count: Option<u8>, line: &mut Line)
    requires { length line.old.bytes ≤ 4 }
    ensures text { line.new.bytes ≡ line.old.bytes ++ replies.count_text count }
    ensures len { length line.new.bytes ≤ length line.old.bytes + 6 }
{
    match count {
        None => line.push_str("locked"),
        Some(rounds) => line.push_str(Buffer::new().format(rounds)),
    }
}

fn neighbour_line(route: &Route) -> Line
    ensures text { result.bytes ≡ replies.neighbour_line route.now }
    ensures len { length result.bytes ≤ 14 }
{
    let mut line = Line::new();
    line.push_str(route.dest.show().as_str());
    line.push(' ');
    line.push_str(Buffer::new().format(route.quality));
    line.push('\r');
    line
}

fn user_line(user: &Call) -> Line
    ensures text { result.bytes ≡ replies.user_line user.now }
    ensures len { length result.bytes ≤ 10 }
{
    let mut line = Line::new();
    line.push_str(user.show().as_str());
    line.push('\r');
    line
}
