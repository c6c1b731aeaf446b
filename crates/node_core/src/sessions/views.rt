//! What a user sees of this node. Called by `asking`.
ghost use Rattle.std.specs.Prelude.{◌≡◌, IfOk, filter, flat_map, take, slice_get};
ghost use Rattle.std.specs.Option.{option_to_list};
ghost use Rattle.circuit_table.specs.CircuitSets.{held_ids};
ghost use Rattle.node_prompt.specs.declared.sight.Sight.TheVariants as sights;
ghost use Rattle.node_model.specs.States.{State};
ghost use Rattle.node_model.specs.Asking as views;

use crate::station::Station;
use arrayvec::ArrayVec;
use ax_address::Call;
use node_prompt::{Sight, View};
use radio_base::NoMemory;
use route_table::Route;

/// How many destinations, neighbours and users a reply names.
const MOST_NAMED: usize = 64;

impl Station {
    ghost use Rattle.node_core.specs.Going.{HoldsTold};
    ghost use Rattle.node_core.specs.Standing.{Holds};

    /// What there is to see of this node.
    pub(crate) fn view(&self, sight: &Sight) -> Result<View, NoMemory>
        ensures { IfOk result (λ view. (n : State) → HoldsTold self.now n → view ≡ views.view sight.now n) }
    {
        match sight {
            Sight::Nodes => self.nodes(),
            Sight::RoutesTo(dest) => Ok(self.routes_to(dest)),
            Sight::Routes => self.neighbours(),
            Sight::Users => Ok(View::Users(self.users())),
        }
    }

    /// The destinations.
    fn nodes(&self) -> Result<View, NoMemory>
        ensures { IfOk result (λ view. (n : State) → HoldsTold self.now n → view ≡ views.view sights.Nodes n) }
    {
        let destinations = self.set.router().table().destinations(self.alloc)?;
        Ok(View::Nodes {
            routes: self.best_routes(&destinations),
            more: destinations.len().saturating_sub(MOST_NAMED),
        })
    }

    /// The routes to a destination.
    fn routes_to(&self, dest: &Call) -> View
        ensures { (n : State) → HoldsTold self.now n → result ≡ views.view (sights.RoutesTo dest.now) n }
    {
        View::RoutesTo {
            dest: *dest,
            routes: self.set.router().table().routes(dest),
        }
    }

    /// The neighbours: the destinations that have a direct route.
    fn neighbours(&self) -> Result<View, NoMemory>
        ensures { IfOk result (λ view. (n : State) → HoldsTold self.now n → view ≡ views.view sights.Routes n) }
    {
        let routes = self.set.router().table().routes_of_all(self.alloc)?;
        Ok(View::Routes(direct_routes(&routes)))
    }

    /// The best route to each of the first 64 of these destinations.
    fn best_routes(&self, destinations: &[Call]) -> ArrayVec<Route, 64>
        ensures { (n : State) → Holds self.now n
            → result.items ≡ flat_map (views.best_route n) (take 64 destinations.now) }
    {
        let mut best = ArrayVec::new();
        let named = &destinations[..destinations.len().min(MOST_NAMED)];
        for dest in named {
            if let Some(route) = self.best_route(dest) {
                best.push(route);
            }
        }
        best
    }

    /// The best route to a destination.
    fn best_route(&self, dest: &Call) -> Option<Route>
        ensures { (n : State) → Holds self.now n → option_to_list result ≡ views.best_route n dest.now }
    {
        self.set.router().table().routes(dest).first().copied()
    }

    /// The partner of each end that is held.
    fn users(&self) -> ArrayVec<Call, 64>
        ensures { (n : State) → HoldsTold self.now n → result.items ≡ views.partners n.set.set.ends }
    {
        let mut users = ArrayVec::new();
        for nth in 0..MOST_NAMED {
            if let Some(user) = self.user(nth) {
                users.push(user);
            }
        }
        users
    }

    /// The partner of the end of that place among those that are held.
    fn user(&self, nth: usize) -> Option<Call>
        ensures { (n : State) → HoldsTold self.now n → option_to_list result
            ≡ flat_map (views.partner n.set.set.ends) (option_to_list (slice_get (held_ids n.set.set.ends) nth)) }
    {
        match self.set.held(nth) {
            Some(id) => self.set.partner(id),
            None => None,
        }
    }
}

/// The first 64 of these routes that lead to a neighbour over itself.
fn direct_routes(routes: &[Route]) -> ArrayVec<Route, 64>
    ensures { result.items ≡ take 64 (filter views.is_direct routes.now) }
{
    let mut direct = ArrayVec::new();
    for route in routes {
        if route.dest == route.neighbour {
            // What has no room is left out.
            let _ = direct.try_push(*route);
        }
    }
    direct
}
