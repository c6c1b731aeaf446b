//! A node's table as it was when it was shown. `stations` makes it; `events` keeps it, and the crates of reports and traces read it.
ghost use Rattle.std.specs.Prelude.{◌≡◌};

use ax_address::{Alias, Call};
use route_table::Route;
use std::marker::Model;

/// A node's table as it was when it was shown.
#[derive(Debug, Drop)]
pub struct Table {
    node: u8,
    call: Call,
    alias: Alias,
    routes: Vec<Route>,
}

impl Model for Table {
    ghost use Rattle.net_model.specs.Tables.{Table};

    ghost Value = { Table };

    ghost view = { λ t. record { node = t.node; call = t.call; alias = t.alias; routes = t.routes.items } };
}

impl Table {
    ghost use Rattle.std.specs.Prelude.{◌≡◌};

    /// A table of these routes, by destination, and of each the best first.
    pub(crate) fn new(node: u8, call: Call, alias: Alias, routes: Vec<Route>) -> Table
        ensures { result ≡ record { node = node; call = call; alias = alias; routes = routes.items } }
    {
        Table {
            node,
            call,
            alias,
            routes,
        }
    }

    /// The node's number.
    pub fn node(&self) -> u8
        ensures { result ≡ self.now.node }
    {
        self.node
    }

    /// The node's call.
    pub fn call(&self) -> Call
        ensures { result ≡ self.now.call }
    {
        self.call
    }

    /// The node's alias.
    pub fn alias(&self) -> Alias
        ensures { result ≡ self.now.alias }
    {
        self.alias
    }

    /// The routes, by destination, and of each the best first.
    pub fn routes(&self) -> &[Route]
        ensures { result.now ≡ self.now.routes }
    {
        &self.routes
    }
}
