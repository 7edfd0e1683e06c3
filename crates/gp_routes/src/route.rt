use gp_plain::{Address, Body, List};
use std::alloc::AllocError;
use std::marker::Model;

/// Where requests go: an origin, and whether WebSocket clients are carried to it as posts.
#[derive(Drop)]
pub struct Route {
    /// Where the origin listens.
    pub address: Address,
    /// Whether WebSockets are carried to it as HTTP posts.
    pub over_http: bool,
}

/// Which requests a line is for.
#[derive(Drop)]
pub(crate) struct Condition {
    /// The host, or nothing where any host will do.
    pub host: Option<Body>,
    /// What path and query begin with. It has no byte where any will do.
    pub path: Body,
}

/// A line of the file that is neither blank nor a comment.
#[derive(Drop)]
pub(crate) struct Rule {
    pub condition: Condition,
    pub route: Route,
}

/// The lines of a routes file, in order. Contracts see the list of them. Each has a route to a host by name and a port
/// that isn't 0.
#[derive(Drop)]
pub struct Routes {
    pub(crate) rules: List<Rule>,
}

impl Model for Routes {
    ghost use Rattle.std.specs.Prelude.{List};
    ghost use Rattle.gp_routes.specs.declared.route.Rule.{Rule};

    ghost Value = { List Rule };

    ghost use Rattle.gp_routes.specs.Rules.{AreRules};

    ghost view = { λ routes. routes.rules };

    ghost invariant = { λ routes. AreRules routes.rules };
}

/// What is wrong with a line. The faults are tried in this order.
#[derive(Clone, Copy, Drop, Debug, PartialEq)]
pub enum RouteKind {
    /// It has one word.
    NoTarget,
    /// The first word is no condition.
    Condition,
    /// The second word is no target.
    Target,
    /// It has a third word.
    Extra,
}

/// Why a routes file is refused.
#[derive(Clone, Copy, Drop, Debug, PartialEq)]
pub enum RouteFault {
    /// The first line with a fault, counted from 1, and told as `u32::MAX` where it is more.
    Line { line: u32, kind: RouteKind },
    /// Memory is wanting.
    NoMemory,
}

impl From<AllocError> for RouteFault {
    ghost use Rattle.std.specs.Prelude.{◌≡◌};
    ghost use Rattle.gp_routes.specs.declared.route.RouteFault.TheVariants.{NoMemory};

    ghost from_gives = { λ _ fault. fault ≡ NoMemory };

    fn from(_: AllocError) -> RouteFault {
        RouteFault::NoMemory
    }
}
