use gp_escapes::push_escaped;
use gp_routes::{Route, RouteFault, Routes, read_routes};
use std::alloc::{AllocError, Global};

fn push_route(text: &mut String, route: &Route) -> Result<(), AllocError> {
    push_escaped(text, route.address.host.bytes())?;
    let over = if route.over_http { "+" } else { "" };
    write!(text, ":{}{over}", route.address.port)
}

fn push_pick(text: &mut String, routes: &Routes, host: &str, path: &str) -> Result<(), AllocError> {
    match routes.pick(host.as_bytes(), path.as_bytes()) {
        Some(route) => push_route(text, route),
        None => text.push_str("none"),
    }
}

/// What is picked for a host and a path, as `HOST:PORT` with `+` where it is over HTTP, or the line that is refused.
/// `-` stands for no host and no path.
pub fn picked(
    alloc: Global,
    text: &mut String,
    host: &str,
    path: &str,
    file: &[u8],
) -> Result<(), AllocError> {
    let host = if host == "-" { "" } else { host };
    let path = if path == "-" { "" } else { path };
    match &read_routes(alloc, file) {
        Ok(routes) => push_pick(text, routes, host, path),
        Err(RouteFault::Line { line, kind }) => write!(text, "line {line} {kind:?}"),
        Err(RouteFault::NoMemory) => Err(AllocError),
    }
}
