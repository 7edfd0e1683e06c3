//! Threads share the routes by reference.
use crate::route::Routes;

fn shares<T: Sync>(_: &T) {}

fn moves<T: Send>(value: T) -> T {
    value
}

/// Routes may be moved and shared.
pub(crate) fn crosses(routes: Routes) -> Routes {
    shares(&routes);
    moves(routes)
}
