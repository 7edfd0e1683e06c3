use gp_plain::Event;

/// Why the hub served no event. Each hands the event back.
#[derive(Drop)]
pub enum HubFault {
    /// Another call holds the turn. The odd word said so that this call's one step found.
    Busy(Event, u64),
    /// The hub has served as many events as it can: its word stands at 2^63 or above.
    Worn(Event),
    /// Memory is wanting. A Detach, a PageFailed and a Leave never meet it.
    NoMemory(Event),
}
