/// Why a call was not served. Each hands the ask back.
#[derive(Drop)]
pub enum TurnFault<A> {
    /// Another call holds the turn. The odd word said so that this call's one step found.
    Busy(A, u64),
    /// The turn has served as many calls as it can: its word stands at 2^63 or above.
    Worn(A),
    /// Memory is wanting.
    NoMemory(A),
}
