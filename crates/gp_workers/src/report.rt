//! What workers tell of their sessions.
use gp_hub::SessionEnd;
use gp_plain::{HoldReports, Roomed};

/// How one session ended.
#[derive(Drop)]
pub struct SessionReport {
    /// The claim that its connection took.
    pub claim: u32,
    /// The number of its pass.
    pub number: u64,
    /// How it ended.
    pub end: SessionEnd,
    /// What became of each hold that it attached, in order.
    pub holds: HoldReports,
}

/// Reports of sessions, in a list that promises room.
pub type SessionReports = Roomed<SessionReport>;

/// What one worker tells.
#[derive(Drop)]
pub struct WorkerReport {
    /// Its sessions, in the order in which they ended.
    pub sessions: SessionReports,
    /// Whether one of its listeners failed.
    pub listen_failed: bool,
    /// Whether memory was wanting for a session or for its devices.
    pub no_memory: bool,
}
