//! The law of events, the contract of a call.
ghost use Rattle.gp_events.specs.Events.{EventsLaw};

/// Bytes that spell events are read as those events, and bytes that are read as events spell them.
pub fn events_law()
    ensures { EventsLaw }
{}
