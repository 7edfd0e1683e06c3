//! What every session can do.
ghost use Rattle.std.specs.Prelude.{◌≡◌};
ghost use Rattle.gp_hub.specs.Sessions.{HasPolled};

/// What a poll brings: the output, or nothing yet.
#[derive(Drop)]
pub enum Polled<T> {
    /// The session has ended, with this output.
    Ready(T),
    /// It waits for a device or for the hub.
    Pending,
}

/// A session is polled again and again until it gives its output.
pub trait Session {
    type Output;

    /// Whether the session has ended.
    ghost ended: { Self → Type 0 };

    /// Which outputs a poll may give in this state.
    ghost may_give: { Self → Self.Output → Type 0 };

    /// Does what can be done without waiting. An output is one that the session might give, and ends it. After
    /// `Pending` it goes on, and may give no output that it couldn't give before.
    fn poll(&mut self) -> Polled<Self::Output>
        requires open { ended self.old → ⊥ }
        ensures { HasPolled ended may_give self.old self.new result };
}
