//! One session as a future.
ghost use Rattle.std.specs.Prelude.{◌≡◌, false};

use futures::Future;
use futures::task::{Context, Poll};
use gp_hub::{Polled, Session};

/// A session as a future, for a caller that runs one alone. It gives what the session gives. Where the session waits
/// it yields, and is polled again. After it was ready it is pending for good.
#[derive(Drop)]
pub struct Driven<S> {
    session: S,
    is_over: bool,
}

impl<S: Session + Drop> Driven<S> {
    /// The future of a session that hasn't ended. It takes no memory.
    pub fn new(session: S) -> Driven<S>
        requires { S.ended session → ⊥ }
        ensures { (result.session ≡ session) × (result.is_over ≡ false) }
    {
        Driven {
            session,
            is_over: false,
        }
    }
}

impl<S: Session + Drop> Future for Driven<S> {
    type Output = S::Output;

    ghost can_poll = { λ d. d.is_over ≡ false → S.ended d.session → ⊥ };

    ghost gives = { λ d output. (d.is_over ≡ false) × S.may_give d.session output };

    fn poll(&mut self, cx: &mut Context<'_>) -> Poll<S::Output> {
        if self.is_over {
            return cx.yield_now();
        }
        match self.session.poll() {
            Polled::Ready(output) => {
                self.is_over = true;
                Poll::Ready(output)
            }
            Polled::Pending => cx.yield_now(),
        }
    }
}
