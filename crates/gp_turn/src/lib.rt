//! One history for many callers, without waiting.
//!
//! A [`Turn`] keeps a value that serves asks one after another, and that stands for the history of what it served.
//! Callers share the turn by reference, and each has a [`Pass`]: a token that knows which history it has seen, and owns
//! a range of numbers that no other pass has. A call that finds the turn taken is answered `Busy` at once.
//! It stands on `atomic_table`, and has no handle.
#![tactic(auto)]

mod call;
mod crossing;
mod fault;
mod join;
mod kept;
mod pass;
mod range;
mod split;
mod steps;
mod turn;
mod view;

pub use fault::TurnFault;
pub use kept::Kept;
pub use pass::Pass;
pub use range::Range;
pub use turn::Turn;

#[cfg(test)]
mod tests;
