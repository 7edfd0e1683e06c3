//! A value that serves asks, and stands for a history.
ghost use Rattle.std.specs.Prelude.{◌≡◌, ℕ, ◌<◌, ◌^◌, List, [], ◌∷◌, ◌++◌, length, IfOk, IfErr, IsOk};

use std::alloc::AllocError;

/// A value under a turn. It stands for the history of all that it served: the list of the entries, oldest first.
pub trait Kept: Sized + Drop {
    /// What a caller asks.
    type Ask;

    /// What it is answered.
    type Answer;

    /// What the history keeps of one ask: who asked, and what.
    type Entry;

    /// The value stands for this history.
    ghost stands: { Self → List Self.Entry → Type 0 };

    /// The entry of an ask by the pass of this number.
    ghost entry: { ℕ → Self.Ask → Self.Entry };

    /// The number of the pass that made the entry.
    ghost number: { Self.Entry → ℕ };

    /// Which answers an entry may have after a history.
    ghost answers: { List Self.Entry → Self.Entry → Self.Answer → Type 0 };

    /// Which asks may be served.
    ghost may_serve: { Self.Ask → Type 0 };

    /// Which asks are never refused for want of memory.
    ghost always_serves: { Self.Ask → Type 0 };

    /// Serves one ask of the pass `who`: adds its entry to the history, or hands the ask back and adds none where
    /// memory is wanting. The history has fewer than 2^62 entries.
    fn serve(&mut self, who: u64, ask: Self::Ask) -> Result<Self::Answer, (Self::Ask, AllocError)>
        requires may { may_serve ask }
        requires room { (log : List Self.Entry) × stands self.old log × (length log < 2 ^ 62) }
        ensures ok { (log : List Self.Entry) → stands self.old log → IfOk result (λ a. answers log (entry who ask) a × stands self.new (log ++ entry who ask ∷ [])) }
        ensures err { (log : List Self.Entry) → stands self.old log → IfErr result (λ e. stands self.new log × (e.0 ≡ ask)) }
        ensures always { always_serves ask → IsOk result };

    ghost numbered: { (who : ℕ) (ask : Self.Ask) → number (entry who ask) ≡ who };
}
