//! The pages by which a stream recovers what it missed.
//!
//! A page is an origin's answer to a request that tells the last id of a channel. Its content is what follows that id, and its instruction says
//! up to which id it goes and what follows it. `PageReader` reads one, part by part, and `Recovery` asks for one in a talk. The specs of a page are
//! `Pages` and `Reading`. Those of a talk are read in the order `Views`, `Outcomes`, `Standing`, `Moves`. It stands on the exchange of `gp_exchange`
//! and on the readers of instructions, and has no handle.
#![tactic(auto)]

mod heading;
mod page;
mod reader;
mod reading;
mod recovered;
mod recovery;
mod stage;
mod unbegun;

pub use page::{Page, PageFault};
pub use reader::{PageReader, Unread};
pub use recovered::Recovered;
pub use recovery::Recovery;
