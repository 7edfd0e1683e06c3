//! What makes the sessions of a server: those of clients, and those of publishers.
//!
//! `specs/Meanings.antt` says what is meant by what a session leaves, with a case for each kind of session. It stands on the
//! sessions, and on `gp_workers`, whose workers ask a maker for them.
#![tactic(auto)]

mod client;
mod crossing;
mod publisher;
mod server;

pub use client::Serving;
pub use publisher::Publishing;
pub use server::Server;
