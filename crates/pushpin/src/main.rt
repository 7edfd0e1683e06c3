//! The program: `run` on the words of the command line, over the devices of the system.
//!
//! It answers `--help` and `--version` itself. It stands on `gp_proxy` and on the devices of `gp_net`, which tell no bytes.
#![tactic(auto)]

mod asked;
mod ends;
mod texts;

use asked::question;
use ends::end;
use gp_net::{NetOut, NetWorld};
use gp_proxy::{Registry, Status, run};
use std::process::ExitCode;
use std::{env, io};

/// The words after the program's name. One that isn't UTF-8 makes the command line faulty.
fn words(rt: &HostRuntime) -> Result<Vec<String>, Status> {
    match env::args(rt) {
        Ok(args) => match args.skip(1).collect(rt.alloc()) {
            Ok(words) => Ok(words),
            Err(_) => Err(Status::NoMemory),
        },
        Err(fault) if fault.kind() == io::ErrorKind::OutOfMemory => Err(Status::NoMemory),
        Err(_) => Err(Status::Usage(0)),
    }
}

/// The answer to words that the program answers itself, and how that went.
fn answered(rt: &HostRuntime, words: &[String]) -> Option<Status> {
    let asked = question(words)?;
    match print!(rt; "{}", asked.answer()) {
        Ok(()) => Some(Status::Done),
        Err(_) => Some(Status::SinkFault),
    }
}

fn main(rt: HostRuntime) -> ExitCode {
    let status = match words(&rt) {
        Ok(words) => match answered(&rt, words.as_slice()) {
            Some(status) => status,
            None => {
                let mut registry = Registry::new(rt.alloc());
                let mut world = NetWorld::new(rt.alloc(), rt, io::writer(&rt));
                run(&rt, rt.alloc(), words.as_slice(), &mut registry, &mut world)
            }
        },
        Err(status) => status,
    };
    ExitCode::from(end(rt.alloc(), status, &mut NetOut::new(rt.stderr())))
}
