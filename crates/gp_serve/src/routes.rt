//! The read of a routes file.
ghost use Rattle.std.specs.Prelude.{MatchResult};
ghost use Rattle.gp_replay.specs.Loads.{IsContent};
ghost use Rattle.gp_serve.specs.RoutesRead.{AreRead, AreUnread};

use gp_outside::{FileRead, Files};
use gp_plain::Body;
use gp_replay::Status;
use gp_routes::{RouteFault, Routes, read_routes};
use std::alloc::Global;

/// The bytes of a file, at most.
const FILE: usize = 16777216;

/// The content of the file at a path, or the status that a run ends with.
fn content_of<F: Files>(path: &str, files: &mut F) -> Result<Body, Status>
    ensures { MatchResult result (IsContent (record { content = F.content files.old path.now; faults = F.faults files.old; faults_after = F.faults files.new })) (AreUnread (record { content = F.content files.old path.now; faults = F.faults files.old; faults_after = F.faults files.new })) }
{
    let content = match files.read(path) {
        FileRead::Took(content) => content,
        FileRead::TooLong => return Err(Status::TooLong),
        FileRead::Failed => return Err(Status::FileFault),
        FileRead::NoMemory => return Err(Status::NoMemory),
    };
    if content.len() > FILE {
        return Err(Status::TooLong);
    }
    Ok(content)
}

/// The routes of the file at a path, or the status that a run ends with.
pub fn routes_at<F: Files>(alloc: Global, path: &str, files: &mut F) -> Result<Routes, Status>
    ensures { MatchResult result (AreRead (record { content = F.content files.old path.now; faults = F.faults files.old; faults_after = F.faults files.new })) (AreUnread (record { content = F.content files.old path.now; faults = F.faults files.old; faults_after = F.faults files.new })) }
{
    let content = content_of(path, files)?;
    match read_routes(alloc, content.bytes()) {
        Ok(routes) => Ok(routes),
        Err(RouteFault::Line { line, .. }) => Err(Status::BadLine(line)),
        Err(RouteFault::NoMemory) => Err(Status::NoMemory),
    }
}
