//! What a server writes of its sessions.
ghost use Rattle.std.specs.Prelude.{◌≡◌, ◌<◌, ◌++◌, IfOk, OnOk, Some, length, slice_get, string_bytes};
ghost use Rattle.std.specs.List.{flat_map};
ghost use Rattle.gp_script.specs.Texts.{report_text};
ghost use Rattle.gp_serve.specs.ReportTexts.{end_words, session_line, session_text, worker_text, workers_text};

use gp_hub::SessionEnd;
use gp_plain::{HoldReport, HoldReports};
use gp_script::{add_report, cause_word};
use gp_workers::{SessionReport, SessionReports, WorkerReport};
use std::alloc::{AllocError, Global};

fn end_words(alloc: Global, end: SessionEnd) -> Result<String, AllocError>
    ensures { IfOk result (λ text. string_bytes text ≡ end_words end) }
{
    match end {
        SessionEnd::Sent(code) => format!(in alloc; "sent {code}"),
        SessionEnd::Cut(cause) => {
            let cause = cause_word(cause);
            format!(in alloc; "cut {cause}")
        }
        SessionEnd::ClientGone => String::from_str(alloc, "gone"),
        SessionEnd::Worn => String::from_str(alloc, "worn"),
        SessionEnd::NoMemory => String::from_str(alloc, "nomemory"),
    }
}

fn session_line(alloc: Global, report: &SessionReport) -> Result<String, AllocError>
    ensures { IfOk result (λ text. string_bytes text ≡ session_line report.now) }
{
    let claim = report.claim;
    let end = end_words(alloc, report.end)?;
    let end = end.as_str();
    format!(in alloc; "session {claim} {end}\n")
}

/// The report at a place.
fn hold_at(holds: &HoldReports, place: usize) -> &HoldReport
    requires { place < length holds.now.items }
    ensures { slice_get holds.now.items place ≡ Some result.now }
{
    match holds.at(place) {
        Some(report) => report,
        None => unreachable!(),
    }
}

/// The report at a place.
fn session_at(sessions: &SessionReports, place: usize) -> &SessionReport
    requires { place < length sessions.now.items }
    ensures { slice_get sessions.now.items place ≡ Some result.now }
{
    match sessions.at(place) {
        Some(report) => report,
        None => unreachable!(),
    }
}

/// Adds the lines of holds.
fn add_holds(alloc: Global, text: &mut String, holds: &HoldReports) -> Result<(), AllocError>
    ensures { OnOk result (string_bytes text.new ≡ string_bytes text.old ++ flat_map report_text holds.now.items) }
{
    for place in 0..holds.len() {
        add_report(alloc, text, hold_at(holds, place))?;
    }
    Ok(())
}

/// Adds the lines of a session.
fn add_session(alloc: Global, text: &mut String, report: &SessionReport) -> Result<(), AllocError>
    ensures { OnOk result (string_bytes text.new ≡ string_bytes text.old ++ session_text report.now) }
{
    let line = session_line(alloc, report)?;
    text.push_str(line.as_str())?;
    add_holds(alloc, text, &report.holds)
}

/// Adds the lines of a worker's sessions.
fn add_worker(alloc: Global, text: &mut String, worker: &WorkerReport) -> Result<(), AllocError>
    ensures { OnOk result (string_bytes text.new ≡ string_bytes text.old ++ worker_text worker.now) }
{
    for place in 0..worker.sessions.len() {
        add_session(alloc, text, session_at(&worker.sessions, place))?;
    }
    Ok(())
}

/// The lines of all sessions, worker by worker.
pub fn report_of(alloc: Global, workers: &[WorkerReport]) -> Result<String, AllocError>
    ensures { IfOk result (λ text. string_bytes text ≡ workers_text workers.now) }
{
    let mut text = String::new(alloc);
    for worker in workers {
        add_worker(alloc, &mut text, worker)?;
    }
    Ok(text)
}
