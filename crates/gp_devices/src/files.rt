use crate::words::{body, number, push_bytes, turns};
use gp_outside::{
    FileRead, Files, Kits, MemClock, MemFiles, MemOut, MemWorld, Out, Times, World, write_all,
};
use gp_plain::Body;
use std::alloc::{AllocError, Global};

fn file(alloc: Global, content: &str, reads: &str) -> Result<MemFiles, AllocError> {
    let path = Body::new(alloc, b"script")?;
    let content = body(alloc, content)?;
    Ok(MemFiles::new(alloc, path, content, turns(alloc, reads)?))
}

/// Adds what a read gave: the content, or the answer's name.
fn push_read(text: &mut String, read: &FileRead) -> Result<(), AllocError> {
    match read {
        FileRead::Took(body) => push_bytes(text, body.bytes()),
        FileRead::TooLong => text.push_str("TooLong"),
        FileRead::Failed => text.push_str("Failed"),
        FileRead::NoMemory => text.push_str("NoMemory"),
    }
}

fn push_write<O: Out>(text: &mut String, out: &mut O, bytes: &[u8]) -> Result<(), AllocError> {
    if bytes.is_empty() {
        return Ok(());
    }
    write!(text, "{:?} ", out.write(bytes))
}

fn push_writes(text: &mut String, out: &mut MemOut, calls: &[&str]) -> Result<(), AllocError> {
    for call in calls {
        push_write(text, out, call.as_bytes())?;
    }
    push_bytes(text, out.written())
}

/// `sink ROOM TURNS BYTES..`: what each write of the bytes does, and all that was written.
pub fn sink(alloc: Global, text: &mut String, words: &[&str]) -> Result<(), AllocError> {
    let [room, writes, calls @ ..] = words else {
        return Ok(());
    };
    let mut out = MemOut::new(alloc, number(room), turns(alloc, writes)?)?;
    push_writes(text, &mut out, calls)
}

fn push_reads(text: &mut String, files: &mut MemFiles, paths: &[&str]) -> Result<(), AllocError> {
    for path in paths {
        push_read(text, &files.read(path))?;
        text.push(' ')?;
    }
    Ok(())
}

/// `file CONTENT TURNS PATH..`: what each read at a path gives of the file `script`.
pub fn reads(alloc: Global, text: &mut String, words: &[&str]) -> Result<(), AllocError> {
    let [content, reads, paths @ ..] = words else {
        return Ok(());
    };
    let mut files = file(alloc, content, reads)?;
    push_reads(text, &mut files, paths)
}

/// Writes a file twice to the sink, and says whether all of it was written.
fn copy_twice<W: World>(world: &mut W, path: &str) -> bool {
    let FileRead::Took(body) = world.files().read(path) else {
        return false;
    };
    write_all(world.out(), body.bytes()) && write_all(world.out(), body.bytes())
}

fn made_world(
    alloc: Global,
    content: &str,
    room: usize,
    writes: &str,
) -> Result<MemWorld, AllocError> {
    let out = MemOut::new(alloc, room, turns(alloc, writes)?)?;
    let clock = MemClock::new(Times::new(alloc));
    let kits = Kits::new(alloc);
    Ok(MemWorld::new(alloc, file(alloc, content, "-")?, out, clock, kits))
}

fn push_copies(text: &mut String, world: &mut MemWorld, paths: &[&str]) -> Result<(), AllocError> {
    for path in paths {
        write!(text, "{} ", copy_twice(world, path))?;
    }
    push_bytes(text, world.out().written())
}

/// `world CONTENT ROOM TURNS PATH..`: whether the file at each path was written twice, and all that was written.
pub fn world(alloc: Global, text: &mut String, words: &[&str]) -> Result<(), AllocError> {
    let [content, room, writes, paths @ ..] = words else {
        return Ok(());
    };
    let mut world = made_world(alloc, content, number(room), writes)?;
    push_copies(text, &mut world, paths)
}
