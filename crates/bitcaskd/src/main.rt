//! A key-value store over a folder: `bitcaskd pipe DIR` holds a session with the client on standard input.
//!
//! `run` is the program; `main` gives it the words, the folder, the streams and the clock.
#![tactic(auto)]

ghost use Rattle.std.specs.Prelude.{IsTrue};
ghost use Rattle.bk_load.specs.Tidying.{NoneLent};

mod checking;
mod closing;
mod command;
mod drilling;
mod filling;
mod help;
mod listing;
mod opening;
mod piping;
mod progress_line;
mod run;
#[cfg(test)]
mod tests;

use bk_base::{Memory, Status};
use bk_disk::Disk;
use bk_memdisk::MemDisk;
use bk_osdisk::{OsClock, OsDisk, OsRefused, OsSink, OsSource};
use bk_progress::Progress;
use command::directory_of;
use progress_line::ProgressLine;
use run::{Ended, run};
use std::env;
use std::io::{ErrorKind, Print};
use std::process::ExitCode;

fn main(rt: HostRuntime) -> ExitCode {
    let Ok(words) = words_of(rt) else {
        return ended(rt, Status::Memory);
    };
    match words.as_slice() {
        [word] if word.as_str() == "--help" => ended(rt, print(rt, help::HELP)),
        [word] if word.as_str() == "--version" => ended(rt, print(rt, help::VERSION)),
        words => match directory_of(words) {
            Some(place) if place < words.len() => over_folder(rt, words, words[place].as_str()),
            _ => ended(rt, over_disk(rt, words, MemDisk::new(rt.alloc()))),
        },
    }
}

/// The words after the program's name; none where one isn't UTF-8, since no command has such a word.
fn words_of(rt: HostRuntime) -> Result<Vec<String>, Memory> {
    let mut words = Vec::new(rt.alloc());
    match env::args(&rt) {
        Ok(args) => {
            for word in args.skip(1) {
                words.push(word)?;
            }
        }
        Err(error) if error.kind() == ErrorKind::OutOfMemory => return Err(Memory),
        Err(_) => {}
    }
    Ok(words)
}

fn over_folder(rt: HostRuntime, words: &[String], dir: &str) -> ExitCode {
    match OsDisk::new(rt, dir) {
        Ok(disk) => ended(rt, over_disk(rt, words, disk)),
        Err(refused) => refused_folder(rt, refused),
    }
}

/// Runs the words over a disk and what is the system's. Where they name no folder the disk is an empty one in memory,
/// which isn't touched.
fn over_disk<D: Disk + Drop>(rt: HostRuntime, words: &[String], disk: D) -> Status
    requires { IsTrue D.tells → NoneLent (D.shown disk).told.fronts }
{
    let (mut source, mut sink, mut clock) = (OsSource::new(rt), OsSink::new(rt), OsClock::new(rt));
    let mut progress = ProgressLine::new(rt);
    let Ended { disk: _, status } = run(
        rt.alloc(),
        words,
        disk,
        &mut source,
        &mut sink,
        &mut clock,
        &mut progress,
    );
    // An opening that failed is left here.
    progress.finished();
    status
}

/// Prints a text; a write that fails is the output's fault.
fn print(rt: HostRuntime, text: &str) -> Status {
    match rt.write_all(text.as_bytes()) {
        Ok(()) => Status::Done,
        Err(_) => Status::Sink,
    }
}

/// Names the cause on standard error and gives the status. Where that can't be written, the status
/// still tells it.
fn ended(rt: HostRuntime, status: Status) -> ExitCode {
    if let Some(word) = word_of(status) {
        let _ = eprintln!(rt; "bitcaskd: {word}");
    }
    ExitCode::from(status.code())
}

fn refused_folder(rt: HostRuntime, refused: OsRefused) -> ExitCode {
    let _ = eprintln!(rt; "bitcaskd: {refused}");
    let status = match refused {
        OsRefused::Directory(_) | OsRefused::Lock => Status::Disk,
        OsRefused::Memory => Status::Memory,
    };
    ExitCode::from(status.code())
}

fn word_of(status: Status) -> Option<&'static str> {
    match status {
        Status::Done => None,
        Status::Memory => Some("memory"),
        Status::Words => Some("words"),
        Status::Disk => Some("disk"),
        Status::Source => Some("source"),
        Status::Sink => Some("sink"),
        Status::Syntax => Some("syntax"),
        Status::Settings => Some("settings"),
        Status::Damaged => Some("damaged"),
        Status::Full => Some("full"),
        Status::Long => Some("long"),
        Status::Door => Some("door"),
    }
}
