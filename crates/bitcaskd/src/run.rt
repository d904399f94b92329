//! The program: from its words, a disk and two streams to a status.
ghost use Rattle.std.specs.Prelude.{◌≡◌, ◌⊎◌, IsTrue, map, string_bytes};
ghost use Rattle.bk_disk.specs.Causes.{Rose};
ghost use Rattle.bk_disk.specs.Shown.{DiskShown};
ghost use Rattle.bk_load.specs.Tidying.{NoneLent};
ghost use Rattle.bitcaskd.specs.Commands.{Does, MayEnd, Works};
ghost use Rattle.bitcaskd.specs.Opening.{IsRested, Opens};
ghost use Rattle.bitcaskd.specs.Run.{Refuses, outside, telling};
ghost use Rattle.bitcaskd.specs.Words.{AsksFor, IsCommand, NamesDirectory};
ghost use Rattle.bitcaskd.specs.declared.command.Command.{Command};
ghost use Rattle.bitcaskd.specs.declared.command.Command.TheVariants.{Open};

use crate::checking::check;
use crate::command::{Command, Work, command_of};
use crate::drilling::run_script;
use crate::filling::fill_store;
use crate::listing::list_store;
use crate::opening::open_store;
use crate::piping::pipe_store;
use bk_base::Status;
use bk_disk::{Clock, Disk, Sink, Source};
use bk_progress::Progress;
use bk_store::Store;
use std::alloc::Global;

/// What a run gives back: the disk, and how the run ended.
pub struct Ended<D> {
    pub disk: D,
    pub status: Status,
}

/// Opens the directory of a disk, and works on its store.
fn over_disk<D: Disk, S: Source, K: Sink, C: Clock, P: Progress>(
    alloc: Global,
    work: Work,
    disk: D,
    source: &mut S,
    sink: &mut K,
    clock: &mut C,
    progress: &mut P,
) -> Ended<D>
    requires { IsTrue D.tells → NoneLent (D.shown disk).told.fronts }
    ensures ran { let tells = telling D.tells S.tells K.tells C.tells in
        let old = outside (D.shown disk)
        (S.whole source.old) (S.taken source.old) (K.written sink.old) (K.faults sink.old) (C.moments clock.old) in
        let new = outside (D.shown result.disk) (S.whole source.new) (S.taken source.new) (K.written sink.new) (K.faults sink.new)
        (C.moments clock.new) in
        Refuses tells old new result.status ⊎ Works work tells old new result.status }
    ensures ends { MayEnd (Open work) result.status }
    ensures disk { result.status ≡ Status.Disk → Rose (D.shown disk).faults (D.shown result.disk).faults
        ⊎ Rose (D.shown disk).views (D.shown result.disk).views }
    ensures source { result.status ≡ Status.Source
        → Rose (S.faults source.old) (S.faults source.new) }
    ensures sink { result.status ≡ Status.Sink → Rose (K.faults sink.old) (K.faults sink.new) }
{
    match open_store(alloc, disk, progress) {
        Ok(store) => over_store(alloc, work, store, source, sink, clock, progress),
        Err((disk, status)) => Ended { disk, status },
    }
}

/// Works on a store that was opened.
fn over_store<D: Disk, S: Source, K: Sink, C: Clock, P: Progress>(
    alloc: Global,
    work: Work,
    store: Store<D>,
    source: &mut S,
    sink: &mut K,
    clock: &mut C,
    progress: &mut P,
) -> Ended<D>
    requires { IsRested store }
    ensures ran { (was : DiskShown) → Opens D.tells was store → Works work (telling D.tells S.tells K.tells C.tells)
        (outside was (S.whole source.old) (S.taken source.old)
        (K.written sink.old) (K.faults sink.old) (C.moments clock.old))
        (outside (D.shown result.disk) (S.whole source.new) (S.taken source.new) (K.written sink.new) (K.faults sink.new)
        (C.moments clock.new)) result.status }
    ensures ends { MayEnd (Open work) result.status }
    ensures disk { result.status ≡ Status.Disk → Rose store.files.faults (D.shown result.disk).faults
        ⊎ Rose store.files.fallible_views (D.shown result.disk).views }
    ensures source { result.status ≡ Status.Source
        → Rose (S.faults source.old) (S.faults source.new) }
    ensures sink { result.status ≡ Status.Sink → Rose (K.faults sink.old) (K.faults sink.new) }
{
    match work {
        Work::Pipe => pipe_store(alloc, store, source, sink, clock),
        Work::List => list_store(alloc, store, sink, clock),
        Work::Fill(count) => fill_store(alloc, store, sink, clock, count, progress),
    }
}

/// Does what the words ask for, over a directory in any state that a crash may leave. The status says how it
/// ended. A session and the sync behind it are one history of a map.
pub fn run<D: Disk, S: Source, K: Sink, C: Clock, P: Progress>(
    alloc: Global,
    words: &[String],
    disk: D,
    source: &mut S,
    sink: &mut K,
    clock: &mut C,
    progress: &mut P,
) -> Ended<D>
    requires { IsTrue D.tells → NoneLent (D.shown disk).told.fronts }

    // Words that aren't those of a command are refused before anything is touched. A drill touches the streams alone.
    ensures words { ¬ (IsCommand (map string_bytes words.now)) → result.status ≡ Status.Words }
    ensures disk_same { ¬ (NamesDirectory (map string_bytes words.now)) → result.disk ≡ disk }
    ensures source_same { ¬ (IsCommand (map string_bytes words.now)) → source.new ≡ source.old }
    ensures sink_same { ¬ (IsCommand (map string_bytes words.now)) → sink.new ≡ sink.old }
    ensures clock_same { ¬ (NamesDirectory (map string_bytes words.now)) → clock.new ≡ clock.old }

    // Otherwise the directory isn't opened, or the run does what the command says.
    ensures ran { let tells = telling D.tells S.tells K.tells C.tells in
        let old = outside (D.shown disk)
        (S.whole source.old) (S.taken source.old) (K.written sink.old) (K.faults sink.old) (C.moments clock.old) in
        let new = outside (D.shown result.disk) (S.whole source.new) (S.taken source.new) (K.written sink.new) (K.faults sink.new)
        (C.moments clock.new) in
        (command : Command) → AsksFor command (map string_bytes words.now) → Does command tells old new result.status }

    // Each status other than `Done` has its cause; `Memory` alone is free.
    ensures ends { (command : Command) → AsksFor command (map string_bytes words.now) → MayEnd command result.status }
    ensures disk { result.status ≡ Status.Disk → Rose (D.shown disk).faults (D.shown result.disk).faults
        ⊎ Rose (D.shown disk).views (D.shown result.disk).views }
    ensures source { result.status ≡ Status.Source
        → Rose (S.faults source.old) (S.faults source.new) }
    ensures sink { result.status ≡ Status.Sink → Rose (K.faults sink.old) (K.faults sink.new) }
{
    match command_of(words) {
        Some(Command::Open(work)) => over_disk(alloc, work, disk, source, sink, clock, progress),
        Some(Command::Check) => check(alloc, disk, sink, progress),
        Some(Command::Drill) => Ended {
            disk,
            status: run_script(alloc, source, sink),
        },
        None => Ended {
            disk,
            status: Status::Words,
        },
    }
}
