//! A drill from its script's first line to its end.
ghost use Rattle.std.specs.Prelude.{◌≡◌, ◌<◌, ◌≤◌, None, Some, drop, IsTrue, OnOk, IsErrOf};
ghost use Rattle.bk_disk.specs.Causes.{Rose};
ghost use Rattle.bk_drill.specs.Drills.{IsDrill, streams_of, telling, traffic};
ghost use Rattle.bk_drill.specs.Running.{Goes, GoesOn, RunsLine, SaysSyntax, work_left};
ghost use Rattle.bk_drill.specs.declared.drills.Drill.{Drill as AnyDrill};
ghost use Rattle.bk_exchange.specs.Sessions.{IsStart};
ghost use Rattle.bk_script.specs.Lines.{Fits};
ghost use Rattle.bk_script.specs.Script.{IsUnended, taken};

use crate::drills::Drill;
use crate::ends::DrillEnd;
use crate::inbox::{Inbox, Input};
use bk_disk::{Sink, Source, write_all};
use bk_policy::Settings;
use bk_script::{Line, Next, Printed, write_line};
use std::alloc::Global;

/// Runs a script over an empty disk in memory, and says how it ended. It takes at most `most` bytes. What a
/// line prints is written before the next line is run.
pub fn drill<S: Source, K: Sink>(alloc: Global, source: &mut S, sink: &mut K, most: u64) -> DrillEnd
    ensures drill { IsDrill (telling S.tells K.tells) most
        (traffic (streams_of (drop (S.taken source.old) (S.whole source.old)) (K.written sink.old))
        (streams_of (drop (S.taken source.new) (S.whole source.new)) (K.written sink.new))) result }
    ensures behind { IsTrue K.tells → IsStart (K.written sink.old) (K.written sink.new) }
    ensures whole { IsTrue S.tells → S.whole source.new ≡ S.whole source.old }
    ensures took { S.faults source.old ≤ S.faults source.new }
    ensures source { result ≡ DrillEnd.Source → Rose (S.faults source.old) (S.faults source.new) }
    ensures wrote { K.faults sink.old ≤ K.faults sink.new }
    ensures sink { result ≡ DrillEnd.Sink → Rose (K.faults sink.old) (K.faults sink.new) }
{
    let Ok(mut drill) = Drill::new(alloc, Settings::plain()) else {
        return DrillEnd::Memory;
    };
    let Ok(mut inbox) = Inbox::new(alloc, most) else {
        return DrillEnd::Memory;
    };
    let mut text = Vec::new(alloc);
    'lines: loop {
        match step(drill, source, sink, &mut inbox, &mut text) {
            Ok(next) => drill = next,
            Err(end) => return end,
        }
    }
}

/// Runs the next line, or reads on. `Err` says how the drill ends.
fn step<S: Source, K: Sink>(
    drill: Drill,
    source: &mut S,
    sink: &mut K,
    inbox: &mut Inbox,
    text: &mut Vec<u8>,
) -> Result<Drill, DrillEnd>
    ensures goes { Goes result (telling S.tells K.tells) drill
        (streams_of (drop (S.taken source.old) (S.whole source.old)) (K.written sink.old)) inbox.old
        (streams_of (drop (S.taken source.new) (S.whole source.new)) (K.written sink.new)) inbox.new }
    ensures fewer { OnOk result (work_left inbox.new < work_left inbox.old) }
    ensures most { inbox.new.most ≡ inbox.old.most }
    ensures whole { IsTrue S.tells → S.whole source.new ≡ S.whole source.old }
    ensures took { S.faults source.old ≤ S.faults source.new }
    ensures source { IsErrOf result DrillEnd.Source → Rose (S.faults source.old) (S.faults source.new) }
    ensures wrote { K.faults sink.old ≤ K.faults sink.new }
    ensures sink { IsErrOf result DrillEnd.Sink → Rose (K.faults sink.old) (K.faults sink.new) }
{
    match inbox.next() {
        Ok(Next::Line(line)) => run_line(drill, sink, line, text),
        Ok(Next::Need) => match read_on(source, sink, inbox, text) {
            None => Ok(drill),
            Some(end) => Err(end),
        },
        Ok(Next::Bad(offset)) => Err(end_at(offset, sink, text)),
        Err(_) => Err(DrillEnd::Memory),
    }
}

/// Runs a line, and writes what it prints.
fn run_line<K: Sink>(
    drill: Drill,
    sink: &mut K,
    line: Line,
    text: &mut Vec<u8>,
) -> Result<Drill, DrillEnd>
    requires { Fits line }
    ensures runs { RunsLine result line drill K.tells (K.written sink.old) (K.written sink.new) }
    ensures wrote { K.faults sink.old ≤ K.faults sink.new }
    ensures sink { IsErrOf result DrillEnd.Sink → Rose (K.faults sink.old) (K.faults sink.new) }
{
    text.clear();
    match drill.run(line, text) {
        Ok(next) => match write_all(sink, text) {
            Ok(()) => Ok(next),
            Err(_) => Err(DrillEnd::Sink),
        },
        Err(_) => Err(DrillEnd::Memory),
    }
}

/// Reads on. `None` where the drill goes on with more bytes.
fn read_on<S: Source, K: Sink>(
    source: &mut S,
    sink: &mut K,
    inbox: &mut Inbox,
    text: &mut Vec<u8>,
) -> Option<DrillEnd>
    requires unended { IsUnended inbox.old.rest }
    ensures goes { (drill : AnyDrill) → GoesOn result (telling S.tells K.tells) drill
        (streams_of (drop (S.taken source.old) (S.whole source.old)) (K.written sink.old)) inbox.old
        (streams_of (drop (S.taken source.new) (S.whole source.new)) (K.written sink.new)) inbox.new }
    ensures fewer { result ≡ None → work_left inbox.new < work_left inbox.old }
    ensures most { inbox.new.most ≡ inbox.old.most }
    ensures whole { IsTrue S.tells → S.whole source.new ≡ S.whole source.old }
    ensures took { S.faults source.old ≤ S.faults source.new }
    ensures source { result ≡ Some DrillEnd.Source → Rose (S.faults source.old) (S.faults source.new) }
    ensures wrote { K.faults sink.old ≤ K.faults sink.new }
    ensures sink { result ≡ Some DrillEnd.Sink → Rose (K.faults sink.old) (K.faults sink.new) }
{
    match inbox.read_on(source) {
        Input::Taken => None,
        Input::Ended => match inbox.rest() {
            None => Some(DrillEnd::End),
            Some(offset) => Some(end_at(offset, sink, text)),
        },
        Input::Long => Some(DrillEnd::Long),
        Input::Failed => Some(DrillEnd::Source),
        Input::Memory => Some(DrillEnd::Memory),
    }
}

/// Ends the drill where no line stands at this offset: SYNTAX is the last line.
fn end_at<K: Sink>(offset: u64, sink: &mut K, text: &mut Vec<u8>) -> DrillEnd
    ensures says { SaysSyntax offset result K.tells (K.written sink.old) (K.written sink.new) }
    ensures wrote { K.faults sink.old ≤ K.faults sink.new }
    ensures sink { result ≡ DrillEnd.Sink → Rose (K.faults sink.old) (K.faults sink.new) }
{
    text.clear();
    if write_line(&Printed::Syntax(offset), text).is_err() {
        return DrillEnd::Memory;
    }
    match write_all(sink, text) {
        Ok(()) => DrillEnd::Syntax(offset),
        Err(_) => DrillEnd::Sink,
    }
}
