//! A stop: a crash leaves of the disk what was chosen, and a store is recovered from that.
ghost use Rattle.std.specs.Prelude.{◌≡◌, ◌++◌, ℕ, List, IfOk, OnOk, length, map, take};
ghost use Rattle.bk_load.specs.Tidying.{NoneLent};
ghost use Rattle.bk_memdisk.specs.Disk.{told_by};
ghost use Rattle.bk_drill.specs.Drills.{text_of};
ghost use Rattle.bk_drill.specs.Lines.{line_of_torn};
ghost use Rattle.bk_drill.specs.Progress.{IsRecovered, IsStopped, RunsAs, reopened_lines};
ghost use Rattle.bk_script.specs.declared.lines.Line.TheVariants.{Stop};
ghost use Rattle.bk_script.specs.declared.printed.Printed.{Printed as PrintedLine};

use crate::drills::Drill;
use bk_base::{Memory, Seq};
use bk_keydir::Torn;
use bk_load::recover;
use bk_memdisk::{Choice, MemDisk, Plan};
use bk_policy::Settings;
use bk_progress::Silent;
use bk_script::{Flips, Printed, write_line};
use bk_store::Store;
use std::alloc::Global;

/// A store that was recovered, and what is told of it.
#[derive(Drop)]
pub(crate) struct Recovered {
    pub(crate) store: Store<MemDisk>,
    pub(crate) torn: Vec<Torn>,
    pub(crate) seq: Seq,
    pub(crate) keys: u64,
    /// The calls that its disk has counted, of which none was chosen to fail.
    pub(crate) plan: Plan,
}

impl Drill {
    /// Stops: what was kept, the folds and the calls that were chosen to fail are gone. After an error the text
    /// begins as it was.
    pub(crate) fn stop(
        self,
        keep: Option<u64>,
        flips: Flips,
        text: &mut Vec<u8>,
    ) -> Result<Drill, Memory>
        ensures ok { IfOk result (λ drill. (lines : List PrintedLine)
            × (text.new.items ≡ text.old.items ++ text_of lines)
            × RunsAs (Stop keep flips) lines self drill) }
        ensures own { IfOk result (λ drill. (lines : List PrintedLine)
            × (text.new.items ≡ text.old.items ++ text_of lines)
            × IsStopped keep flips lines self drill) }
        ensures start { take (length text.old.items) text.new.items ≡ text.old.items }
    {
        let Drill {
            alloc,
            store,
            settings,
            now,
            loans: _,
            tallies: _,
            plan: _,
        } = self;
        let choice = Choice {
            keep,
            flips: flips.into_offsets(),
        };
        let disk = store.close().crash(&choice)?;
        let recovered = recover_store(alloc, disk, settings)?;
        write_reopened(&recovered, text)?;
        Drill::over(alloc, recovered.store, settings, now, recovered.plan)
    }
}

/// The store of what a crash left. Nothing is set to fail there, so that memory alone may be out.
pub(crate) fn recover_store(
    alloc: Global,
    mut disk: MemDisk,
    settings: Settings,
) -> Result<Recovered, Memory>
    requires { NoneLent (told_by disk).fronts }
    ensures { IfOk result (IsRecovered settings (told_by disk)) }
{
    let Ok(loaded) = recover(alloc, &mut disk, &mut Silent) else {
        return Err(Memory);
    };
    let seq = loaded.last_seq;
    let Ok(torn) = loaded.report.torn.to_vec(alloc) else {
        return Err(Memory);
    };
    let mut plan = Plan::new(alloc);
    plan.count_to(disk.calls());
    let mut store = Store::start(alloc, disk, loaded, settings);
    let keys = store.stat().keys;
    Ok(Recovered {
        store,
        torn,
        seq,
        keys,
        plan,
    })
}

/// Puts the lines of a stop behind the text. After an error the text begins as it was.
fn write_reopened(recovered: &Recovered, text: &mut Vec<u8>) -> Result<(), Memory>
    ensures ok { OnOk result (text.new.items ≡ text.old.items
        ++ text_of (reopened_lines recovered.now.seq recovered.now.keys recovered.now.torn.items)) }
    ensures start { take (length text.old.items) text.new.items ≡ text.old.items }
{
    let torn = recovered.torn.len() as u64;
    write_line(
        &Printed::Reopened {
            seq: recovered.seq,
            keys: recovered.keys,
            torn,
        },
        text,
    )?;
    write_torn(&recovered.torn, text)
}

/// Puts a line for each torn file behind the text. After an error the text begins as it was.
fn write_torn(torn: &[Torn], text: &mut Vec<u8>) -> Result<(), Memory>
    ensures ok { OnOk result (text.new.items ≡ text.old.items ++ text_of (map line_of_torn torn.now)) }
    ensures start { take (length text.old.items) text.new.items ≡ text.old.items }
{
    for file in torn {
        write_line(
            &Printed::Torn {
                file: file.file,
                at: file.at,
                bytes: file.bytes,
            },
            text,
        )?;
    }
    Ok(())
}
