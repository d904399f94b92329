//! A drill between two lines of its script.
ghost use Rattle.std.specs.Prelude.{◌≡◌, ◌≤◌, ◌++◌, List, IfOk, length, take};
ghost use Rattle.bk_drill.specs.Drills.{text_of};
ghost use Rattle.bk_drill.specs.Progress.{ActsAs, IsNew, IsOver, RunsAs};
ghost use Rattle.bk_script.specs.Lines.{Fits};
ghost use Rattle.bk_script.specs.declared.lines.Line.TheVariants.{By};
ghost use Rattle.bk_script.specs.declared.printed.Printed.{Printed as PrintedLine};

use crate::faults::calls_made;
use crate::loans::Loans;
use crate::plans::is_as_planned;
use crate::stops::{Recovered, recover_store};
use crate::tallies::Tallies;
use bk_base::{Memory, Moment};
use bk_memdisk::{MemDisk, Plan};
use bk_policy::Settings;
use bk_script::{Action, Actor, Line, Printed, write_line};
use bk_store::Store;
use std::alloc::Global;

/// A drill: its store, the moment, what the actors keep to be read, how far their folds are, and which calls of the
/// disk were chosen to fail.
#[derive(Drop)]
pub(crate) struct Drill {
    pub(crate) alloc: Global,
    pub(crate) store: Store<MemDisk>,
    pub(crate) settings: Settings,
    pub(crate) now: Moment,
    pub(crate) loans: Loans,
    pub(crate) tallies: Tallies,
    /// The calls of the disk that were made, and those that were chosen to fail. The store's answers don't say which
    /// call of its disk failed, so the drill notes them too.
    pub(crate) plan: Plan,
}

impl Drill {
    /// A drill over an empty disk.
    pub(crate) fn new(alloc: Global, settings: Settings) -> Result<Drill, Memory>
        ensures { IfOk result (IsNew settings) }
    {
        let Recovered { store, plan, .. } = recover_store(alloc, MemDisk::new(alloc), settings)?;
        Drill::over(alloc, store, settings, Moment(0), plan)
    }

    /// A drill over this store, with nothing kept.
    pub(crate) fn over(
        alloc: Global,
        store: Store<MemDisk>,
        settings: Settings,
        now: Moment,
        plan: Plan,
    ) -> Result<Drill, Memory>
        ensures { IfOk result (IsOver store settings now plan) }
    {
        let loans = Loans::new(alloc)?;
        let tallies = Tallies::new(alloc)?;
        Ok(Drill {
            alloc,
            store,
            settings,
            now,
            loans,
            tallies,
            plan,
        })
    }

    /// Does what an actor does, and gives the line that it prints.
    pub(crate) fn act(&mut self, actor: Actor, action: Action) -> Printed
        requires { actor.0 ≤ 26 }
        ensures { ActsAs actor.0 action result self.old self.new }
    {
        match action {
            Action::Put { key, value } => self.put(key, value),
            Action::Big { key, len } => self.put_big(key, len),
            Action::Delete(key) => self.delete(&key),
            Action::Reap(key) => self.reap(&key),
            Action::Get(key) => self.get(actor, &key),
            Action::Read => self.read(actor),
            Action::Sync => self.sync(),
            Action::Fold => self.fold(actor),
            Action::Next(slot) => self.next(actor, slot),
            Action::End(slot) => self.end(actor, slot),
        }
    }

    /// Does what an actor does, and puts its line behind the text. The calls of the disk that it made are counted. It
    /// ends where they don't go with what was chosen, which never happens: so it is shown without a word of the disk in
    /// the contracts of the store.
    fn act_as_planned(
        mut self,
        actor: Actor,
        action: Action,
        text: &mut Vec<u8>,
    ) -> Result<Drill, Memory>
        requires { actor.0 ≤ 26 }
        ensures ok { IfOk result (λ drill. (lines : List PrintedLine)
            × (text.new.items ≡ text.old.items ++ text_of lines) × RunsAs (By actor action) lines self drill) }
        ensures start { take (length text.old.items) text.new.items ≡ text.old.items }
    {
        let line = self.act(actor, action);
        let (store, calls) = calls_made(self.store);
        self.store = store;
        if !is_as_planned(&self.plan, calls, &line) {
            return Err(Memory);
        }
        self.plan.count_to(calls);
        write_line(&line, text)?;
        Ok(self)
    }

    /// Runs a line, and puts the lines that it prints behind the text. After an error the text begins as it was.
    pub(crate) fn run(mut self, line: Line, text: &mut Vec<u8>) -> Result<Drill, Memory>
        requires { Fits line }
        ensures ok { IfOk result (λ drill. (lines : List PrintedLine)
            × (text.new.items ≡ text.old.items ++ text_of lines) × RunsAs line lines self drill) }
        ensures start { take (length text.old.items) text.new.items ≡ text.old.items }
    {
        let settings = self.settings;
        match line {
            Line::Max(max_file) => Drill::new(
                self.alloc,
                Settings {
                    max_file,
                    ..settings
                },
            ),
            Line::Ttl(ttl) => Drill::new(self.alloc, Settings { ttl, ..settings }),
            Line::At(now) => {
                self.now = now;
                Ok(self)
            }
            Line::Fail { nth, effect } => self.fail(nth, effect, text),
            Line::Fuse { calls, effect } => Ok(self.fuse(calls, effect)),
            Line::By(actor, action) => self.act_as_planned(actor, action, text),
            Line::Stop { keep, flips } => self.stop(keep, flips, text),
        }
    }
}
