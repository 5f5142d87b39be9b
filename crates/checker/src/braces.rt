// What the rows do that open or close a brace.
ghost use Rattle.std.specs.Prelude.{◌≡◌, ◌++◌, List};
ghost use Rattle.script.specs.Stand.{both};
ghost use Rattle.script.specs.declared.row.Row.{Row as RowOf};
ghost use Rattle.checker.specs.Machine.{opens, branches, joins, swaps, rises, enters, leaves, begins_region, ends_region};
ghost use Rattle.checker.specs.States.{Moves, MovesOver, MovesBehind, Popped, entry_at};

use crate::types::{Check, Frame, Standings};
use list::slots::set_at;
use script::row::Row;
use script::standing::Standing;
use std::mem;

impl Check {
    fn open(&mut self, from: usize)
        ensures { MovesBehind from self.old self.new opens }
    {
        self.frames.push(Frame {
            table: self.table,
            level: self.level,
            from,
            number: self.number,
            inside: self.inside,
        });
    }

    // What was kept where the brace opened that closes here.
    fn close(&mut self) -> Option<Frame>
        ensures { Popped self.old result self.new }
    {
        self.frames.pop()
    }

    // The condition's standing stays in the frame.
    pub(crate) fn branch(&mut self, from: usize)
        ensures { MovesBehind from self.old self.new branches }
    {
        self.open(from);
        self.level = Standing::Clean;
    }

    // The end of an if, which may have been passed over, or of an else, where either branch may have been
    // taken: the higher of both tables, and what the rows since set stands at least as high as the condition.
    pub(crate) fn join(&mut self, seen: &[Row])
        ensures { (rest : List RowOf) → MovesOver (seen.now ++ rest) self.old self.new (λ st. joins st.stack rest st) }
    {
        let Some(frame) = self.close() else {
            return;
        };
        self.table.join(&frame.table);
        if let Some(since) = seen.get(frame.from..) {
            self.table.raise(since, frame.level);
        }
    }

    // Between the branches: the first one's end is kept, and the second begins where the first began.
    pub(crate) fn swap(&mut self)
        ensures { Moves self.old self.new (λ st. swaps st.stack st) }
    {
        let Some(mut frame) = self.close() else {
            return;
        };
        mem::swap(&mut self.table, &mut frame.table);
        self.frames.push(frame);
    }

    // A repeat's entry, and the table where there is no such repeat.
    fn entry(&self, repeat: usize) -> Standings
        ensures { result.of ≡ entry_at self.now repeat }
    {
        self.entries.get(repeat).copied().unwrap_or(self.table)
    }

    // A repeat's entry rises to the table; the entry as it stands then.
    fn rise(&mut self, repeat: usize) -> Standings
        ensures moves { Moves self.old self.new (rises repeat) }
        ensures value { result.of ≡ both (entry_at self.old repeat) self.old.table.of }
    {
        let mut entry = self.entry(repeat);
        self.rose = self.rose || entry.is_exceeded(&self.table);
        entry.join(&self.table);
        set_at(&mut self.entries, repeat, entry);
        entry
    }

    // A repeat's body is walked with the higher of the table and the repeat's entry.
    pub(crate) fn enter(&mut self, from: usize)
        ensures { MovesBehind from self.old self.new enters }
    {
        self.open(from);
        self.table = self.rise(self.number);
        self.number = (self.number + 1).min(512);
    }

    // At a body's end the repeat's entry rises to it.
    pub(crate) fn leave(&mut self)
        ensures { Moves self.old self.new (λ st. leaves st.stack st) }
    {
        let Some(frame) = self.close() else {
            return;
        };
        self.rise(frame.number);
    }

    pub(crate) fn open_region(&mut self, from: usize)
        ensures { MovesBehind from self.old self.new begins_region }
    {
        self.open(from);
        if !self.inside {
            self.table.age();
        }
        self.inside = true;
    }

    pub(crate) fn close_region(&mut self)
        ensures { Moves self.old self.new (λ st. ends_region st.stack st) }
    {
        let Some(frame) = self.close() else {
            return;
        };
        if !frame.inside {
            self.table.age();
        }
        self.inside = frame.inside;
    }
}
