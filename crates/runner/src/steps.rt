// Each kind of step, on a point of a run.
ghost use Rattle.std.specs.Prelude.{◌≡◌, ℕ, ◌+◌, ◌-◌, ◌^◌, ◌<◌, ◌≤◌, Bool, true, false, cond, List, length, slice_set};
ghost use Rattle.list.specs.Entries.{added};
ghost use Rattle.memory.specs.Calls.{Put, Open, Close};
ghost use Rattle.memory.specs.Model.{answer, after};
ghost use Rattle.memory.specs.Spent.{is_done, written};
ghost use Rattle.place.specs.Rows.{row_at};
ghost use Rattle.place.specs.Places.{spot, spot_of, behind_of, top_of};
ghost use Rattle.runs.specs.declared.types.Reading.{Reading as Entry};
ghost use Rattle.runner.specs.Stands.{Plant, stand, stand_of, plant_of, core_of};
ghost use Rattle.runner.specs.Walk.{walked, spent_by, looked, assign_rows, taken, read_stand, branch_at, fork_rows, repeat_stand, together_rows, turned, is_outermost, close_rows, open_rows, saves, saving, with_stand};

use crate::types::{Here, Job, Looked, Point, State, Step};
use evaluate::expression::evaluate;
use host::Host;
use list::Journal;
use list::slots::set_at;
use memory::{Memory, Spent};
use place::rows::{block_end, parts_end, row_at, rows_between};
use place::types::Frame;
use runs::types::Reading;
use script::fault::Fault;
use script::row::Role;

// What a call of the memory spent; a refused one nothing.
fn settled(answer: Result<Spent, Fault>) -> Spent
    ensures { result ≡ spent_by answer }
{
    answer.unwrap_or(Spent::Cut(0))
}

// Put, open and close are each one call of the trait, with memory and units as it has them, and with what the
// model's law adds to it: that no more units are spent than there are. A closure in their place would hide which call it is.

// Puts a value into a cell, as far as the units go.
fn put<M: Memory>(memory: &mut M, name: u32, value: i32, units: u32) -> Spent
    ensures said { result ≡ spent_by (answer M.Memory.model (M.Memory.state memory.old) (Put name value) units) }
    ensures left { M.Memory.state memory.new ≡ after M.Memory.model (M.Memory.state memory.old) (Put name value) units }
    ensures within { written result ≤ units }
{
    settled(memory.put(name, value, units))
}

// Opens the memory, as far as the units go.
fn open<M: Memory>(memory: &mut M, units: u32) -> Spent
    ensures said { result ≡ spent_by (answer M.Memory.model (M.Memory.state memory.old) Open units) }
    ensures left { M.Memory.state memory.new ≡ after M.Memory.model (M.Memory.state memory.old) Open units }
    ensures within { written result ≤ units }
{
    settled(memory.open(units))
}

// Closes the memory, as far as the units go.
fn close<M: Memory>(memory: &mut M, units: u32) -> Spent
    ensures said { result ≡ spent_by (answer M.Memory.model (M.Memory.state memory.old) Close units) }
    ensures left { M.Memory.state memory.new ≡ after M.Memory.model (M.Memory.state memory.old) Close units }
    ensures within { written result ≤ units }
{
    settled(memory.close(units))
}

impl Step {
    // A step that writes no word.
    pub(crate) fn free(stale: usize) -> Step
        ensures { result ≡ record { words = 0; stale = stale } }
    {
        Step { words: 0, stale }
    }
}

impl Point {
    // Sets a local, and goes on at the row; the first power call behind the name is given.
    fn set(&mut self, local: usize, value: i32, name: u32, first: u32, row: usize)
        ensures { stand_of self.new ≡ stand (spot row (spot_of self.old.place).frames) (slice_set self.old.locals local value) (slice_set (behind_of self.old.oldest) name first) }
    {
        self.set_local(local, value);
        self.pass(name, first, row);
    }

    fn set_local(&mut self, local: usize, value: i32)
        ensures { stand_of self.new ≡ stand (spot_of self.old.place) (slice_set self.old.locals local value) (behind_of self.old.oldest) }
    {
        set_at(&mut self.locals, local, value);
    }

    // Goes on at the row, past an assignment of the name.
    fn pass(&mut self, name: u32, first: u32, row: usize)
        ensures { stand_of self.new ≡ stand (spot row (spot_of self.old.place).frames) self.old.locals (slice_set (behind_of self.old.oldest) name first) }
    {
        self.oldest.put(name, first);
        self.place.go(row);
    }
}

impl Job {
    pub(crate) fn role_at(&self, row: usize) -> Role
        ensures { result ≡ (row_at (plant_of self.now).rows row).role }
    {
        row_at(self.script.rows(), row).role
    }

    pub(crate) fn value_at(&self, row: usize) -> u32
        ensures { result ≡ (row_at (plant_of self.now).rows row).value }
    {
        row_at(self.script.rows(), row).value
    }

    // Where the branch of an if begins, whose first block begins at the row: for the value 0 past the first
    // block, with its `} else {` where there is one.
    fn branch(&self, value: i32, from: usize) -> usize
        requires { from ≤ 2 ^ 63 }
        ensures { result ≡ branch_at (plant_of self.now) value from }
    {
        if value != 0 {
            return from;
        }
        let rows = self.script.rows();
        let end = block_end(rows, from);
        match row_at(rows, end).role {
            Role::ThenClose => end + 3,
            _ => end,
        }
    }
}

// A reading into the local that the row names, at the tick before the step's unit.
pub(crate) fn take<H: Host>(host: &H, channel: u32, tick: u32, call: u32) -> Reading
    ensures { (room : ℕ) → result ≡ taken (record { value = H.Host.value host.now; many = H.Host.many host.now; room = room }) channel tick call }
{
    let channel = channel.min(255) as u8;
    Reading {
        tick,
        channel,
        value: host.reading(channel, tick).unwrap_or(0),
        call,
    }
}

impl Here<'_> {
    // The expression, or the names, from the row on.
    fn look<M: Memory>(&self, at: &Point, memory: &M, from: usize) -> Looked
        requires { from < 2 ^ 62 }
        ensures seen { result ≡ looked M.Memory.model (plant_of self.now.job.now) (stand_of at.now) (M.Memory.state memory.now) self.now.call from }
        ensures few { result.stale ≤ 2048 }
        ensures low { result.end < 2 ^ 63 }
    {
        let rows = self.job.script.rows();
        let end = parts_end(rows, from);
        let part = rows_between(rows, from, end);
        Looked {
            value: evaluate(part, self.job.script.cells(), memory, &at.locals),
            first: at.oldest.first(part),
            stale: at.oldest.stale(part, &self.job.fresh, self.call),
            end,
        }
    }

    // An assignment. Here, below and in `set`, `within` is a clause of each call that writes, since it is a fact of
    // two values, the step and the units.
    pub(crate) fn assign<M: Memory>(&self, at: &mut Point, memory: &mut M, units: u32) -> Step
        ensures exact { (rs : List Entry) → walked result.words result.stale (stand_of at.new) (M.Memory.state memory.new) rs ≡ assign_rows M.Memory.model (plant_of self.now.job.now) (looked M.Memory.model (plant_of self.now.job.now) (stand_of at.old) (M.Memory.state memory.old) self.now.call (self.now.row + 2)) (stand_of at.old) (M.Memory.state memory.old) rs self.now.row units }
        ensures within { result.words ≤ units }
        ensures few { result.stale ≤ 2048 }
    {
        let seen = self.look(at, memory, self.row + 2);
        let name = self.job.value_at(self.row);
        let cells = self.job.script.cells();
        if (name as usize) < cells {
            let spent = put(memory, name, seen.value, units);
            if spent.is_done() {
                at.pass(name, seen.first, seen.end + 1);
            }
            return Step {
                words: spent.words(),
                stale: seen.stale,
            };
        }
        let local = name as usize - cells;
        at.set(local, seen.value, name, seen.first, seen.end + 1);
        Step::free(seen.stale)
    }

    // A reading: it is listed, and alone behind its local.
    pub(crate) fn read<L: Journal<Reading>>(&self, at: &mut Point, list: &mut L, reading: Reading)
        ensures stands { stand_of at.new ≡ read_stand (plant_of self.now.job.now) reading (stand_of at.old) self.now.row }
        ensures listed { L.Journal.entries list.new ≡ added (L.Journal.entries list.old) (L.Journal.room list.old) reading }
        ensures kept { L.Journal.room list.new ≡ L.Journal.room list.old }
    {
        let name = self.job.value_at(self.row);
        list.add(reading);
        let local = (name as usize).saturating_sub(self.job.script.cells());
        at.set(local, reading.value, name, reading.call, self.row + 5);
    }

    // The condition of an if: the first block where the value is not 0, else the second.
    pub(crate) fn fork<M: Memory>(&self, at: &mut Point, memory: &M) -> Step
        ensures exact { (rs : List Entry) → walked result.words result.stale (stand_of at.new) (M.Memory.state memory.now) rs ≡ fork_rows M.Memory.model (plant_of self.now.job.now) (looked M.Memory.model (plant_of self.now.job.now) (stand_of at.old) (M.Memory.state memory.now) self.now.call (self.now.row + 1)) (stand_of at.old) (M.Memory.state memory.now) rs }
        ensures few { result.stale ≤ 2048 }
    {
        let seen = self.look(at, memory, self.row + 1);
        let from = seen.end + 1;
        let branch = self.job.branch(seen.value, from);
        let frame = Frame::Join {
            from,
            first: seen.first,
        };
        at.place.enter(frame, branch);
        Step::free(seen.stale)
    }

    // The first turn of a repeat.
    pub(crate) fn begin_repeat(&self, at: &mut Point)
        ensures { stand_of at.new ≡ repeat_stand (plant_of self.now.job.now) (stand_of at.old) self.now.row }
    {
        let turns = self.job.value_at(self.row + 1);
        let from = self.row + 3;
        let frame = Frame::Turn {
            left: turns.saturating_sub(1),
            from,
        };
        at.place.enter(frame, from);
    }

    // A together.
    pub(crate) fn together<M: Memory>(&self, at: &mut Point, memory: &M) -> Step
        ensures exact { (rs : List Entry) → walked result.words result.stale (stand_of at.new) (M.Memory.state memory.now) rs ≡ together_rows M.Memory.model (plant_of self.now.job.now) (looked M.Memory.model (plant_of self.now.job.now) (stand_of at.old) (M.Memory.state memory.now) self.now.call (self.now.row + 1)) (stand_of at.old) (M.Memory.state memory.now) rs }
        ensures few { result.stale ≤ 2048 }
    {
        let seen = self.look(at, memory, self.row + 1);
        at.place.go(seen.end + 1);
        Step::free(seen.stale)
    }

    // The end of a region; that of an outermost one closes the memory.
    pub(crate) fn close_region<M: Memory>(&self, at: &mut Point, memory: &mut M, units: u32) -> Step
        ensures exact { (rs : List Entry) → walked result.words result.stale (stand_of at.new) (M.Memory.state memory.new) rs ≡ close_rows M.Memory.model (plant_of self.now.job.now) (stand_of at.old) (M.Memory.state memory.old) rs self.now.row units }
        ensures within { result.words ≤ units }
    {
        if !at.is_outermost() {
            at.place.leave(self.row + 1);
            return Step::free(0);
        }
        let spent = close(memory, units);
        if spent.is_done() {
            at.place.leave(self.row + 1);
        }
        Step {
            words: spent.words(),
            stale: 0,
        }
    }
}

impl Point {
    // One more turn of the innermost repeat.
    pub(crate) fn turn(&mut self)
        ensures { stand_of self.new ≡ turned (top_of (spot_of self.old.place).frames) (stand_of self.old) }
    {
        if let Some(Frame::Turn { left, from }) = self.place.top() {
            self.place.leave(from);
            let frame = Frame::Turn {
                left: left.saturating_sub(1),
                from,
            };
            self.place.enter(frame, from);
        }
    }

    // Whether the innermost brace is that of an outermost region.
    fn is_outermost(&self) -> bool
        ensures { result ≡ is_outermost (top_of (spot_of self.now.place).frames) }
    {
        self.place.top() == Some(Frame::Close { outermost: true })
    }
}

impl State {
    // The opening of a region at the row: an outermost one opens the memory, and keeps the point before it.
    pub(crate) fn open_region<M: Memory, L: Journal<Reading>>(
        &mut self,
        memory: &mut M,
        list: &L,
        row: usize,
        units: u32,
    ) -> Step
        requires { row < 2 ^ 61 }
        ensures exact { (g : Plant) (rs : List Entry) → walked result.words result.stale (core_of self.new).at (M.Memory.state memory.new) rs ≡ open_rows M.Memory.model g (core_of self.old).at (M.Memory.state memory.old) rs row units }
        ensures core { (g : Plant) → core_of self.new ≡ with_stand (core_of self.new).at (saving (saves M.Memory.model g (M.Memory.state memory.old) units) (length (L.Journal.entries list.now)) (core_of self.old)) }
        ensures within { result.words ≤ units }
    {
        if memory.is_open() {
            let frame = Frame::Close { outermost: false };
            self.at.place.enter(frame, row + 2);
            return Step::free(0);
        }
        let spent = open(memory, units);
        if spent.is_done() {
            self.saved = self.at;
            self.listed = list.count();
            let frame = Frame::Close { outermost: true };
            self.at.place.enter(frame, row + 2);
        }
        Step {
            words: spent.words(),
            stale: 0,
        }
    }
}
