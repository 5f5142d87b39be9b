// What each row does to the check.
ghost use Rattle.std.specs.Prelude.{◌≡◌, false, true, List, ◌∷◌, ◌++◌, replicate, slice_index_or};
ghost use Rattle.script.specs.declared.row.Row.{Row as RowOf};
ghost use Rattle.script.specs.declared.standing.Standing.TheVariants.{Clean};
ghost use Rattle.checker.specs.Machine.{noted, reads_name, lists, sets, step, run, begun};
ghost use Rattle.checker.specs.States.{tables, state_of, Moves, MovesOver};

use crate::table::reading_at;
use crate::types::{Check, Standings};
use list::fixed::Fixed;
use list::slots::set_at;
use script::row::{Role, Row};
use script::standing::Standing;

impl Check {
    pub(crate) fn new() -> Check
        ensures { tables result.entries ≡ replicate 512 (replicate 128 Clean) }
    {
        let clean = Standings::default();
        Check {
            table: clean,
            fresh: [false; 128],
            target: None,
            level: Standing::Clean,
            inside: false,
            frames: Fixed::new(),
            entries: [clean; 512],
            number: 0,
            rose: false,
            first: None,
        }
    }

    // Before the first row only the entries are kept. They are 64 KiB, which a new `Check` around them would
    // copy in each pass, so the other parts are set one by one.
    fn begin(&mut self)
        ensures { (all : List RowOf) → state_of all self.new ≡ begun (tables self.old.entries) }
    {
        self.table = Standings::default();
        self.fresh = [false; 128];
        self.target = None;
        self.level = Standing::Clean;
        self.inside = false;
        self.frames.clear();
        self.number = 0;
        self.rose = false;
        self.first = None;
    }

    // Keeps the place of a use that stands old, unless an earlier place is kept.
    fn note(&mut self, s: Standing, place: usize)
        ensures { Moves self.old self.new (noted true s place) }
    {
        if s == Standing::Old {
            self.first = Some(self.first.map_or(place, |first| place.min(first)));
        }
    }

    fn is_fresh(&self, name: usize) -> bool
        ensures { result ≡ slice_index_or self.now.fresh name false }
    {
        self.fresh.get(name).copied().unwrap_or(false)
    }

    fn read_name(&mut self, r: Row)
        ensures { Moves self.old self.new (reads_name r) }
    {
        let name = r.value as usize;
        let s = self.table.get(name);
        if self.is_fresh(name) {
            self.note(s, r.place);
        }
        self.level = self.level.max(s);
    }

    fn list(&mut self, r: Row)
        ensures { Moves self.old self.new (lists r) }
    {
        let s = self.table.get(r.value as usize);
        self.note(s, r.place);
    }

    fn set(&mut self)
        ensures { Moves self.old self.new sets }
    {
        if let Some(name) = self.target {
            self.table.put(name, self.level);
        }
        self.level = Standing::Clean;
        self.target = None;
    }

    // What a row does, behind those that were seen; the others say nothing of how names stand.
    fn act(&mut self, seen: &[Row], r: Row)
        ensures { (rest : List RowOf) → MovesOver (seen.now ++ r ∷ rest) self.old self.new (step r rest) }
    {
        let from = seen.len() + 1;
        match r.role {
            Role::FreshName => set_at(&mut self.fresh, r.value as usize, true),
            Role::Target => self.target = Some(r.value as usize),
            Role::Operand => self.read_name(r),
            Role::Listed => self.list(r),
            Role::Channel => self.level = reading_at(self.inside),
            Role::SetEnd | Role::ReadEnd => self.set(),
            Role::ThenOpen => self.branch(from),
            Role::WhenClose | Role::ElseClose => self.join(seen),
            Role::ThenClose => self.swap(),
            Role::BodyOpen => self.enter(from),
            Role::BodyClose => self.leave(),
            Role::RegionOpen => self.open_region(from),
            Role::RegionClose => self.close_region(),
            _ => {}
        }
    }

    // One pass over all rows, with the entries of the passes before.
    pub(crate) fn pass(&mut self, rows: &[Row])
        ensures { state_of rows.now self.new ≡ run rows.now (begun (tables self.old.entries)) }
    {
        self.begin();
        // by index, since a row is told what stands before it
        for (at, row) in rows.iter().enumerate() {
            self.act(&rows[..at], *row);
        }
    }
}
