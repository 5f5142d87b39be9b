// What a power call does around its steps, and the step at a target.
ghost use Rattle.std.specs.Prelude.{◌≡◌, ℕ, suc, ◌+◌, ◌-◌, ◌^◌, ◌<◌, ◌≤◌, Bool, true, false, cond, List, length};
ghost use Rattle.runner.specs.Stands.{stand_of, plant_of, core_of};
ghost use Rattle.runner.specs.Walk.{Source, source, walked, head_at, step_at, saving, with_stand, spending, tidy_stand, tidy_core};

use crate::steps::take;
use crate::types::{Here, Job, Point, State, Step};
use host::Host;
use list::Journal;
use memory::Memory;
use place::heads::head_of;
use place::types::Head;
use runs::types::Reading;
use script::row::Role;

impl Point {
    // Goes past all that is over.
    fn tidy(&mut self, job: &Job)
        ensures { stand_of self.new ≡ tidy_stand (plant_of job.now) (stand_of self.old) }
    {
        self.place.tidy(job.script.rows(), &mut self.oldest);
    }
}

impl State {
    // Goes past all that is over.
    fn tidy(&mut self, job: &Job)
        ensures { core_of self.new ≡ tidy_core (plant_of job.now) (core_of self.old) }
    {
        self.at.tidy(job);
    }

    // What the run finds where it stands.
    fn head(&self, job: &Job) -> Head
        ensures { result ≡ head_at (plant_of job.now) (core_of self.now).at }
    {
        head_of(job.role_at(self.at.place.row))
    }

    // Ticks pass for a step's unit and words, and its stale uses are counted.
    fn spend(&mut self, step: Step)
        requires { (self.old.counts.tick + 1 + step.words ≤ 2000000000) × (step.stale ≤ 2048) }
        ensures { core_of self.new ≡ spending (1 + step.words) step.stale (core_of self.old) }
    {
        self.counts.tick += 1 + step.words;
        self.counts.stale += step.stale as u64;
    }

    // The step at a target: a reading or an assignment.
    fn set<H: Host, M: Memory, L: Journal<Reading>>(
        &mut self,
        job: &Job,
        host: &H,
        memory: &mut M,
        list: &mut L,
        row: usize,
        units: u32,
    ) -> Step
        requires { row < 2 ^ 61 }
        ensures exact { walked result.words result.stale (core_of self.new).at (M.Memory.state memory.new) (L.Journal.entries list.new) ≡ step_at M.Memory.model (plant_of job.now) (source (H.Host.value host.now) (H.Host.many host.now) (L.Journal.room list.old)) Head.Target (core_of self.old).at (M.Memory.state memory.old) (L.Journal.entries list.old) row self.old.counts.tick self.old.counts.calls units }
        ensures core { core_of self.new ≡ with_stand (core_of self.new).at (core_of self.old) }
        ensures room { L.Journal.room list.new ≡ L.Journal.room list.old }
        ensures within { result.words ≤ units }
        ensures few { result.stale ≤ 2048 }
    {
        let call = self.counts.calls;
        let here = Here { job, row, call };
        match job.role_at(row + 2) {
            Role::InWord => {
                let channel = job.value_at(row + 3);
                let reading = take(host, channel, self.counts.tick, call);
                here.read(&mut self.at, list, reading);
                Step::free(0)
            }
            _ => here.assign(&mut self.at, memory, units),
        }
    }
}
