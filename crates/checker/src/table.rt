// A table of standings: what a row does to it.
ghost use Rattle.std.specs.Prelude.{◌≡◌, true, replicate, slice_index_or, slice_set};
ghost use Rattle.script.specs.declared.standing.Standing.TheVariants.{Clean};
ghost use Rattle.script.specs.Stand.{both, older, aged, raised, reading_at};
ghost use Rattle.checker.specs.Machine.{exceeds, targets};

use crate::types::Standings;
use list::slots::set_at;
use script::row::{Role, Row};
use script::standing::Standing;

pub(crate) fn older_of(a: Standing) -> Standing
    ensures { result ≡ older a }
{
    match a {
        Standing::Clean => Standing::Clean,
        Standing::Now | Standing::Old => Standing::Old,
    }
}

// A reading stands now inside a region, and old outside.
pub(crate) fn reading_at(inside: bool) -> Standing
    ensures { result ≡ reading_at inside }
{
    if inside { Standing::Now } else { Standing::Old }
}

impl Default for Standings {
    ghost is_default = { λ t. t.of ≡ replicate 128 Clean };

    fn default() -> Standings {
        Standings {
            of: [Standing::Clean; 128],
        }
    }
}

impl Standings {
    pub(crate) fn get(&self, name: usize) -> Standing
        ensures { result ≡ slice_index_or self.now.of name Clean }
    {
        self.of.get(name).copied().unwrap_or_default()
    }

    pub(crate) fn put(&mut self, name: usize, s: Standing)
        ensures { self.new.of ≡ slice_set self.old.of name s }
    {
        set_at(&mut self.of, name, s);
    }

    // The names that the rows set stand at least as high as s.
    pub(crate) fn raise(&mut self, rows: &[Row], s: Standing)
        ensures { self.new.of ≡ raised s (targets rows.now) self.old.of }
    {
        for row in rows {
            if row.role == Role::Target {
                let name = row.value as usize;
                self.put(name, self.get(name).max(s));
            }
        }
    }

    // Opening and closing an outermost region turns now into old.
    pub(crate) fn age(&mut self)
        ensures { self.new.of ≡ aged true self.old.of }
    {
        for s in self.of.iter_mut() {
            *s = older_of(*s);
        }
    }

    // Takes the higher of both, name by name. The index is for the proof, which knows nothing of what was
    // written through `iter_mut().zip(..)`.
    pub(crate) fn join(&mut self, with: &Standings)
        ensures { self.new.of ≡ both self.old.of with.now.of }
    {
        for (name, s) in self.of.iter_mut().enumerate() {
            *s = (*s).max(with.of[name]);
        }
    }

    // Whether a name stands higher in the other.
    pub(crate) fn is_exceeded(&self, by: &Standings) -> bool
        ensures { result ≡ exceeds self.now.of by.now.of }
    {
        self.of.iter().zip(&by.of).any(|(here, there)| here < there)
    }
}
