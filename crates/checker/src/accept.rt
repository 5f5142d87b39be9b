// Question 13: does no use stand old?
ghost use Rattle.std.specs.Prelude.{◌≡◌, MatchResult};
ghost use Rattle.script.specs.Faults.{answer};
ghost use Rattle.script.specs.Stand.{first_refused};
ghost use Rattle.script.specs.Written.{rows as rows_of};
ghost use Rattle.reader.specs.Holding.{syntax, rows_in, empty};
ghost use Rattle.checker.specs.Laws.{OneRegionAccepted, ApartAccepted, NeverLowers, SettlesLeast, LastWalksTell};
ghost use Rattle.checker.specs.Verdict.{Taken, TurnedDown};

use crate::accepted::Accepted;
use crate::first::first_refused;
use reader::drive::Script;
use script::fault::Fault;
use script::refusal::Refusal;

// The place of the first use in the text that stands old.
fn refused_use(script: &Script) -> Option<usize>
    ensures { result ≡ first_refused (syntax script.now) }
{
    first_refused(script.rows())
}

impl Accepted {
    // `main { }`
    pub fn new() -> Accepted
        ensures { rows_in result.script ≡ rows_of empty }
    {
        Accepted {
            script: Script::new(),
        }
    }

    // Replaces the accepted script by this one, or refuses and leaves it as it was.
    pub fn accept(&mut self, script: &Script) -> Result<(), Fault>
        ensures verdict { result ≡ answer 13 (first_refused (syntax script.now)) }
        ensures one_region { OneRegionAccepted (syntax script.now) result }
        ensures apart { ApartAccepted (syntax script.now) result }
        ensures never_lowers { NeverLowers }
        ensures settles_least { SettlesLeast }
        ensures last_walks { LastWalksTell }
        ensures after { MatchResult result (λ _. self.new.script ≡ script.now) (λ _. self.new ≡ self.old) }
    {
        Refusal::StaleUse.answer(refused_use(script))?;
        *self = Accepted { script: *script };
        Ok(())
    }

    // All thirteen questions, put to a text: replaces the accepted script by the one that the text is, or
    // refuses and leaves it as it was.
    pub fn check(&mut self, text: &[u8]) -> Result<(), Fault>
        ensures { MatchResult result (λ _. Taken text.now (rows_in self.new.script)) (λ f. TurnedDown text.now f × (self.new ≡ self.old)) }
    {
        let mut script = Script::new();
        script.read(text)?;
        self.accept(&script)
    }

    // The script that was accepted last.
    pub fn script(&self) -> &Script
        ensures { result.now ≡ self.now.script }
    {
        &self.script
    }
}
