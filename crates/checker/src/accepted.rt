// The type, whose field says that nothing is refused.
ghost use Rattle.std.specs.Prelude.{◌≡◌, []};
ghost use Rattle.script.specs.Stand.{all_refused};
ghost use Rattle.reader.specs.Holding.{syntax};

use reader::drive::Script;

#[derive(Clone, Copy)]
pub struct Accepted {
    pub(crate) script: Script,
    ghost passed: { all_refused (syntax script) ≡ [] },
}
