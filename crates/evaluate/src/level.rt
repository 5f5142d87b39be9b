// What is known of an expression that is walked, inside each parenthesis that is open.
ghost use Rattle.std.specs.Prelude.{◌≤◌, length};

use list::fixed::Fixed;

// No script has more parentheses open: the parser's limit, whose crate is not known here.
const MAX_OPEN: usize = 16;

#[derive(Clone, Copy, PartialEq, Eq, Debug)]
pub(crate) enum Comparison {
    Less,
    Same,
}

#[derive(Clone, Copy, PartialEq, Eq, Debug)]
pub(crate) enum Sign {
    Plus,
    Minus,
}

#[derive(Clone, Copy, PartialEq, Eq, Debug)]
pub(crate) enum By {
    Times,
    Over,
}

#[derive(Clone, Copy, Default, PartialEq, Eq, Debug)]
pub(crate) struct Level {
    // the left side of a comparison, where there was one
    pub(crate) left: Option<(i32, Comparison)>,
    // the sum before this term, where there is one, and how the term goes into it
    pub(crate) sum: Option<(i32, Sign)>,
    // this term so far, and how the next factor goes into it, where it is not the first
    pub(crate) part: i32,
    pub(crate) by: Option<By>,
}

// The innermost level, and those around it.
#[derive(Clone, Copy)]
pub(crate) struct Levels {
    pub(crate) here: Level,
    pub(crate) outer: Fixed<Level, MAX_OPEN>,
    ghost deep: { length outer.items ≤ 16 },
}
