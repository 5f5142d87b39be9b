// The plain types of a place.
ghost use Rattle.std.specs.Prelude.{◌≡◌, ◌≤◌, false, length};
ghost use Rattle.place.specs.declared.types.Frame.TheVariants.{Close};

// No script has more braces open. The parser has this limit too, but no crate here knows it.
pub const MAX_OPEN: usize = 16;

// A brace that is open.
#[derive(Clone, Copy, PartialEq, Eq, Debug)]
pub enum Frame {
    // a repeat's, with so many more turns of the body that begins at the row
    Turn { left: u32, from: usize },
    // an if's, whose branches begin at the row, with the first power call among the readings behind its
    // condition
    Join { from: usize, first: u32 },
    // a region's
    Close { outermost: bool },
}

impl Default for Frame {
    ghost is_default = { λ f. f ≡ Close false };

    fn default() -> Frame {
        Frame::Close { outermost: false }
    }
}

// The row of the next statement or closing brace, and the braces that are open around it, the innermost
// last. An array and a depth, and no `Fixed`, for the reason that the reader's `Script` gives.
#[derive(Clone, Copy)]
pub struct Place {
    pub row: usize,
    pub(crate) frames: [Frame; MAX_OPEN],
    pub(crate) depth: usize,
    ghost deep: { depth ≤ 16 },
    ghost long: { length frames ≡ 16 },
}

// For each name the first power call among the readings behind it, or `NEVER` where there is none.
#[derive(Clone, Copy, PartialEq, Eq, Debug)]
pub struct Oldest {
    pub(crate) of: [u32; 128],
    ghost long: { length of ≡ 128 },
}

// What a row is at which a run stands.
#[derive(Clone, Copy, PartialEq, Eq, Debug)]
pub enum Head {
    Target,
    If,
    Repeat,
    Region,
    Together,
    EndIf,
    EndThen,
    EndBody,
    EndRegion,
    Other,
}
