// The braces that are open around a place.
ghost use Rattle.std.specs.Prelude.{◌≡◌, [], take};
ghost use Rattle.place.specs.Places.{spot, spot_of, pushed, popped, top_of};

use crate::types::{Frame, MAX_OPEN, Place};

impl Place {
    // At a row, with no brace open around it but main's.
    pub fn start(row: usize) -> Place
        ensures { spot_of result ≡ spot row [] }
    {
        Place {
            row,
            frames: [Frame::default(); MAX_OPEN],
            depth: 0,
        }
    }

    // The braces that are open, the innermost last.
    fn open(&self) -> &[Frame]
        ensures { result.now ≡ take self.now.depth self.now.frames }
    {
        &self.frames[..self.depth]
    }

    // The innermost brace.
    pub fn top(&self) -> Option<Frame>
        ensures { result ≡ top_of (spot_of self.now).frames }
    {
        self.open().last().copied()
    }

    // A brace opens, and the run goes on at the row. No script has more open than there is room for.
    pub fn enter(&mut self, frame: Frame, row: usize)
        ensures { spot_of self.new ≡ spot row (pushed frame (spot_of self.old).frames) }
    {
        self.go(row);
        if self.depth < MAX_OPEN {
            self.frames[self.depth] = frame;
            self.depth += 1;
        }
    }

    // The innermost brace closes, and the run goes on at the row.
    pub fn leave(&mut self, row: usize)
        ensures { spot_of self.new ≡ spot row (popped (spot_of self.old).frames) }
    {
        self.go(row);
        if self.depth > 0 {
            self.depth -= 1;
        }
    }

    // The run goes on at the row.
    pub fn go(&mut self, row: usize)
        ensures { spot_of self.new ≡ spot row (spot_of self.old).frames }
    {
        self.row = row;
    }
}
