// What is over at a place is no step: the end of an if, and a repeat with no more turns.
ghost use Rattle.std.specs.Prelude.{◌≡◌, ℕ, ◌^◌, ◌<◌, List};
ghost use Rattle.place.specs.Places.{behind_of, spot_of, left, top_of, ends_if, ends_body, slip as slip_of, tidied};

use crate::heads::head_of;
use crate::rows::{block_end, row_at, rows_between};
use crate::types::{Frame, Head, MAX_OPEN, Oldest, Place};
use script::row::Row;

// The place, the rows and what stands behind the names are asked for apart, and not as one struct: a run keeps the
// three apart, so a struct of two `&mut` would be made for each call and taken apart again.
impl Place {
    // The end of an if that closes at the row: the names assigned in its branches get the readings behind
    // its condition. Whether the innermost brace was an if's.
    fn end_if(&mut self, rows: &[Row], end: usize, oldest: &mut Oldest) -> bool
        requires { end < 2 ^ 62 }
        ensures { record { moved = result; left = left (spot_of self.new) (behind_of oldest.new) } ≡ ends_if (top_of (spot_of self.old).frames) rows.now end (left (spot_of self.old) (behind_of oldest.old)) }
    {
        let Some(Frame::Join { from, first }) = self.top() else {
            return false;
        };
        oldest.join(rows_between(rows, from, end), first);
        self.leave(end + 1);
        true
    }

    // The end of a turn: over where no more are left.
    fn end_body(&mut self) -> bool
        requires { self.old.row < 2 ^ 62 }
        ensures { (o : List ℕ) → record { moved = result; left = left (spot_of self.new) o } ≡ ends_body (top_of (spot_of self.old).frames) (left (spot_of self.old) o) }
    {
        let Some(Frame::Turn { left: 0, .. }) = self.top() else {
            return false;
        };
        self.leave(self.row + 1);
        true
    }

    // Goes past one thing that is over, where there is one.
    fn slip(&mut self, rows: &[Row], oldest: &mut Oldest) -> bool
        ensures { record { moved = result; left = left (spot_of self.new) (behind_of oldest.new) } ≡ slip_of rows.now (left (spot_of self.old) (behind_of oldest.old)) }
    {
        let row = self.row;
        if row >= rows.len() {
            return false;
        }
        match head_of(row_at(rows, row).role) {
            Head::EndIf => self.end_if(rows, row, oldest),
            Head::EndThen => self.end_if(rows, block_end(rows, row + 3), oldest),
            Head::EndBody => self.end_body(),
            _ => false,
        }
    }

    // Goes past all that is over. Each closes a brace, and no more are open.
    pub fn tidy(&mut self, rows: &[Row], oldest: &mut Oldest)
        ensures { left (spot_of self.new) (behind_of oldest.new) ≡ tidied 16 rows.now (left (spot_of self.old) (behind_of oldest.old)) }
    {
        for _ in 0..MAX_OPEN {
            if !self.slip(rows, oldest) {
                return;
            }
        }
    }
}
