// Looking names up by their bytes.
ghost use Rattle.std.specs.Prelude.{◌≡◌, ◌≤◌, Bool, [], ◌∷◌, ◌++◌, take, position};
ghost use Rattle.script.specs.Tokens.{spelled};
ghost use Rattle.script.specs.declared.row.Role.{Role};
ghost use Rattle.script.specs.Names.{same_name, index_of, among};
ghost use Rattle.script.specs.Roles.{those};

use crate::names::table::Names;
use list::fixed::Fixed;
use script::row::{Role, Row};

// The bytes of a row: what of the text lies there, where the row passes the text's end.
fn part<'a>(text: &'a [u8], row: &Row) -> &'a [u8]
    ensures { result.now ≡ spelled text.now row.now.place row.now.len }
{
    let rest = &text[row.place.min(text.len())..];
    &rest[..row.len.min(rest.len())]
}

fn is_same_name(text: &[u8], a: &Row, b: &Row) -> bool
    ensures { result ≡ same_name text.now a.now b.now }
{
    part(text, a) == part(text, b)
}

impl<'a> Names<'a> {
    // No names yet.
    pub(crate) fn of(text: &'a [u8]) -> Names<'a>
        ensures text { result.text.now ≡ text.now }
        ensures none { result.list.items ≡ [] }
    {
        Names {
            text,
            list: Fixed::new(),
        }
    }

    // One name more, while there is room.
    pub(crate) fn push(&mut self, row: &Row)
        ensures text { self.new.text.now ≡ self.old.text.now }
        ensures list { self.new.list.items ≡ take 128 (self.old.list.items ++ row.now ∷ []) }
    {
        self.list.push(*row);
    }

    // The names that the rows declare in the wanted roles, while there is room.
    pub(crate) fn add<F: Fn(Role) -> bool>(&mut self, rows: &[Row], wanted: F)
        requires { F.IsAlwaysCallable wanted }
        ensures text { self.new.text.now ≡ self.old.text.now }
        ensures list { (test : Role → Bool) → ((r : Role) (b : Bool) → F.post wanted r b → b ≡ test r) → self.new.list.items ≡ take 128 (self.old.list.items ++ those test rows.now) }
    {
        for row in rows {
            if wanted(row.role) {
                self.push(row);
            }
        }
    }

    // Where the name stands first.
    pub(crate) fn find(&self, row: &Row) -> Option<usize>
        ensures { result ≡ position (same_name self.now.text.now row.now) self.now.list.items }
    {
        self.list
            .as_slice()
            .iter()
            .position(|name| is_same_name(self.text, row, name))
    }

    #[tactic(auto, using(crate::proofs::Listing::among_found))]
    pub(crate) fn has(&self, row: &Row) -> bool
        ensures { result ≡ among self.now.text.now row.now self.now.list.items }
    {
        self.find(row).is_some()
    }

    // Its index among the names: where it stands first, or how many names there are.
    #[tactic(auto, using(crate::proofs::Listing::index_found))]
    pub(crate) fn index(&self, row: &Row) -> usize
        ensures few { result ≤ 128 }
        ensures value { result ≡ index_of self.now.text.now row.now self.now.list.items }
    {
        self.find(row).unwrap_or(self.list.len())
    }
}
