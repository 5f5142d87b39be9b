// The check of the rows of a script, by passes.
ghost use Rattle.std.specs.Prelude.{◌≡◌, ◌≤◌, true, length};
ghost use Rattle.script.specs.Syntax.{Script};
ghost use Rattle.script.specs.Written.{rows as rows_of};
ghost use Rattle.script.specs.Stand.{first_refused};
ghost use Rattle.checker.specs.Limits.{shallow, numbered};

use crate::types::Check;
use script::row::Row;

// The place of the first refused use of a script, by its rows. Each pass but the last raises an entry,
// and 512 entries of 128 names can rise 131,072 times in all.
pub(crate) fn first_refused(rows: &[Row]) -> Option<usize>
    ensures { (s : Script) → rows.now ≡ rows_of s → length rows.now ≤ 2048 → shallow 0 rows.now ≡ true → numbered rows.now ≡ true → result ≡ first_refused s }
{
    let mut check = Check::new();
    for _turn in 0..131_073u32 {
        check.pass(rows);
        if !check.rose {
            break;
        }
    }
    check.first
}
