// How every memory refuses a call that it does not take: by its number, at place 0.
ghost use Rattle.std.specs.Prelude.{◌≡◌, ◌<◌, ◌≤◌, true, false, not, nat_lt, MatchResult};
ghost use Rattle.script.specs.Faults.{fault};
ghost use Rattle.memory.specs.Calls.{taken_or};

use script::fault::Fault;
use script::refusal::Refusal;

// Get, kept and put, where there is no such cell.
pub fn no_cell() -> Fault
    ensures { result ≡ fault 26 0 }
{
    Refusal::NoSuchCell.at(0)
}

// Open, where the memory is open.
pub fn open_already() -> Fault
    ensures { result ≡ fault 27 0 }
{
    Refusal::OpenAlready.at(0)
}

// Close, where the memory is closed.
pub fn not_open() -> Fault
    ensures { result ≡ fault 28 0 }
{
    Refusal::NotOpen.at(0)
}

// What get, kept and put ask of a cell, where there are so many.
pub fn check_cell(i: u32, count: u32) -> Result<(), Fault>
    ensures said { result ≡ taken_or (nat_lt i count) (fault 26 0) }
    ensures there { MatchResult result (λ _. i < count) (λ _. count ≤ i) }
{
    if i < count { Ok(()) } else { Err(no_cell()) }
}

// What open asks of a memory.
pub fn check_closed(is_open: bool) -> Result<(), Fault>
    ensures said { result ≡ taken_or (not is_open) (fault 27 0) }
    ensures closed { MatchResult result (λ _. is_open ≡ false) (λ _. is_open ≡ true) }
{
    if is_open { Err(open_already()) } else { Ok(()) }
}

// What close asks of a memory.
pub fn check_open(is_open: bool) -> Result<(), Fault>
    ensures said { result ≡ taken_or is_open (fault 28 0) }
    ensures open { MatchResult result (λ _. is_open ≡ true) (λ _. is_open ≡ false) }
{
    if is_open { Ok(()) } else { Err(not_open()) }
}
