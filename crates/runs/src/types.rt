// What a caller gives a run, and what it gets back.
use script::fault::Fault;

// A reading: the tick at which it was taken, its channel and value, and the number of its power call.
#[derive(Clone, Copy, PartialEq, Eq, Debug)]
pub struct Reading {
    pub tick: u32,
    pub channel: u8,
    pub value: i32,
    pub call: u32,
}

// What an accepted power call came to, and the tick after it: the script has ended, or power failed.
#[derive(Clone, Copy, PartialEq, Eq, Debug)]
pub enum Powered {
    Ended(u32),
    Failed(u32),
}

// A call on a run: so many units of power and then ticks without, a kept cell, an entry of the list.
#[derive(Clone, Copy, PartialEq, Eq, Debug)]
pub enum Call {
    Power(u64, u64),
    Cell(u64),
    Entry(u64),
}

#[derive(Clone, Copy, PartialEq, Eq, Debug)]
pub enum Answer {
    Power(Result<Powered, Fault>),
    Cell(Result<i32, Fault>),
    Entry(Result<Reading, Fault>),
}

// What closing a run answers. Each of the four is told whatever the others are, so that `ended` is no case.
#[derive(Clone, Copy, PartialEq, Eq, Debug)]
pub struct Report {
    pub ended: bool,
    pub ticks: u32,
    pub failures: u32,
    pub stale: u64,
}
