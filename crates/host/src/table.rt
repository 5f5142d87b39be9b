// The rows of the tables that hosts are made from.

// A channel that starts at a value and moves by the slope at each tick.
#[derive(Clone, Copy, Default, PartialEq, Eq, Debug)]
pub struct Rate {
    pub start: i32,
    pub slope: i32,
}

// The value that a channel has from a tick on. The tick and the channel are wider than any that is allowed, and no
// Option: the type is public, and one u64 is for whatever the reader of a table finds. It hands over one that
// cannot be written here, as one below 0, as the greatest number, which is refused as every wrong one is.
#[derive(Clone, Copy, Default, PartialEq, Eq, Debug)]
pub struct Sample {
    pub tick: u64,
    pub channel: u64,
    pub value: i32,
}
