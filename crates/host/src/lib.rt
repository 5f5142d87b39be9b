// Sensor hosts: what gives a run the values of its input channels. A host means a value (signed, 32
// bits) for each channel and tick, and has 1 to 16 channels; asking it changes nothing. `Host` is what
// a run asks of one. Two are here: `Drift`, whose channels rise or fall by the same amount at each tick,
// and `Trace`, whose channels follow a table of samples. Each is made from rows of a table, and is
// refused where the table is wrong. The definitions that a reader has to believe stand in specs/.
#![tactic(auto)]

ghost use Rattle.std.specs.Prelude.{◌≡◌, ℕ, ◌<◌, ◌≤◌, ℤ, OnOk};
ghost use Rattle.host.specs.Readings.{asked, last_tick, read};

pub mod drift;
pub mod table;
pub mod trace;

use script::fault::Fault;
use script::refusal::Refusal;

// The last tick of all.
pub const LAST_TICK: u32 = 2_000_000_000;

// No host has more channels.
pub const MAX_CHANNELS: u8 = 16;

// A value for each channel and tick, and how many channels there are.
pub trait Host {
    ghost value: { Self → ℕ → ℕ → ℤ };

    ghost many: { Self → ℕ };

    // How many channels there are.
    fn channels(&self) -> u8
        ensures { result ≡ many self.now };

    // The value of a channel, from 0, at a tick.
    fn reading(&self, channel: u8, tick: u32) -> Result<i32, Fault>
        ensures { result ≡ read (value self.now) (many self.now) channel tick };

    ghost some: { (h : Self) → 1 ≤ many h };

    ghost few: { (h : Self) → many h ≤ 16 };
}

// What every host asks of a reading, whose channel and tick come as `Host::reading` has them: that there is
// such a channel, and then such a tick.
pub fn check(channels: u8, channel: u8, tick: u32) -> Result<(), Fault>
    ensures asked { result ≡ asked channels channel tick }
    ensures within { OnOk result ((channel < channels) × (tick ≤ last_tick)) }
{
    if channel >= channels {
        return Err(Refusal::NoSuchChannel.at(0));
    }
    if tick > LAST_TICK {
        return Err(Refusal::TickTooLarge.at(0));
    }
    Ok(())
}
