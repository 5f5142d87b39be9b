// The trace host: each channel follows the samples that a table lists for it.
ghost use Rattle.std.specs.Prelude.{◌≡◌, ◌<◌, ◌≤◌, ◌==◌, length, drop, find, reverse, IfSome};
ghost use Rattle.std.specs.Option.{option_copied};
ghost use Rattle.std.specs.List.{position_from, zip};
ghost use Rattle.host.specs.Readings.{seen_by};
ghost use Rattle.host.specs.Order.{InOrder, IsUpTo, is_peak};
ghost use Rattle.host.specs.Traces.{outside, first_outside, first_fall, trace, trace_table};
ghost use Rattle.std.proofs.Common.{leb-true, refl};

use crate::table::Sample;
use crate::{Host, LAST_TICK, MAX_CHANNELS, check};
use list::fixed::Fixed;
use script::fault::Fault;
use script::refusal::Refusal;

// A trace has no more samples.
pub const MAX_SAMPLES: usize = 1024;

// What a channel gives before its first sample.
const BEFORE_FIRST: i32 = 0;

// The samples, in the order of their ticks.
#[derive(Drop)]
pub struct Trace {
    samples: Fixed<Sample, MAX_SAMPLES>,
    ghost few: { length samples.items ≤ 1024 },
    ghost ordered: { InOrder samples.items },
}

fn is_outside(s: &Sample) -> bool
    ensures { result ≡ outside s.now }
{
    s.tick > u64::from(LAST_TICK) || s.channel >= u64::from(MAX_CHANNELS)
}

// The first row whose tick or channel is wrong.
fn outside_row(rows: &[Sample]) -> Option<usize>
    ensures { result ≡ first_outside rows.now }
{
    rows.iter().position(is_outside)
}

// The first row whose tick is above that of the row after it.
fn peak_row(rows: &[Sample]) -> Option<usize>
    ensures found { result ≡ position_from is_peak 0 (zip rows.now (drop 1 rows.now)) }
    ensures within { IfSome result (λ i. i < length rows.now) }
{
    rows.iter()
        .zip(rows.iter().skip(1))
        .position(|(s, next)| next.tick < s.tick)
}

// The first row whose tick is below that of the row before it.
fn fall_row(rows: &[Sample]) -> Option<usize>
    ensures { result ≡ first_fall 0 0 rows.now }
{
    peak_row(rows).map(|i| i + 1)
}

// The last row of the channel.
fn latest(rows: &[Sample], channel: u8) -> Option<&Sample>
    ensures { option_copied result ≡ find (λ s. s.channel == channel) (reverse rows.now) }
{
    rows.iter().rev().find(|s| s.channel == u64::from(channel))
}

impl Trace {
    // A host of 16 channels that follows at most 1,024 samples, whose ticks never fall.
    pub fn new(rows: &[Sample]) -> Result<Trace, Fault>
        ensures { seen_by (λ t. t.samples.items) result ≡ trace_table rows.now }
    {
        if rows.len() > MAX_SAMPLES {
            return Err(Refusal::TooManySamples.at(MAX_SAMPLES));
        }
        Refusal::SampleOutOfRange.answer(outside_row(rows))?;
        Refusal::TickFalls.answer(fall_row(rows))?;
        Ok(Trace {
            samples: Fixed::of(rows),
        })
    }

    // The samples at or before the tick.
    fn upto(&self, tick: u32) -> &[Sample]
        ensures { IsUpTo tick self.now.samples.items result.now }
    {
        let samples = self.samples.as_slice();
        &samples[..samples.partition_point(|s| s.tick <= u64::from(tick))]
    }

    // The last listed sample of the channel at or before the tick.
    fn last(&self, channel: u8, tick: u32) -> i32
        ensures { result ≡ trace self.now.samples.items channel tick }
    {
        latest(self.upto(tick), channel).map_or(BEFORE_FIRST, |s| s.value)
    }
}

impl Host for Trace {
    ghost value = { λ t. trace t.samples.items };

    ghost many = { λ t. 16 };

    ghost some = { λ t. leb-true 1 16 refl };

    ghost few = { λ t. leb-true 16 16 refl };

    fn channels(&self) -> u8 {
        MAX_CHANNELS
    }

    fn reading(&self, channel: u8, tick: u32) -> Result<i32, Fault> {
        check(self.channels(), channel, tick)?;
        Ok(self.last(channel, tick))
    }
}
