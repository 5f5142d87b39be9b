// The drift host: each channel starts at a value and moves by the same amount at each tick.
ghost use Rattle.std.specs.Prelude.{◌≡◌, ◌≤◌, length, pos, ◌+ℤ◌, ◌*ℤ◌};
ghost use Rattle.host.specs.Drifts.{cut_off, drift, drift_table};
ghost use Rattle.host.specs.Readings.{last_tick, seen_by};

use crate::table::Rate;
use crate::{Host, check};
use list::fixed::Fixed;
use script::fault::Fault;
use script::refusal::Refusal;

// No table has more rows, since no host has more channels.
pub const MAX_ROWS: usize = 16;

// One row for each channel.
#[derive(Drop)]
pub struct Drift {
    rates: Fixed<Rate, MAX_ROWS>,
    ghost some: { 1 ≤ length rates.items },
    ghost few: { length rates.items ≤ 16 },
}

// start + slope × tick, which 64 bits hold.
fn line(r: Rate, tick: u32) -> i64
    requires { tick ≤ last_tick }
    ensures { result ≡ r.start +ℤ r.slope *ℤ pos tick }
{
    i64::from(r.start) + i64::from(r.slope) * i64::from(tick)
}

// The number, cut off at the ends of 32 bits.
fn within_i32(z: i64) -> i32
    ensures { result ≡ cut_off z }
{
    z.clamp(i64::from(i32::MIN), i64::from(i32::MAX)) as i32
}

impl Drift {
    // A host with one channel for each row, of which there are 1 to 16.
    pub fn new(rows: &[Rate]) -> Result<Drift, Fault>
        ensures { seen_by (λ d. d.rates.items) result ≡ drift_table rows.now }
    {
        if rows.is_empty() {
            return Err(Refusal::WrongRowCount.at(0));
        }
        if rows.len() > MAX_ROWS {
            return Err(Refusal::WrongRowCount.at(MAX_ROWS));
        }
        Ok(Drift {
            rates: Fixed::of(rows),
        })
    }
}

impl Host for Drift {
    ghost value = { λ d. drift d.rates.items };

    ghost many = { λ d. length d.rates.items };

    ghost some = { λ d. d.some };

    ghost few = { λ d. d.few };

    fn channels(&self) -> u8 {
        self.rates.len() as u8
    }

    fn reading(&self, channel: u8, tick: u32) -> Result<i32, Fault> {
        check(self.channels(), channel, tick)?;
        let rates = self.rates.as_slice();
        Ok(within_i32(line(rates[usize::from(channel)], tick)))
    }
}
