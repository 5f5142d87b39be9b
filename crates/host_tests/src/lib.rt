// Tests of the hosts and of the list, and what their promises come to for a caller: `traced` and
// `drifted` make a host and read it through the trait, and say what they answer by the table alone.
#![tactic(auto)]

ghost use Rattle.std.specs.Prelude.{◌≡◌, length};
ghost use Rattle.host.specs.Drifts.{drift, drift_table};
ghost use Rattle.host.specs.Readings.{read};
ghost use Rattle.host.specs.Traces.{trace, trace_table};
ghost use Rattle.script.specs.Faults.{then};

pub mod steady;

use host::Host;
use host::drift::Drift;
use host::table::{Rate, Sample};
use host::trace::Trace;
use script::fault::Fault;

// One reading, of any host.
pub fn once<H: Host>(h: &H, channel: u8, tick: u32) -> Result<i32, Fault>
    ensures { result ≡ read (H.Host.value h.now) (H.Host.many h.now) channel tick }
{
    h.reading(channel, tick)
}

// What a trace table gives, or how it is refused.
pub fn traced(rows: &[Sample], channel: u8, tick: u32) -> Result<i32, Fault>
    ensures { result ≡ then (trace_table rows.now) (λ ss. read (trace ss) 16 channel tick) }
{
    let h = Trace::new(rows)?;
    once(&h, channel, tick)
}

// What a drift table gives, or how it is refused.
pub fn drifted(rows: &[Rate], channel: u8, tick: u32) -> Result<i32, Fault>
    ensures { result ≡ then (drift_table rows.now) (λ rs. read (drift rs) (length rs) channel tick) }
{
    let h = Drift::new(rows)?;
    once(&h, channel, tick)
}

// The tests say the numbers of the refusals, which are promised, and not the names that code has for them.
#[cfg(test)]
mod tests {
    use super::*;
    use list::{Journal, Log};
    use std::array;

    fn at(tick: u64, channel: u64, value: i32) -> Sample {
        Sample {
            tick,
            channel,
            value,
        }
    }

    #[test]
    fn drift_at_the_ends(rt: HostRuntime) {
        let rows = [
            Rate {
                start: 2147483646,
                slope: 1,
            },
            Rate {
                start: -2147483647,
                slope: -1,
            },
            Rate {
                start: -2147483648,
                slope: 2147483647,
            },
            Rate {
                start: 100,
                slope: -10,
            },
        ];
        assert_eq!(rt; drifted(&rows, 0, 1), Ok(2147483647));
        assert_eq!(rt; drifted(&rows, 0, 2), Ok(2147483647));
        assert_eq!(rt; drifted(&rows, 1, 1), Ok(-2147483648));
        assert_eq!(rt; drifted(&rows, 1, 2000000000), Ok(-2147483648));
        assert_eq!(rt; drifted(&rows, 2, 2000000000), Ok(2147483647));
        assert_eq!(rt; drifted(&rows, 3, 13), Ok(-30));
    }

    // The greatest numbers that can stand in a row, at the first tick and the last.
    #[test]
    fn drift_at_the_largest_tick(rt: HostRuntime) {
        let low = -2147483648;
        let high = 2147483647;
        let rows = [
            Rate {
                start: high,
                slope: low,
            },
            Rate {
                start: low,
                slope: low,
            },
            Rate {
                start: high,
                slope: high,
            },
            Rate {
                start: -2000000000,
                slope: 1,
            },
        ];
        assert_eq!(rt; drifted(&rows, 0, 0), Ok(high));
        assert_eq!(rt; drifted(&rows, 0, 1), Ok(-1));
        assert_eq!(rt; drifted(&rows, 0, 2000000000), Ok(low));
        assert_eq!(rt; drifted(&rows, 1, 0), Ok(low));
        assert_eq!(rt; drifted(&rows, 1, 2000000000), Ok(low));
        assert_eq!(rt; drifted(&rows, 2, 2000000000), Ok(high));
        assert_eq!(rt; drifted(&rows, 3, 1999999999), Ok(-1));
        assert_eq!(rt; drifted(&rows, 3, 2000000000), Ok(0));
    }

    #[test]
    fn drift_refusals(rt: HostRuntime) {
        let rows = [Rate { start: 1, slope: 0 }; 17];
        assert_eq!(rt; drifted(&rows[0..0], 0, 0), Err(Fault::new(30, 0)));
        assert_eq!(rt; drifted(&rows, 0, 0), Err(Fault::new(30, 16)));
        assert_eq!(rt; drifted(&rows[0..16], 15, 0), Ok(1));
        assert_eq!(rt; drifted(&rows[0..2], 2, 2000000001), Err(Fault::new(34, 0)));
        assert_eq!(rt; drifted(&rows[0..2], 1, 2000000001), Err(Fault::new(35, 0)));
    }

    #[test]
    fn trace_equal_ticks_and_gaps(rt: HostRuntime) {
        let rows = [at(5, 1, 10), at(5, 1, 11), at(7, 0, 3), at(9, 1, -12)];
        assert_eq!(rt; traced(&rows, 1, 4), Ok(0));
        assert_eq!(rt; traced(&rows, 1, 5), Ok(11));
        assert_eq!(rt; traced(&rows, 1, 8), Ok(11));
        assert_eq!(rt; traced(&rows, 1, 9), Ok(-12));
        assert_eq!(rt; traced(&rows, 0, 2000000000), Ok(3));
        assert_eq!(rt; traced(&rows, 15, 9), Ok(0));
        assert_eq!(rt; traced(&rows[0..0], 1, 9), Ok(0));
        assert_eq!(rt; traced(&rows, 16, 9), Err(Fault::new(34, 0)));
        assert_eq!(rt; traced(&rows, 1, 2000000001), Err(Fault::new(35, 0)));
    }

    #[test]
    fn trace_many_rows(rt: HostRuntime) {
        let rows = [at(3, 2, 8); 1025];
        assert_eq!(rt; traced(&rows[0..1024], 2, 3), Ok(8));
        assert_eq!(rt; traced(&rows[0..1024], 3, 3), Ok(0));
        assert_eq!(rt; traced(&rows, 2, 3), Err(Fault::new(31, 1024)));
    }

    // A full table before its only tick, and a table with too many rows of which each is wrong.
    #[test]
    fn trace_full_and_past_full(rt: HostRuntime) {
        assert_eq!(rt; traced(&[at(3, 2, 8); 1024], 2, 2), Ok(0));
        assert_eq!(rt;
            traced(&[at(9, 99, 0); 1025], 2, 3),
            Err(Fault::new(31, 1024))
        );
    }

    // 1,024 samples at ticks 10, 20 and so on, of channels 0 and 1 in turn.
    fn in_turn() -> [Sample; 1024] {
        array::from_fn(|i| at(10 * i as u64 + 10, i as u64 % 2, i as i32 + 1))
    }

    // Between samples, on them and past them.
    #[test]
    fn trace_finds_each_of_many(rt: HostRuntime) {
        let rows = in_turn();
        assert_eq!(rt; traced(&rows, 0, 9), Ok(0));
        assert_eq!(rt; traced(&rows, 0, 10), Ok(1));
        assert_eq!(rt; traced(&rows, 1, 19), Ok(0));
        assert_eq!(rt; traced(&rows, 1, 20), Ok(2));
        assert_eq!(rt; traced(&rows, 0, 5129), Ok(511));
        assert_eq!(rt; traced(&rows, 0, 5130), Ok(513));
        assert_eq!(rt; traced(&rows, 1, 10239), Ok(1022));
        assert_eq!(rt; traced(&rows, 1, 10240), Ok(1024));
        assert_eq!(rt; traced(&rows, 0, 2000000000), Ok(1023));
    }

    #[test]
    fn trace_wrong_rows(rt: HostRuntime) {
        let rows = [at(5, 0, 1), at(4, 0, 1), at(4, 16, 1)];
        assert_eq!(rt; traced(&rows, 0, 0), Err(Fault::new(32, 2)));
        assert_eq!(rt; traced(&rows[0..2], 0, 0), Err(Fault::new(33, 1)));
        assert_eq!(rt;
            traced(&[at(2000000001, 0, 1)], 0, 0),
            Err(Fault::new(32, 0))
        );
        assert_eq!(rt; traced(&[at(2000000000, 15, 1)], 15, 2000000000), Ok(1));
    }

    // The first tick below that of the row before it is the last row's.
    #[test]
    fn trace_falls_late(rt: HostRuntime) {
        let rows = [at(5, 0, 1), at(5, 1, 1), at(6, 0, 1), at(5, 0, 1)];
        assert_eq!(rt; traced(&rows, 0, 0), Err(Fault::new(33, 3)));
    }

    #[test]
    fn list_full_and_cut_back(rt: HostRuntime) {
        let mut slots = [0u8; 2];
        let mut log = Log::new(&mut slots);
        assert!(rt; log.add(7));
        assert!(rt; log.add(8));
        assert!(rt; !log.add(9));
        assert_eq!(rt; log.get(1), Some(8));
        assert!(rt; !log.cut(3));
        assert!(rt; log.cut(1));
        assert_eq!(rt; log.get(1), None);
        assert!(rt; log.add(9));
        assert_eq!(rt; log.get(1), Some(9));
        assert_eq!(rt; log.count(), 2);
    }
}
