// A host of one's own, as docs/HOSTS.md shows it: one channel, which gives the same value at every tick.
ghost use Rattle.std.proofs.Common.{leb-true, refl};

use host::{Host, check};
use script::fault::Fault;

#[derive(Drop)]
pub struct Steady {
    pub level: i32,
}

impl Host for Steady {
    ghost value = { λ h channel tick. h.level };

    ghost many = { λ h. 1 };

    ghost some = { λ h. leb-true 1 1 refl };

    ghost few = { λ h. leb-true 1 16 refl };

    fn channels(&self) -> u8 {
        1
    }

    fn reading(&self, channel: u8, tick: u32) -> Result<i32, Fault> {
        check(self.channels(), channel, tick)?;
        Ok(self.level)
    }
}
