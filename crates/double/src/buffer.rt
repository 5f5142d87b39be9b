// The type, whose ghost field says what every double buffer keeps to.
ghost use Rattle.double.specs.Buffer.{Two64};

use crate::halves::Halves;

#[derive(Drop)]
pub struct Double {
    pub(crate) words: Halves,
    ghost fine: { Two64 words },
}
