// How a name stands: with no reading behind it, with readings of this region only, or with a reading
// that a power failure may have made old. The three rise in this order.

#[derive(Clone, Copy, PartialEq, Eq, PartialOrd, Ord, Debug, Default)]
pub enum Standing {
    #[default]
    Clean,
    Now,
    Old,
}
