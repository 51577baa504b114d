// Why an adjustment is refused.

#[derive(Clone, Copy, PartialEq, Eq, Debug)]
pub enum AdjustRefusal {
    // the line is not FLX
    NotFlexible,
    // the number is not from -31984 to 31984
    OverRange,
}
