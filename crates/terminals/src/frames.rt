// What a bench shows after a sample.

// Eight inputs, the bits D00 to D08 as a number, D00 lowest, and the cause of a fault, or 0 for a link that is up. They are wide, so that any number reaches its question, and 0 is how a frame itself writes up.
#[derive(Clone, Copy)]
pub struct Frame {
    pub inputs: [i32; 8],
    pub bits: u32,
    pub cause: u32,
}

#[derive(Clone, Copy, PartialEq, Eq, Debug)]
pub enum FrameRefusal {
    // an input is no reading
    NotReadings,
    // the bits as a number are not below 512
    BitsOver,
    // the cause is above 99
    CauseOver,
}
