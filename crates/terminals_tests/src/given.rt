// What the tests of the ends and of the stacks put.
use readings::reading::Reading;
use terminals::outputs::Signals;

pub(crate) fn signals(first: i32, second: i32, digital: u16) -> Signals {
    Signals {
        first: Reading::nearest(first),
        second: Reading::nearest(second),
        digital,
    }
}
