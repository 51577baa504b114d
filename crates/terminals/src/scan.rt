// The eight inputs taken together.
ghost use Rattle.std.specs.Prelude.{◌≡◌, ◌<◌, pos, slice_index_or};

use crate::interface::Terminals;
use std::array;

// The reading of the input at a place from 0.
fn input_at<T: Terminals>(t: &T, place: u8) -> i16
    requires { place < 8 }
    ensures { result ≡ slice_index_or (T.Terminals.inputs t.now) place (pos 0) }
{
    i16::from(t.input(place + 1).unwrap())
}

// The readings of inputs 1 to 8.
pub fn read_inputs<T: Terminals>(t: &T) -> [i16; 8]
    ensures { result ≡ T.Terminals.inputs t.now }
{
    array::from_fn(|i| input_at(t, i as u8))
}
