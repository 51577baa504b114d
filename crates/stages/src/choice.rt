// The inputs that a byte chooses, input 1 by its lowest bit.
ghost use Rattle.std.specs.Prelude.{◌≡◌, ◌-◌, ◌≤◌};
ghost use Rattle.stages.specs.Stages.{chosen_at, lowest_low};

#[derive(Clone, Copy)]
pub(crate) struct Choice(pub(crate) u8);

impl Choice {
    // Whether it has the input of that number.
    pub(crate) fn has(self, number: u8) -> bool
        requires low { 1 ≤ number }
        requires high { number ≤ 8 }
        ensures { result ≡ chosen_at self.0 (number - 1) }
    {
        (self.0 >> (number - 1)) % 2 == 1
    }

    // The lowest number of a chosen input under -1600.
    pub(crate) fn lowest_low(self, values: &[i16; 8]) -> Option<u8>
        ensures { result ≡ lowest_low self.0 0 values.now }
    {
        (1..9u8).find(|number| self.has(*number) && values[usize::from(*number) - 1] < -1600)
    }
}
