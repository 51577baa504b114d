// The phase of a cycle, which goes round from 0 to 4.
ghost use Rattle.std.specs.Prelude.{◌≡◌, ◌+◌, ◌%◌, ◌<◌};

#[derive(Clone, Copy, PartialEq, Eq, Debug)]
pub struct Phase {
    number: u8,
    ghost few: { number < 5 },
}

impl Phase {
    // The phase of a new controller.
    pub fn first() -> Phase
        ensures { result.number ≡ 0 }
    {
        Phase { number: 0 }
    }

    // One on, from 4 to 0.
    pub fn next(self) -> Phase
        ensures { result.number ≡ (self.number + 1) % 5 }
    {
        Phase {
            number: (self.number + 1) % 5,
        }
    }

    pub fn number(self) -> u8
        ensures value { result ≡ self.number }
        ensures few { result < 5 }
    {
        self.number
    }
}
