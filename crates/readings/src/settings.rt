// The settings that a command's code carries, each a type with the few values that there are.

// What a scaling command multiplies by.
#[derive(Clone, Copy, PartialEq, Eq, Debug)]
pub enum Factor {
    Tenth,
    Eighth,
    Fifth,
    Quarter,
    Third,
    Half,
    Times2,
    Times3,
    Times4,
    Times5,
    Times8,
    Times10,
    Times20,
    Times40,
    Times50,
    Times100,
}

// The period of a rate limiter, named by its number T: in five cycles it moves by at most 8000 / T.
#[derive(Clone, Copy, PartialEq, Eq, Debug)]
pub enum Rate {
    T2 = 2,
    T4 = 4,
    T8 = 8,
    T16 = 16,
    T50 = 50,
    T100 = 100,
    T200 = 200,
    T400 = 400,
    T1000 = 1000,
    T2000 = 2000,
    T4000 = 4000,
    T8000 = 8000,
}

// What an integrator or a delay divides by.
#[derive(Clone, Copy, PartialEq, Eq, Debug)]
pub enum Divisor {
    D10 = 10,
    D40 = 40,
    D100 = 100,
    D250 = 250,
    D1200 = 1200,
    D4800 = 4800,
    D12000 = 12000,
    D30000 = 30000,
}
