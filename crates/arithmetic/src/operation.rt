// The commands that only compute, for what they compute. The names of commands as they are printed are in a crate that this one
// does not know.
use readings::settings::Factor;

#[derive(Clone, Copy, PartialEq, Eq, Debug)]
pub enum Operation {
    Abs,
    Inv,
    Dir,
    Max,
    Min,
    Add,
    Sub,
    Mul,
    Div,
    Rez,
    Qua,
    Rad,
    Scale(Factor),
}
