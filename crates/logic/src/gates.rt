// Gates over two bits, and the latch.
ghost use Rattle.logic.specs.Gates.{gated, latched};
ghost use Rattle.std.specs.Prelude.{◌≡◌};

// A gate. Each has a second command that gives its inverse.
#[derive(Clone, Copy, PartialEq, Eq, Debug)]
pub enum Gate {
    // ANN and ANI: both
    And,
    // AIN and AII: the second without the first
    AndInverted,
    // ONN and ONI: one or both
    Or,
    // OIN and OII: the second, or not the first
    OrInverted,
    // XNN and XNI: one and not both
    Xor,
    // BTN and BTI: the first
    Copy,
}

impl Gate {
    // What the gate gives, or its inverse.
    pub fn output(self, inverse: bool, a: bool, b: bool) -> bool
        ensures { result ≡ gated self inverse a b }
    {
        let plain = match self {
            Gate::And => a && b,
            Gate::AndInverted => !a && b,
            Gate::Or => a || b,
            Gate::OrInverted => !a || b,
            Gate::Xor => a != b,
            Gate::Copy => a,
        };
        plain != inverse
    }
}

// FRS: reset by b, set by a, else what the line holds.
pub fn latch(a: bool, b: bool, own: bool) -> bool
    ensures { result ≡ latched a b own }
{
    if b { false } else { a || own }
}
