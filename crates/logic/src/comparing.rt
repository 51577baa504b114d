// Comparators: a bit from two readings.
ghost use Rattle.logic.specs.Comparing.{exceeds as exceeds_of, exceeds_held};
ghost use Rattle.std.specs.Prelude.{◌≡◌};

use readings::reading::Reading;

// CGT: is a greater than b?
pub fn exceeds(a: Reading, b: Reading) -> bool
    ensures { result ≡ exceeds_of a.value b.value }
{
    a.value() > b.value()
}

// CGH: on above b, off below b by more than half a percent, else what the line holds.
pub fn exceeds_held(a: Reading, b: Reading, own: bool) -> bool
    ensures { result ≡ exceeds_held a.value b.value own }
{
    if a.value() > b.value() {
        true
    } else if a.value() < b.value() - 80 {
        false
    } else {
        own
    }
}
