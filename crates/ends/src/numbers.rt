// Whether numbers are readings.
ghost use Rattle.readings.specs.Range.{are_readings, is_reading};
ghost use Rattle.std.specs.Prelude.{◌≡◌};

use readings::reading::Reading;

// Whether the number is a reading.
fn is_reading(value: i32) -> bool
    ensures { result ≡ is_reading value }
{
    Reading::new(value).is_some()
}

// Whether each number is a reading.
pub(crate) fn all_readings(values: &[i32; 8]) -> bool
    ensures { result ≡ are_readings values.now }
{
    values.iter().all(|x| is_reading(*x))
}
