// What a computing command answers.
ghost use Rattle.arithmetic.specs.Operations.{difference, operated, product, ratio, scaled, square_root, sum};
ghost use Rattle.std.specs.Prelude.{◌≡◌};

use crate::fraction::Fraction;
use crate::operation::Operation;
use crate::quotients::Dividend;
use readings::reading::Reading;
use readings::settings::Factor;

// 100 %
const FULL: i32 = 16000;

fn add(a: Reading, b: Reading) -> Reading
    ensures { result.value ≡ sum a.value b.value }
{
    Reading::limited(a.value() + b.value())
}

fn sub(a: Reading, b: Reading) -> Reading
    ensures { result.value ≡ difference a.value b.value }
{
    Reading::limited(a.value() - b.value())
}

fn mul(a: Reading, b: Reading) -> Reading
    ensures { result.value ≡ product a.value b.value }
{
    Reading::limited(Dividend::product(a.value(), b.value()).over(FULL))
}

fn div(a: Reading, b: Reading) -> Reading
    ensures { result.value ≡ ratio a.value b.value }
{
    if b.value() == 0 {
        return Reading::nearest(a.value().signum() * Reading::LIMIT);
    }
    Reading::limited(Dividend::product(a.value(), FULL).over(b.value()))
}

fn rad(a: Reading) -> Reading
    ensures { result.value ≡ square_root a.value }
{
    let root = (a.value().unsigned_abs() * FULL as u32).isqrt() as i32;
    Reading::nearest(if a.value() < 0 { -root } else { root })
}

fn scale(factor: Factor, a: Reading) -> Reading
    ensures { result.value ≡ scaled factor a.value }
{
    let Fraction {
        numerator,
        denominator,
    } = Fraction::of(factor);
    Reading::limited(Dividend::product(a.value(), numerator).over(denominator))
}

// The result of a computing command; those with one source leave out the second.
pub fn operate(operation: Operation, a: Reading, b: Reading) -> Reading
    ensures { result.value ≡ operated operation a.value b.value }
{
    match operation {
        Operation::Abs => Reading::nearest(a.value().abs()),
        Operation::Inv => Reading::nearest(-a.value()),
        Operation::Dir => a,
        Operation::Max => Reading::nearest(a.value().max(b.value())),
        Operation::Min => Reading::nearest(a.value().min(b.value())),
        Operation::Add => add(a, b),
        Operation::Sub => sub(a, b),
        Operation::Mul => mul(a, b),
        Operation::Div => div(a, b),
        Operation::Rez => div(Reading::nearest(FULL), a),
        Operation::Qua => mul(a, a),
        Operation::Rad => rad(a),
        Operation::Scale(factor) => scale(factor, a),
    }
}
