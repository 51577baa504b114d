// The computing commands at their edges; the expected readings were worked out apart from this code.
use arithmetic::operate::operate;
use arithmetic::operation::Operation;
use readings::reading::Reading;
use readings::settings::Factor;
use std::process::Abort;

// A command, its sources and its result.
type Example = (Operation, i32, i32, i32);

fn agree(rt: &impl Abort, examples: &[Example]) {
    for (operation, a, b, expected) in examples {
        let result = operate(*operation, Reading::nearest(*a), Reading::nearest(*b));
        assert_eq!(rt; result.value(), *expected);
    }
}

#[test]
fn plain(rt: HostRuntime) {
    agree(
        &rt,
        &[
            (Operation::Abs, -32767, 5, 32767),
            (Operation::Abs, 32767, 0, 32767),
            (Operation::Abs, 0, 7, 0),
            (Operation::Inv, -32767, 5, 32767),
            (Operation::Inv, 32767, 0, -32767),
            (Operation::Inv, 0, 7, 0),
            (Operation::Dir, -32767, 5, -32767),
            (Operation::Dir, 32767, 0, 32767),
            (Operation::Max, -32767, 32767, 32767),
            (Operation::Max, 5, 5, 5),
            (Operation::Max, -3, -4, -3),
            (Operation::Min, -32767, 32767, -32767),
            (Operation::Min, 5, 5, 5),
            (Operation::Min, -3, -4, -4),
        ],
    );
}

#[test]
fn sums(rt: HostRuntime) {
    agree(
        &rt,
        &[
            (Operation::Add, 32767, 32767, 31984),
            (Operation::Add, -32767, -32767, -31984),
            (Operation::Add, 32767, -32767, 0),
            (Operation::Add, 0, 0, 0),
            (Operation::Add, 31984, 1, 31984),
            (Operation::Add, -31984, -1, -31984),
            (Operation::Add, 16000, 16000, 31984),
            (Operation::Add, 31983, 1, 31984),
            (Operation::Add, 31984, 0, 31984),
            (Operation::Add, 32767, -784, 31983),
            (Operation::Sub, 32767, 32767, 0),
            (Operation::Sub, -32767, -32767, 0),
            (Operation::Sub, 32767, -32767, 31984),
            (Operation::Sub, 0, 0, 0),
            (Operation::Sub, 31984, 1, 31983),
            (Operation::Sub, -31984, -1, -31983),
            (Operation::Sub, 16000, 16000, 0),
            (Operation::Sub, 100, 30, 70),
            (Operation::Sub, -31984, 0, -31984),
            (Operation::Sub, -32767, -783, -31984),
        ],
    );
}

#[test]
fn products(rt: HostRuntime) {
    agree(
        &rt,
        &[
            (Operation::Mul, 32767, 32767, 31984),
            (Operation::Mul, -32767, -32767, 31984),
            (Operation::Mul, 32767, -32767, -31984),
            (Operation::Mul, 0, 0, 0),
            (Operation::Mul, 31984, 1, 1),
            (Operation::Mul, -31984, -1, 1),
            (Operation::Mul, 16000, 16000, 16000),
            (Operation::Mul, 24000, 24000, 31984),
            (Operation::Mul, -1, 1, 0),
            (Operation::Mul, -15999, 1, 0),
            (Operation::Mul, -16001, 1, -1),
            (Operation::Mul, 8000, -3, -1),
            (Operation::Qua, 22608, 1, 31945),
            (Operation::Qua, 22624, 1, 31984),
            (Operation::Qua, -22608, 1, 31945),
            (Operation::Qua, 126, 0, 0),
            (Operation::Qua, 127, 0, 1),
        ],
    );
}

#[test]
fn quotients(rt: HostRuntime) {
    agree(
        &rt,
        &[
            (Operation::Div, 32767, 32767, 16000),
            (Operation::Div, -32767, -32767, 16000),
            (Operation::Div, 32767, -32767, -16000),
            (Operation::Div, 0, 0, 0),
            (Operation::Div, 31984, 1, 31984),
            (Operation::Div, -31984, -1, 31984),
            (Operation::Div, 16000, 16000, 16000),
            (Operation::Div, 6400, -8000, -12800),
            (Operation::Div, 1, 0, 31984),
            (Operation::Div, -1, 0, -31984),
            (Operation::Div, 5, -32767, -2),
            (Operation::Div, 32767, 1, 31984),
            (Operation::Div, -7, 3, -31984),
            (Operation::Rez, 0, 9, 31984),
            (Operation::Rez, 8001, 0, 31984),
            (Operation::Rez, -8001, 0, -31984),
            (Operation::Rez, 16000, 0, 16000),
            (Operation::Rez, -32767, 0, -7812),
            (Operation::Rez, 1, 0, 31984),
        ],
    );
}

#[test]
fn roots(rt: HostRuntime) {
    agree(
        &rt,
        &[
            (Operation::Rad, -4000, 0, -8000),
            (Operation::Rad, 32767, 0, 22896),
            (Operation::Rad, -32767, 0, -22896),
            (Operation::Rad, 1, 0, 126),
            (Operation::Rad, 0, 0, 0),
            (Operation::Rad, -1, 0, -126),
        ],
    );
}

#[test]
fn factors_of_minus_100_percent(rt: HostRuntime) {
    agree(
        &rt,
        &[
            (Operation::Scale(Factor::Tenth), -16000, 0, -1600),
            (Operation::Scale(Factor::Eighth), -16000, 0, -2000),
            (Operation::Scale(Factor::Fifth), -16000, 0, -3200),
            (Operation::Scale(Factor::Quarter), -16000, 0, -4000),
            (Operation::Scale(Factor::Third), -16000, 0, -5333),
            (Operation::Scale(Factor::Half), -16000, 0, -8000),
            (Operation::Scale(Factor::Times2), -16000, 0, -31984),
            (Operation::Scale(Factor::Times3), -16000, 0, -31984),
            (Operation::Scale(Factor::Times4), -16000, 0, -31984),
            (Operation::Scale(Factor::Times5), -16000, 0, -31984),
            (Operation::Scale(Factor::Times8), -16000, 0, -31984),
            (Operation::Scale(Factor::Times10), -16000, 0, -31984),
            (Operation::Scale(Factor::Times20), -16000, 0, -31984),
            (Operation::Scale(Factor::Times40), -16000, 0, -31984),
            (Operation::Scale(Factor::Times50), -16000, 0, -31984),
            (Operation::Scale(Factor::Times100), -16000, 0, -31984),
        ],
    );
}

#[test]
fn factors_near_their_limits(rt: HostRuntime) {
    agree(
        &rt,
        &[
            (Operation::Scale(Factor::Tenth), 319, 1, 31),
            (Operation::Scale(Factor::Eighth), 319, 1, 39),
            (Operation::Scale(Factor::Fifth), 319, 1, 63),
            (Operation::Scale(Factor::Quarter), 319, 1, 79),
            (Operation::Scale(Factor::Third), 319, 1, 106),
            (Operation::Scale(Factor::Half), 319, 1, 159),
            (Operation::Scale(Factor::Times2), 319, 1, 638),
            (Operation::Scale(Factor::Times3), 319, 1, 957),
            (Operation::Scale(Factor::Times4), 319, 1, 1276),
            (Operation::Scale(Factor::Times5), 319, 1, 1595),
            (Operation::Scale(Factor::Times8), 319, 1, 2552),
            (Operation::Scale(Factor::Times10), 319, 1, 3190),
            (Operation::Scale(Factor::Times20), 319, 1, 6380),
            (Operation::Scale(Factor::Times40), 319, 1, 12760),
            (Operation::Scale(Factor::Times50), 319, 1, 15950),
            (Operation::Scale(Factor::Times100), 319, 1, 31900),
        ],
    );
}
