// Rate limiters.
ghost use Rattle.std.specs.Prelude.{◌≡◌, ◌<◌, ◌≤◌};
ghost use Rattle.timing.specs.Ramps.{Between, allowance as allowance_of, period as period_of, toward as toward_of};

use crate::phase::Phase;
use readings::reading::Reading;
use readings::settings::Rate;

fn period(rate: Rate) -> u32
    ensures value { result ≡ period_of rate }
    ensures positive { 0 < result }
{
    rate as u32
}

// How far the rate limiter may move in a cycle of this phase.
pub fn allowance(rate: Rate, phase: Phase) -> u32
    ensures value { result ≡ allowance_of (period_of rate) phase.number }
    ensures bound { result ≤ 8000 }
{
    let t = period(rate);
    let f = u32::from(phase.number());
    (f + 1) * 1600 / t - f * 1600 / t
}

// b moved toward a by n, or a if nearer.
fn toward(n: u32, a: Reading, b: Reading) -> Reading
    requires { n ≤ 8000 }
    ensures { result.value ≡ toward_of n a.value b.value }
{
    let low = b.value() - n as i32;
    let high = b.value() + n as i32;
    Reading::nearest(a.value().clamp(low, high))
}

// RL1 to RLC: b moved toward a by the allowance of the phase.
pub fn limit_rate(rate: Rate, phase: Phase, a: Reading, b: Reading) -> Reading
    ensures value { result.value ≡ toward_of (allowance_of (period_of rate) phase.number) a.value b.value }
    ensures between { Between a.value b.value result.value }
{
    toward(allowance(rate, phase), a, b)
}
