// A quotient by a period, rounded up, as products with a factor that is worked out once for the period.
#![tactic(auto)]

ghost use Rattle.std.specs.Prelude.{◌≡◌, ◌≤◌};
ghost use Rattle.model.specs.Arrival as model_arrival;
ghost use Rattle.quotient.specs.Factor.{parts_of, Divided};

// The factor of a period, 2^44 ÷ P rounded up, in two parts: high × 2^20 + low.
#[derive(Clone, Copy)]
pub struct Factor {
    pub high: u32,
    pub low: u32,
}

// The factor of a period.
pub fn factor_of(period: u32) -> Factor
    requires { 1 ≤ period }
    ensures { result ≡ parts_of period }
{
    let p = u64::from(period);
    let m = (17592186044416 + p - 1) / p;
    Factor {
        high: (m >> 20) as u32,
        low: (m % 1048576) as u32,
    }
}

// ceil(x ÷ P), by the factor of P.
pub fn ceil_div(x: u32, period: u32, high: u32, low: u32) -> u32
    requires { Divided x period high low }
    ensures { result ≡ model_arrival.ceil_div x period }
{
    let y = u64::from(x + period - 1);
    ((y * u64::from(high) + ((y * u64::from(low)) >> 20)) >> 24) as u32
}
