//! Numbers of labels.

ghost use Rattle.std.specs.Prelude.{◌≡◌, ◌<◌, ◌≤◌, ◌*◌, ◌%◌, ◌^◌};

/// A number times a power of some base.
#[derive(Clone, Copy, Debug)]
pub struct Scaled {
    pub number: u64,
    pub power: u32,
}

/// Returns an amount as a number times the greatest power of a base that divides it. The exponent
/// is at most `most`: 5,000 is 5 times 1,000.
pub fn split_powers(amount: u64, base: u64, most: u32) -> Scaled
    requires { 1 < base }
    ensures value { result.number * base ^ result.power ≡ amount }
    ensures bound { result.power ≤ most }
    ensures greatest { result.power < most → 0 < result.number → 0 < result.number % base }
{
    let mut number = amount;
    for power in 0..most {
        if number == 0 || number % base != 0 {
            return Scaled { number, power };
        }
        number /= base;
    }
    Scaled {
        number,
        power: most,
    }
}
