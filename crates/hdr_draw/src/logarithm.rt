//! Logarithms of whole numbers.

ghost use Rattle.std.specs.Prelude.{◌≡◌, ◌<◌, ◌≤◌, ◌*◌, max};
ghost use Rattle.hdr_draw.specs.Logarithm.{IsLogarithm, bend};

/// The logarithm of 2: logarithms are in 65,536ths.
pub const OCTAVE: u64 = 65_536;

/// Returns the logarithm of the number from 1 to 2 that is this many 65,536ths above 1.
#[tactic(auto, using(crate::proofs::Bend::bend_bound), unfolding(crate::specs::Logarithm::bend))]
fn bend(part: u64) -> u64
    requires { part ≤ 65536 }
    ensures is { result ≡ bend part }
    ensures bound { result ≤ 65536 }
{
    part * (86 * OCTAVE - 22 * part) / (64 * OCTAVE)
}

/// Returns an approximate logarithm to the base of 2, less than 0.0082 below or above; 0 is taken
/// as 1.
pub fn logarithm(value: u64) -> u64
    ensures is { IsLogarithm (max 1 value) result }
    ensures bound { result ≤ 64 * 65536 }
{
    let value = value.max(1);
    let bits = value.ilog2();
    let power = 1u64 << bits;
    let part = u128::from(value - power) * u128::from(OCTAVE) / u128::from(power);
    u64::from(bits) * OCTAVE + bend(part as u64)
}
