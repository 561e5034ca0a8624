//! Values of which most are 0, told by a mask and the other ones.

ghost use Rattle.std.specs.Prelude.{◌≡◌, ◌<◌, ◌≤◌, ◌++◌, IfSome, IsSome, IsTrue, length};
ghost use Rattle.told.specs.Bytes.{size_of};
ghost use Rattle.told.specs.Numbers.{numbers_in};
ghost use Rattle.told.specs.declared.numbers.TheConstants.{MOST_BYTES};
ghost use Rattle.machine.specs.Sparse.{AreZero, sparse};

use told::Told;

/// How many values are told by one mask at most.
const MOST_VALUES: usize = 32;

/// Puts at most 32 values of which most are 0 behind the numbers: a number whose bit i tells
/// whether value i is not 0, and then the values that are not 0. None where they have no room; some
/// of them may be put then.
pub fn put_sparse(values: &[u32], numbers: &mut Told) -> Option<()>
    requires { length values.now ≤ 32 }
    ensures behind { IfSome result
        (λ _. numbers_in numbers.new ≡ numbers_in numbers.old ++ sparse values.now) }
    ensures room { size_of (numbers_in numbers.old ++ sparse values.now) ≤ MOST_BYTES
        → IsSome result }
{
    let mut mask = 0u64;
    let mut bit = 1;
    let mut others = [0; MOST_VALUES];
    let mut count = 0;
    let mut i = 0;
    while i < values.len() {
        if are_zero(values, i) {
            bit *= 16;
            i += 4;
            continue;
        }
        if values[i] != 0 {
            mask += bit;
            others[count] = values[i];
            count += 1;
        }
        bit *= 2;
        i += 1;
    }
    numbers.put(mask as u32)?;
    numbers.put_all(&others[..count])
}

/// Whether there are four values from this place on, and they are 0.
fn are_zero(values: &[u32], i: usize) -> bool
    requires { i < length values.now }
    ensures { IsTrue result → AreZero values.now i }
{
    values.len() - i >= 4 && values[i] | values[i + 1] | values[i + 2] | values[i + 3] == 0
}
