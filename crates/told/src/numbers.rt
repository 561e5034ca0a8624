//! Numbers told one behind another.

ghost use Rattle.std.specs.Prelude.{◌≡◌, ◌+◌, ◌<◌, ◌≤◌, ◌∷◌, [], ◌++◌, IfSome, IsSome, length, take, true};
ghost use Rattle.told.specs.declared.bytes.TheConstants.{SMALL};
ghost use Rattle.told.specs.declared.numbers.TheConstants.{FEW, MOST_BYTES};
ghost use Rattle.told.specs.Bytes.{numbers_of, size_of};
ghost use Rattle.told.specs.Wholes.{AreWhole, EndAlone};

use crate::bytes::{ALONE, FOUR, LARGE, SMALL, TWO, both, pair};

/// The most bytes of numbers that are told one behind another.
pub const MOST_BYTES: usize = 128;

/// How many bytes are copied at once where there are no more.
const FEW: usize = 16;

/// Numbers told one behind another, in at most 128 bytes: a number below 15 takes one, which it may
/// share with the next one if that is below 15, too; any other below 3840 takes two, and else five.
#[derive(Clone, Copy)]
pub struct Told {
    /// The bytes of the numbers; those behind them hold what they held.
    bytes: [u8; MOST_BYTES],
    /// How many bytes there are.
    size: u32,
    /// How many numbers they tell.
    count: u32,
    /// Whether it is known that the last byte is of one small number, so that another may share it.
    is_open: bool,
    ghost room: { size ≤ MOST_BYTES },
    ghost whole: { AreWhole (take size bytes) },
    ghost fits: { size ≤ size_of (numbers_of (take size bytes)) },
    ghost counted: { count ≡ length (numbers_of (take size bytes)) },
    ghost last: { is_open ≡ true → EndAlone (take size bytes) },
}

impl Told {
    ghost use Rattle.told.specs.Numbers.{bytes_in, numbers_in};

    /// No number.
    pub fn new() -> Told
        ensures { numbers_in result ≡ [] }
    {
        Told {
            bytes: [0; MOST_BYTES],
            size: 0,
            count: 0,
            is_open: false,
        }
    }

    /// Forgets all numbers.
    pub fn clear(&mut self)
        ensures { numbers_in self.new ≡ [] }
    {
        self.size = 0;
        self.count = 0;
        self.is_open = false;
    }

    /// How many numbers there are.
    pub fn count(&self) -> u32
        ensures { result ≡ length (numbers_in self.now) }
    {
        self.count
    }

    /// The bytes of the numbers.
    pub fn bytes(&self) -> &[u8]
        ensures numbers { numbers_of result.now ≡ numbers_in self.now }
        ensures bytes { result.now ≡ bytes_in self.now }
    {
        &self.bytes[..self.size as usize]
    }

    /// Puts a number behind the others. None where its bytes have no room, and nothing is put then.
    pub fn put(&mut self, number: u32) -> Option<()>
        ensures behind { IfSome result
            (λ _. numbers_in self.new ≡ numbers_in self.old ++ number ∷ []) }
        ensures room { size_of (numbers_in self.old ++ number ∷ []) ≤ MOST_BYTES → IsSome result }
    {
        if number >= SMALL {
            return self.put_large(number);
        }
        if self.is_open {
            self.join(number);
            return Some(());
        }
        self.put_alone(number)
    }

    /// Puts a small number behind the others, into the byte of the last one.
    fn join(&mut self, number: u32)
        requires small { number < SMALL }
        requires open { self.old.is_open ≡ true }
        ensures { numbers_in self.new ≡ numbers_in self.old ++ number ∷ [] }
    {
        let last = self.size as usize - 1;
        let first = u32::from(self.bytes[last]) - ALONE;
        self.bytes[last] = both(first, number);
        self.count += 1;
        self.is_open = false;
    }

    /// Puts a small number behind the others, in a byte of its own.
    fn put_alone(&mut self, number: u32) -> Option<()>
        requires { number < SMALL }
        ensures behind { IfSome result
            (λ _. numbers_in self.new ≡ numbers_in self.old ++ number ∷ []) }
        ensures room { size_of (numbers_in self.old ++ number ∷ []) ≤ MOST_BYTES → IsSome result }
    {
        let end = self.size as usize;
        if end >= MOST_BYTES {
            return None;
        }
        self.bytes[end] = (ALONE + number) as u8;
        self.size = end as u32 + 1;
        self.count += 1;
        self.is_open = true;
        Some(())
    }

    /// Puts a number that is not small behind the others.
    fn put_large(&mut self, number: u32) -> Option<()>
        requires { SMALL ≤ number }
        ensures behind { IfSome result
            (λ _. numbers_in self.new ≡ numbers_in self.old ++ number ∷ []) }
        ensures room { size_of (numbers_in self.old ++ number ∷ []) ≤ MOST_BYTES → IsSome result }
    {
        if number < LARGE {
            let [lower, upper] = pair(number);
            return self.put_bytes(&[TWO as u8 + upper, lower], 1);
        }
        let [a, b] = pair(number & 0xffff);
        let [c, d] = pair(number >> 16);
        self.put_bytes(&[FOUR as u8, a, b, c, d], 1)
    }

    /// Puts these numbers behind the others. None where their bytes have no room; some of them may
    /// be put then.
    pub fn put_all(&mut self, numbers: &[u32]) -> Option<()>
        ensures behind { IfSome result
            (λ _. numbers_in self.new ≡ numbers_in self.old ++ numbers.now) }
        ensures room { size_of (numbers_in self.old ++ numbers.now) ≤ MOST_BYTES → IsSome result }
    {
        for number in numbers {
            self.put(*number)?;
        }
        Some(())
    }

    /// Puts the numbers of another one behind its own. None where their bytes have no room, and
    /// nothing is put then.
    pub fn put_told(&mut self, other: &Told) -> Option<()>
        ensures behind { IfSome result
            (λ _. numbers_in self.new ≡ numbers_in self.old ++ numbers_in other.now) }
        ensures room { size_of (numbers_in self.old ++ numbers_in other.now) ≤ MOST_BYTES
            → IsSome result }
    {
        if other.size as usize <= FEW && self.size as usize <= MOST_BYTES - FEW {
            self.put_few(other);
            return Some(());
        }
        self.put_bytes(other.bytes(), other.count)?;
        self.is_open = other.is_open;
        Some(())
    }

    /// The same where the other one has few bytes. So many are copied without a call: those behind
    /// its own mean nothing.
    fn put_few(&mut self, other: &Told)
        requires few { other.now.size ≤ FEW }
        requires room { self.old.size + FEW ≤ MOST_BYTES }
        ensures { numbers_in self.new ≡ numbers_in self.old ++ numbers_in other.now }
    {
        let start = self.size as usize;
        self.bytes[start..start + FEW].copy_from_slice(&other.bytes[..FEW]);
        self.size += other.size;
        self.count += other.count;
        self.is_open = other.is_open;
    }

    /// Puts the bytes of so many numbers behind the others, where there is room for them. What
    /// comes next shares none of them.
    fn put_bytes(&mut self, bytes: &[u8], count: u32) -> Option<()>
        requires whole { AreWhole bytes.now }
        requires fits { length bytes.now ≤ size_of (numbers_of bytes.now) }
        requires count { count ≡ length (numbers_of bytes.now) }
        ensures bytes { IfSome result (λ _. bytes_in self.new ≡ bytes_in self.old ++ bytes.now) }
        ensures behind { IfSome result
            (λ _. numbers_in self.new ≡ numbers_in self.old ++ numbers_of bytes.now) }
        ensures room { size_of (numbers_in self.old ++ numbers_of bytes.now) ≤ MOST_BYTES
            → IsSome result }
    {
        let start = self.size as usize;
        if bytes.len() > MOST_BYTES - start {
            return None;
        }
        let end = start + bytes.len();
        self.bytes[start..end].copy_from_slice(bytes);
        self.size = end as u32;
        self.count += count;
        self.is_open = false;
        Some(())
    }
}
