//! Where a source and patterns are read from, a file or standard input: who opens it, its bytes.

ghost use Rattle.std.specs.Prelude.{◌≡◌, IfErr, IfOk, List, Ok, Option, Result, Some, false, true, ℕ};
ghost use Rattle.std.specs.Fn.{FnOnceReturnsAt};
ghost use Rattle.std.specs.Result.{result_map_both};
ghost use Rattle.orders.specs.Inputs.{IsTextOf, IsUnreadable, is_standard};
ghost use Rattle.orders.specs.declared.inputs.Input.TheVariants as input;

use crate::refusals::{FileFault, Refusal};
use regmodel::OutOfMemory;
use regmodel::limits::MOST_SOURCE_BYTES;
use std::alloc::Global;
use std::io;
use std::io::{BufReader, ErrorKind, Read};
use texts::ByteReader;

/// How standard input is named where a file may be.
pub const STANDARD_INPUT: &str = "-";

/// What a text can be read of.
pub trait Readable: Read + Drop {
    ghost use Rattle.orders.specs.declared.refusals.Refusal.{Refusal};

    /// What gives its bytes, one after another.
    type Bytes: ByteReader;

    /// Why it gives no text.
    ghost fails: { Self → Refusal → Type 0 };

    /// Its bytes, one after another. An error where a request for memory was refused.
    fn into_bytes(self, alloc: Global) -> Result<Self::Bytes, OutOfMemory>
        ensures { IfOk result (λ bytes. Self.Bytes.left bytes ≡ Self.remaining self) };

    /// All its bytes, where they are not too many.
    fn text(self, alloc: Global) -> Result<Vec<u8>, Refusal>
        ensures text { IfOk result (λ bytes. IsTextOf (Self.remaining self) bytes.items) }
        ensures refused { IfErr result (fails self) };
}

/// What opens files by their paths.
pub trait Opener {
    ghost use Rattle.std.specs.Result.{result_ok};

    /// What is read of a file.
    type Reader: Readable;

    /// Which file a path opens, or that it opens none.
    ghost opens: { Self → List ℕ → Option Self.Reader → Type 0 };

    /// The file of a path, which may be that of standard input (`input_of`); the error tells why
    /// it cannot be opened.
    fn open(&self, path: &str) -> Result<Self::Reader, FileFault>
        ensures { opens self.now path.now (result_ok result) };
}

/// What is read: standard input, or a file.
#[derive(Drop)]
pub enum Input<S, F> {
    /// Standard input.
    Standard(S),
    /// A file.
    File(F),
}

impl<S: Read, F: Read> Read for Input<S, F> {
    ghost remaining = { λ i.
        elim i [ input.Standard s ↦ S.remaining s | input.File f ↦ F.remaining f ] };

    fn read(&mut self, buf: &mut [u8]) -> io::Result<usize> {
        match self {
            Input::Standard(standard) => standard.read(buf),
            Input::File(file) => file.read(buf),
        }
    }
}

impl<S: Read + Drop, F: Read + Drop> Readable for Input<S, F> {
    type Bytes = BufReader<Input<S, F>>;

    ghost fails = { λ i. IsUnreadable
        (elim i [ input.Standard s ↦ S.remaining s | input.File f ↦ F.remaining f ]) };

    fn into_bytes(self, alloc: Global) -> Result<BufReader<Input<S, F>>, OutOfMemory> {
        let Ok(bytes) = BufReader::new(alloc, self) else {
            return Err(OutOfMemory);
        };
        Ok(bytes)
    }

    fn text(self, alloc: Global) -> Result<Vec<u8>, Refusal> {
        bytes_of(alloc, self)
    }
}

impl<'a> Readable for &'a [u8] {
    type Bytes = &'a [u8];

    ghost fails = { λ bytes. IsUnreadable (Some bytes.now) };

    fn into_bytes(self, _alloc: Global) -> Result<&'a [u8], OutOfMemory> {
        Ok(self)
    }

    fn text(self, alloc: Global) -> Result<Vec<u8>, Refusal> {
        bytes_of(alloc, self)
    }
}

/// What a path names: standard input where it is a dash, else the file that `opener` gives for it,
/// or why that cannot be opened.
pub fn input_of<S: Drop, F, O: FnOnce(&str) -> Result<F, FileFault> + Drop>(
    path: &str,
    standard: S,
    opener: O,
) -> Result<Input<S, F>, FileFault>
    requires { O.IsAlwaysCallable opener }
    ensures standard { is_standard path.now ≡ true → result ≡ Ok (input.Standard standard) }
    ensures file { is_standard path.now ≡ false
        → (file : Result F FileFault) × FnOnceReturnsAt O.FnOnce opener path.now file
        × (result ≡ result_map_both input.File (λ why. why) file) }
{
    if is_standard(path) {
        return Ok(Input::Standard(standard));
    }
    match opener(path) {
        Ok(file) => Ok(Input::File(file)),
        Err(why) => Err(why),
    }
}

/// Whether a path names standard input.
pub(crate) fn is_standard(path: &str) -> bool
    ensures { result ≡ is_standard path.now }
{
    path == STANDARD_INPUT
}

/// All bytes of a file, where they are not too many.
pub fn bytes_of<R: Read + Drop>(alloc: Global, file: R) -> Result<Vec<u8>, Refusal>
    ensures text { IfOk result (λ bytes. IsTextOf (R.remaining file) bytes.items) }
    ensures refused { IfErr result (IsUnreadable (R.remaining file)) }
{
    let mut bytes = Vec::new(alloc);
    match file
        .take(MOST_SOURCE_BYTES as u64 + 1)
        .read_to_end(&mut bytes)
    {
        Ok(count) if count <= MOST_SOURCE_BYTES => Ok(bytes),
        Ok(_) => Err(Refusal::LongFile),
        Err(error) if error.kind() == ErrorKind::OutOfMemory => Err(Refusal::Memory),
        Err(error) => Err(Refusal::File(FileFault::of(error.kind()))),
    }
}
