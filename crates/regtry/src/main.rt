//! The program: checks, explores and searches sources, merges parts, and replays and draws a
//! schedule.
#![tactic(auto)]

ghost use Rattle.std.specs.Prelude.{◌≡◌, Some, true};
ghost use Rattle.orders.specs.Inputs.{is_standard};
ghost use Rattle.orders.specs.declared.inputs.Input.TheVariants as input;

use cli::{FileFault, Input, Opener, Watched, command, input_of, perform, words_of};
use std::fs::File;
use std::io::{ErrorKind, Stdin};
use std::process::ExitCode;
use std::{fs, io};

/// The files of the system, and its standard input.
#[derive(Drop)]
struct System<'a> {
    rt: &'a HostRuntime,
    standard: Stdin,
}

impl Opener for System<'_> {
    type Reader = Input<Stdin, File>;

    ghost opens = { λ system path file. is_standard path ≡ true
        → file ≡ Some (input.Standard system.standard) };

    fn open(&self, path: &str) -> Result<Input<Stdin, File>, FileFault> {
        let rt = self.rt;
        input_of(path, self.standard, |path: &str| match file_at(rt, path) {
            Ok(file) => Ok(file),
            Err(error) => Err(FileFault::of(error.kind())),
        })
    }
}

/// The file of a path. A folder, which the system opens as well, is none.
fn file_at(rt: &HostRuntime, path: &str) -> io::Result<File> {
    if fs::metadata(rt, path)?.is_dir() {
        return Err(io::Error::from(ErrorKind::IsADirectory));
    }
    fs::open(rt, path)
}

fn main(rt: HostRuntime) -> ExitCode {
    let system = System {
        rt: &rt,
        standard: rt.stdin(),
    };
    let (mut out, mut err) = (Watched::new(rt.stdout()), rt.stderr());
    let words = words_of(&rt);
    let request = command(&rt, &words, &system, &mut err);
    ExitCode::from(perform(&rt, rt.alloc(), request, &system, &mut out, &mut err))
}

#[cfg(test)]
mod tests;
