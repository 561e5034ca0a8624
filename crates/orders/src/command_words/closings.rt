//! What the help says below the words of a command.

/// What the help of a subcommand ends with. The table of subcommands names it, since the prover
/// goes through each letter of what stands there.
#[derive(Clone, Copy)]
pub(crate) enum Closing {
    /// On a check.
    Checks,
    /// On patterns.
    Patterns,
    /// On parts.
    Merges,
    /// On the text of a schedule.
    Schedules,
    /// On a drawing.
    Drawings,
    /// On the statuses alone.
    Statuses,
}

impl Closing {
    /// Its text.
    pub(crate) fn text(self) -> &'static str {
        match self {
            Closing::Checks => CHECKS,
            Closing::Patterns => PATTERNS,
            Closing::Merges => MERGES,
            Closing::Schedules => SCHEDULES,
            Closing::Drawings => DRAWINGS,
            Closing::Statuses => STATUSES,
        }
    }
}

/// What the help says of the statuses.
pub(crate) const STATUSES: &str = "Statuses:
  0  check, explore, merge: no schedule fails; find: no schedule leads there; replay, show, explore --part: done
  1  check, explore, merge: a schedule fails; find: a schedule leads there
  2  the words, a setting, the schedule, the file or the source is refused
  3  memory ran out, or the result could not be made or written

What explore and replay refuse they tell in one line for programs that read it, as `regtry: setting 1` for a --length past its limit;
check, find, show and merge tell it in words. Help is printed on standard error, with status 2, and the version on standard output, with status 0.";

/// What the help says of the text of a schedule.
const SCHEDULES: &str = "Letters of a schedule:
  R0  process 0 takes a step: it does the register access that it wants, and goes on to its next one or its end
  C0  process 0 crashes: it takes no further step
Processes are numbered from 0, in the order of the source. A letter is possible where its process wants an access
and has not crashed.

Example: regtry replay FILE 'R0 R1 C0' lets process 0 take a step, then process 1, and then crashes process 0.
It prints how each process stands after that and what each register holds, whether or not the processes ended.
Where a letter is not possible, `regtry: letter P` tells its place, counted from 0: P is 7 for the eighth.
There regtry show counts from 1, and tells why.

Statuses:
  0  the schedule was replayed
  2  the words, the schedule, the file or the source is refused, or a letter is not possible where it stands
  3  memory ran out, or the result could not be written";

/// What the help says of a check.
const CHECKS: &str =
    "A schedule fails where its outcome breaks a check, and where a process is at fault at its end: a value of the process is
below 0 or above 1000000000, or it names a register or a cell that is not there, repeats more than 99 times, or emits a
ninth number. With --allow-faults only a check that is broken counts.

Where a schedule fails, it prints the least one that does: the check that its outcome breaks and the line of that check, of
several the first one but `ended`; the lowest process at fault and why; the schedule as a drawing (see regtry show --help);
and the command that draws it again.
The least schedule is often not the shortest. With --shortest the lengths 0, 1, 2 and so on are tried one after another, and the
least schedule of the first length at which one fails is printed. Below the greatest length a check for `ended` is left out.
Where no schedule of a length is cut off, none is longer, and no further length is tried.
Where none fails, it prints how much was tried, and whether schedules were cut off at the greatest length with a process
still running: longer ones were not tried then. It says what was looked for where there is no check line, and which check no
outcome could break, and why. With --outcomes the outcomes of all schedules are printed as well, whether one fails or not.

Where several files are named, it does so for each in turn: one that cannot be read or is refused stops no other one. The status is
the highest, and a last line says how many hold, fail and are refused.

Example: regtry check FILE --crashes 1 tries all schedules of up to 64 letters in which at most one process crashes.

Statuses:
  0  no schedule fails
  1  a schedule fails
  2  the words, a setting, the file or the source is refused: a refused source is explained
  3  memory ran out, or the result could not be made or written";

/// What the help says of a search.
const PATTERNS: &str =
    "A pattern is one word: it says how each process may stand, processes from 0, parted by '; ', in one of these ways:
  done 1 20      done with just these numbers; done alone: with none
  done *         done with any numbers
  done * 9 *     done with 9 among its numbers
  fault 2        at fault with this code: 1 to 4
  crashed        it has crashed
  running        it still wants an access
  crashed idle   as one of these, and it took no step: without idle it took one (but for what has a *)
  *              in any way
Where several are given, an outcome has to match one of them. A dash in place of patterns has them read from standard input, one
a line, also a line of a report that begins with `outcome`: regtry explore .. | grep .. | regtry find FILE -

It prints the least schedule that leads to such an outcome, as a drawing (see regtry show --help), and the command that
draws it again; or that no schedule leads there.

Example: regtry find FILE 'done 1; done 1' shows how both processes can be done with 1.

Statuses:
  0  no schedule leads there
  1  a schedule leads there
  2  the words, a setting, a pattern, the file or the source is refused: a refused source is explained
  3  memory ran out, or the result could not be made or written";

/// What the help says of parts.
const MERGES: &str =
    "A part is what `regtry explore --part I/N` prints. All N parts of one exploration, whole ones, one
or more in each file and in any order, are merged into the report that explore prints without
--part, or, where they were explored with --least, into its least failing schedule. The files are
read one after another, and one part is held at a time.

Example: these three commands print what regtry explore FILE .. prints.
  regtry explore FILE .. --part 1/2 > part-1
  regtry explore FILE .. --part 2/2 > part-2
  regtry merge part-1 part-2

Statuses:
  0  no schedule fails
  1  a schedule fails
  2  the words or a file are refused, or parts are: a file has none or ends in the midst of one, a
     line is none of a part, a part is there twice or missing, or two parts are not of one
     exploration; it is said which, and in which file the later one is
  3  memory ran out, there are more schedules than can be counted, or the report could not be
     written";

/// What the help says of a drawing.
const DRAWINGS: &str = "Letters of a schedule:
  R0  process 0 takes a step: it does the register access that it wants, and goes on to its next one or its end
  C0  process 0 crashes: it takes no further step
Processes are numbered from 0, in the order of the source. A letter is possible where its process wants an access
and has not crashed.

Example: regtry show FILE 'R0 R1 C0' draws three steps.
It prints a line a letter: in the column of its process `write 0 5` for a write of 5 into register
0, `read 0 = 5` for a read that found 5 there, `scan 0 3 = 5 0 7` for a scan of 3 registers from 0
on with what it found in each, or `crash`; behind the last letter of a process how that came to its
end by it, as `, done 4` or `, fault 2`; then what each register holds after it, r0 first, with a
star where the letter changed it. The line of step 0 has what they hold at the start. Below the
letters a line says how each process stands, and then the lowest process at fault is told, if any,
at which line of the source and why. A comment line of the source, as `# register 0: flag[0]`, gives
a register a name of at most 16 characters, which stands there in place of its number. With --lines
a column behind that of the steps tells the line of the statement that took each.

A line is at most 80 places long where there are at most two processes, else 132. Registers are left
out until that holds or none is left, first those that no letter reads or writes, then those that
are only read, then those that are only written, and each time the last one; a line below then says
how many, and how many of them a letter writes. With --all none is left out, and with
--registers 0,3-5 those are drawn and no others.

Statuses:
  0  the schedule was drawn
  2  the words, the schedule, the file or the source is refused, or a letter is not possible where it stands
  3  memory ran out, or the result could not be written";
