//! Words of other languages, and how what they say is written here.

ghost use Rattle.std.specs.Prelude.{◌≡◌, map, option_copied};
ghost use Rattle.explanations.specs.Idioms as spec;
ghost use Rattle.reglines.specs.Words.{spelled_in};

const AND: &str = "write A * B for A and B: it is 0 where one of them is";

const OR: &str = "write A + B for A or B: it is 0 where both are";

const NOT: &str = "write A = 0 for not A";

const UNEQUAL: &str = "A and B differ where A = B is 0: write A = B, and compare that with 0";

const DIVISION: &str = "there is no division: subtract in a repeat, and count the turns";

const REMAINDER: &str = "there is no remainder: subtract in a repeat, and take what is left";

const ONE_ALONE: &str = "write A + B for A xor B, and compare that with 1";

const ONE_OF_TWO: &str = "there is no max and no min: write if v0 < v1, and set what is taken in \
    it and below its else";

const ADDITION: &str = "write the sum or difference out, as in set v0 v0 + 1";

const OWN_NUMBER: &str = "a process has no word for its own number: write that out in each one; m4 \
    makes such copies (docs/RECIPES.md)";

const ELSE_IF: &str = "write else, and if on the next line; each if has its own fi";

const LEFT_OUT: &str = "leave it out: what is run stands on the lines behind the if or repeat";

const LOOP: &str =
    "write repeat with as many turns as may be needed, and an if in it: further turns do nothing";

const AWAIT: &str = "write repeat with some turns, in which the register is read, and an if with \
    the rest of the process and halt (docs/LANGUAGE.md)";

const BREAK: &str =
    "write an if in the repeat, so that further turns do nothing; halt ends the whole process";

const JUMP: &str = "there are no jumps: write repeat and if; halt ends the whole process";

const CHOICE: &str = "the schedules choose: read a register that a further process writes";

const ASSERTION: &str = "write if with what must hold, and write 64 0 below its else: a process at \
    fault fails each check at once";

const BOTH: &str = "there is none: a step reads or writes, and does not do both";

const RETURN: &str = "write emit for each number, and then halt";

const DECLARATION: &str = "leave it out: the variables v0 to v15 are there from the start";

const START: &str = "registers, variables and cells are 0 at first; for another value of a \
    variable begin with set, as in set v0 5";

const ONE_STEP: &str = "leave it out: each read, write and scan is one step";

const MUTEX: &str = "docs/RECIPES.md tells under Mutual exclusion how that is asked for";

/// Words of other languages, each with how what it says is written here.
const IDIOMS: [(&[u8], &str); 70] = [
    (b">", "write B < A for A > B"),
    (
        b"<=",
        "A <= B holds where B < A is 0: write B < A, and compare that with 0",
    ),
    (
        b">=",
        "A >= B holds where A < B is 0: write A < B, and compare that with 0",
    ),
    (b"!=", UNEQUAL),
    (b"<>", UNEQUAL),
    (b"==", "write = for equality"),
    (b"and", AND),
    (b"&&", AND),
    (b"&", AND),
    (b"or", OR),
    (b"||", OR),
    (b"|", OR),
    (b"not", NOT),
    (b"!", NOT),
    (b"true", "write 1 for true"),
    (b"false", "write 0 for false"),
    (b"/", DIVISION),
    (b"div", DIVISION),
    (b"%", REMAINDER),
    (b"mod", REMAINDER),
    (b"**", "there is no power: multiply in a repeat"),
    (
        b"^",
        "multiply in a repeat for a power; for A xor B write A + B, and compare that with 1",
    ),
    (b"xor", ONE_ALONE),
    (b"max", ONE_OF_TWO),
    (b"min", ONE_OF_TWO),
    (b"+=", ADDITION),
    (b"-=", ADDITION),
    (b":=", "leave it out, as in set v0 1"),
    (b"elif", ELSE_IF),
    (b"elsif", ELSE_IF),
    (b"elseif", ELSE_IF),
    (b"endif", "write fi"),
    (b"then", LEFT_OUT),
    (b"do", LEFT_OUT),
    (b"while", LOOP),
    (b"until", LOOP),
    (b"for", LOOP),
    (b"loop", LOOP),
    (b"await", AWAIT),
    (b"wait", AWAIT),
    (b"break", BREAK),
    (b"continue", BREAK),
    (b"goto", JUMP),
    (b"either", CHOICE),
    (b"choose", CHOICE),
    (b"cas", BOTH),
    (b"swap", BOTH),
    (b"faa", BOTH),
    (b"skip", "leave it out: a block may be empty"),
    (b"atomic", ONE_STEP),
    (b"return", RETURN),
    (b"exit", RETURN),
    (b"print", "write emit"),
    (b"assert", ASSERTION),
    (b"let", DECLARATION),
    (b"var", DECLARATION),
    (b"int", DECLARATION),
    (b"local", DECLARATION),
    (b"me", OWN_NUMBER),
    (b"self", OWN_NUMBER),
    (b"pid", OWN_NUMBER),
    (b"const", "leave it out, and write the number itself"),
    (b"init", START),
    (
        b"deadlock",
        "docs/PROGRESS.md tells under Deadlock how that is asked for",
    ),
    (b"mutex", MUTEX),
    (b"mutual", MUTEX),
    (
        b"linearizable",
        "docs/LINEARIZABLE.md tells how that is asked for, by a script",
    ),
    (
        b"never",
        "write check atmost with this number and 0, as in check atmost 99 0 (docs/RECIPES.md)",
    ),
    (b"{", "leave it out"),
    (b"}", "write end, fi or done"),
];

/// How what a word says is written here, where it is one of these.
fn here_in(idioms: &[(&'static [u8], &'static str)], word: &[u8]) -> Option<&'static str>
    ensures { option_copied result
        ≡ spelled_in (map (λ row. (row.0.now, row.1.now)) idioms.now) word.now }
{
    for (foreign, here) in idioms {
        if word == *foreign {
            return Some(*here);
        }
    }
    None
}

/// How what a word says is written here, where it is one of the table.
pub(crate) fn idiom_of(word: &[u8]) -> Option<&'static str>
    ensures { option_copied result ≡ spec.idiom_of word.now }
{
    here_in(&IDIOMS, word)
}
