//! Sources that are read, written, and written out where they have use lines.

use reglang::{Source, Use, expand, read_source, read_text, write_source};
use regmodel::{Clause, Expr, Operand, Prog, Stmt};
use std::alloc::Global;
use std::io::Write;
use std::process::Abort;
use std::test::Fail;

/// A text that is refused at its end, and one that is refused before.
const REFUSED: [(&[u8], bool); 2] = [
    (b"registers 1\nprocess\nhalt", true),
    (b"registers 1\nprocess\nif v0\nend\n", false),
];

#[test]
fn tells_whether_the_end_is_at_fault(rt: HostRuntime) -> Result<(), Fail> {
    for (text, is_of_end) in REFUSED {
        let rejection = read_text(rt.alloc(), text).err().ok_or("taken")?;
        assert!(rt; rejection.is_of_end == is_of_end);
        assert!(rt; read_source(rt.alloc(), text).err() == Some(rejection.fault()));
    }
    Ok(())
}

/// Uses, over so many registers.
const USES: [(&[u8], Use); 8] = [
    (
        b"registers 2\nprocess\nuse split 0 1\nend\n",
        Use::Split(0, 1),
    ),
    (
        b"registers 2\nprocess\nuse split 0 2\nend\n",
        Use::Split(0, 2),
    ),
    (
        b"registers 2\nprocess\nuse name 0 2 0\nend\n",
        Use::Name(0, 2, 0),
    ),
    (
        b"registers 2\nprocess\nuse name 0 2 1\nend\n",
        Use::Name(0, 2, 1),
    ),
    (
        b"registers 2\nprocess\nuse names 0 2 0\nend\n",
        Use::Names(0, 2, 0),
    ),
    (
        b"registers 6\nprocess\nuse names 4 2 1\nend\n",
        Use::Names(4, 2, 1),
    ),
    (
        b"registers 12\nprocess\nuse tree 0 2 1 1\nend\n",
        Use::Tree(0, 2, 1, 1),
    ),
    (
        b"registers 6\nprocess\nuse grid 0 2 2\nend\n",
        Use::Grid(0, 2, 2),
    ),
];

/// A program in full.
fn shown(alloc: Global, prog: &Prog) -> Result<Vec<u8>, Fail> {
    let mut text = Vec::new(alloc);
    write!(text, "{prog:?}")?;
    Ok(text)
}

/// Compares the program of a source's one process with the expansion of a use line
/// over as many registers.
fn expands_to(rt: &(impl Abort + AllocGlobal), source: &Source, kind: &Use) -> Result<(), Fail> {
    assert!(rt; source.processes() == 1);
    let prog = source.prog(rt.alloc(), 0)?;
    let expanded = expand(rt.alloc(), kind, source.registers())?;
    assert!(rt;
        shown(rt.alloc(), &prog)? == shown(rt.alloc(), &expanded)?,
        "{kind:?}"
    );
    Ok(())
}

#[test]
fn use_lines_stand_for_their_expansions(rt: HostRuntime) -> Result<(), Fail> {
    for (text, kind) in USES {
        let source = read_source(rt.alloc(), text)?;
        assert!(rt; source.use_of(0) == Some(&kind));
        expands_to(&rt, &source, &kind)?;
    }
    Ok(())
}

/// The program of `use names 4 2 1`, line by line.
const NAMES: &[u8] =
    b"registers 6\nprocess\nset v0 1\nrepeat 99\nwrite 5 v0\nscan 0 4 2\nset [1] 0\nset v1 0\nset v2 1\nset v3 0\nrepeat 2\nif [v3] = v0\nset v1 1\nfi\nif v3 < 1\nif [v3]\nset v2 v2 + 1\nfi\nfi\nset v3 v3 + 1\ndone\nif v1 = 0\nemit v0\nhalt\nfi\nset v4 0\nrepeat 3\nif v2\nset v4 v4 + 1\nset v5 0\nset v3 0\nrepeat 2\nif [v3] = v4\nset v5 1\nfi\nset v3 v3 + 1\ndone\nif v5 = 0\nset v2 v2 - 1\nfi\nfi\ndone\nset v0 v4\ndone\nend\n";

#[test]
fn the_program_of_names_is_written_out(rt: HostRuntime) -> Result<(), Fail> {
    expands_to(&rt, &read_source(rt.alloc(), NAMES)?, &Use::Names(4, 2, 1))
}

const EVERY_LINE: &[u8] =
    b"# every line\nregisters 64\ncheck distinct\nprocess\nset v0 v15 + 1000000000\n  set [31] [v3]\n\nread [v0] 0\nwrite [2] 0 < v1\nscan 0 32 32\nif v0\nelse\nemit v0\nfi\nrepeat 100\ndone\nhalt\nend\ncheck atmost 1000000000 8\nprocess\nuse split 62 1\nend\ncheck within 5 4";

#[test]
fn reads_every_line(rt: HostRuntime) -> Result<(), Fail> {
    let source = read_source(rt.alloc(), EVERY_LINE)?;
    assert!(rt; (source.registers(), source.processes()) == (64, 2));
    let uses = (source.use_of(0), source.use_of(1));
    assert!(rt; uses == (None, Some(&Use::Split(62, 1))));
    let clauses = [
        Clause::Distinct,
        Clause::AtMost(1000000000, 8),
        Clause::Within(5, 4),
    ];
    assert!(rt; source.clauses().list() == clauses.as_slice());
    Ok(())
}

#[test]
fn reads_the_parts_of_an_if(rt: HostRuntime) -> Result<(), Fail> {
    let source = read_source(rt.alloc(), EVERY_LINE)?;
    let prog = source.prog(rt.alloc(), 0)?;
    let Some(Stmt::If(test, first, second)) = prog.body().get(5) else {
        return Err(Fail::from("no if"));
    };
    let counts = (prog.body().len(), first.len(), second.len());
    assert!(rt; counts == (8, 0, 1));
    assert!(rt; *test == Expr::One(Operand::Var(0)));
    Ok(())
}

#[test]
fn a_source_is_written_or_nothing_where_memory_is_refused(rt: HostRuntime) -> Result<(), Fail> {
    let source = read_source(rt.alloc(), EVERY_LINE)?;
    let mut out = Vec::new(rt.alloc());
    out.extend_from_slice(b"before")?;
    match write_source(&source, &mut out) {
        Ok(()) => assert!(rt; out.as_slice().starts_with(b"beforeregisters 64\n")),
        Err(_) => assert!(rt; out.as_slice() == b"before".as_slice()),
    }
    Ok(())
}

#[test]
fn a_source_is_written_behind_what_is_there(rt: HostRuntime) -> Result<(), Fail> {
    let source = read_source(rt.alloc(), b"registers 1\nprocess\nend\n")?;
    let mut out = Vec::from_slice(rt.alloc(), b"# one\n")?;
    write_source(&source, &mut out)?;
    write_source(&source, &mut out)?;
    assert!(rt;
        out.as_slice()
            == b"# one\nregisters 1\nprocess\nend\nregisters 1\nprocess\nend\n".as_slice()
    );
    Ok(())
}

/// Sources as they are written.
const WRITTEN: [&[u8]; 3] = [
    b"registers 1\nprocess\nwrite 0 5\nend\n",
    b"registers 1\nprocess\nrepeat 8\nemit 1\ndone\nend\n",
    b"registers 2\nprocess\nuse split 0 1\nend\nprocess\nuse split 0 2\nend\ncheck atmost 3 0\n",
];

#[test]
fn a_source_that_was_written_is_read_and_written_again(rt: HostRuntime) -> Result<(), Fail> {
    for text in WRITTEN {
        let mut out = Vec::new(rt.alloc());
        write_source(&read_source(rt.alloc(), text)?, &mut out)?;
        assert!(rt; out.as_slice() == text);
    }
    Ok(())
}
