//! The texts of parts of an exploration, read from a stream.

use part_texts::{BadPart, PartCause, PartFound, PartReport, PartStream};
use std::alloc::Global;
use std::io::{self, BufReader, ErrorKind, Read};
use std::test::Fail;

/// What was found of a part.
const EXPLORED: &[u8] =
    b"part 3 of 16\nprocesses 2\nlength 20\ncrashes 0\ncut 4\nsource 6\nempty\ntried 123\noutcomes 2\noutcome done; done 0\noutcome done; done 5\nleast none\nend\n";

/// The least failing schedule of a part.
const FAILS: &[u8] =
    b"part 16 of 16\nprocesses 2\nlength 64\ncrashes 8\ncut 16\nsource 0\nleast R0 C1\nfails done 7 8; crashed idle\nend\n";

/// The same where none fails.
const HOLDS: &[u8] =
    b"part 1 of 65536\nprocesses 8\nlength 0\ncrashes 0\ncut 0\nsource 1\n\nleast none\nend\n";

/// The first part of a text.
fn first_of(alloc: Global, text: &[u8]) -> Result<Option<PartReport>, BadPart> {
    PartStream::new(text).next_part(alloc)
}

/// The first part of a text that has one.
fn part_of(alloc: Global, text: &[u8]) -> Result<PartReport, Fail> {
    Ok(first_of(alloc, text)?.ok_or("no part is there")?)
}

/// Whether no part is left.
fn is_over(alloc: Global, stream: &mut PartStream<&[u8]>) -> bool {
    matches!(stream.next_part(alloc), Ok(None))
}

/// The number of the next part, which is there.
fn next_number(alloc: Global, stream: &mut PartStream<&[u8]>) -> Result<u32, Fail> {
    let report = stream.next_part(alloc)?.ok_or("no part is there")?;
    Ok(report.head.part().number())
}

#[test]
fn parts_one_after_another_are_read(rt: HostRuntime) -> Result<(), Fail> {
    let mut texts = Vec::new(rt.alloc());
    for text in [EXPLORED, FAILS, HOLDS] {
        texts.extend_from_slice(text)?;
    }
    let mut stream = PartStream::new(texts.as_slice());
    for number in [3, 16, 1] {
        assert!(rt; next_number(rt.alloc(), &mut stream)? == number);
    }
    assert!(rt; is_over(rt.alloc(), &mut stream));
    assert!(rt; is_over(rt.alloc(), &mut stream));
    Ok(())
}

#[test]
fn a_part_tells_what_stood_there(rt: HostRuntime) -> Result<(), Fail> {
    let report = part_of(rt.alloc(), EXPLORED)?;
    let head = &report.head;
    let (part, settings) = (head.part(), head.settings());
    assert!(rt; (part.number(), part.count(), head.processes()) == (3, 16, 2));
    assert!(rt; (settings.length(), settings.crashes(), settings.cut()) == (20, 0, 4));
    assert!(rt; head.source() == b"empty\n".as_slice());
    let PartFound::Explored(found) = &report.found else {
        return Err(Fail::from("the least alone was read"));
    };
    assert!(rt; (found.tried(), found.outcomes().len(), found.least()) == (123, 2, None));
    Ok(())
}

/// Gives the first so many bytes of a text, and then answers an error.
#[derive(Drop)]
struct Failing {
    text: &'static [u8],
}

impl Read for Failing {
    fn read(&mut self, buf: &mut [u8]) -> io::Result<usize> {
        if self.text.is_empty() {
            return Err(io::Error::from(ErrorKind::Other));
        }
        self.text.read(buf)
    }
}

#[test]
fn a_reader_that_fails_is_told_as_such(rt: HostRuntime) -> Result<(), Fail> {
    for (end, line) in [(0, 1), (20, 2), (EXPLORED.len() - 1, 13)] {
        let text = &EXPLORED[..end];
        let reader = BufReader::new(rt.alloc(), Failing { text })?;
        let bad = PartStream::new(reader).next_part(rt.alloc()).err();
        let cause = PartCause::Unreadable;
        assert!(rt; bad == Some(BadPart { line, cause }));
    }
    Ok(())
}
