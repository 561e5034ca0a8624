//! The blocks that are open where a line stands.

ghost use Rattle.std.specs.Prelude.{◌≡◌, None};
ghost use Rattle.explanations.specs.OpenBlocks as spec;
ghost use Rattle.reglines.specs.Forms.{read_line};

use arrayvec::ArrayVec;
use reglines::{Line, read_line, split_line};

/// How many blocks are open at a time in a text that is read, with the process.
pub(crate) const MOST_OPEN: usize = 17;

/// What a line opens.
#[derive(Clone, Copy, PartialEq, Eq, Debug, Default)]
pub(crate) enum BlockKind {
    #[default]
    Process,
    If,
    Repeat,
}

/// A block that is open.
#[derive(Clone, Copy, PartialEq, Eq, Debug, Default)]
pub(crate) struct Opened {
    /// What it is.
    pub(crate) block: BlockKind,
    /// The number of the line that opened it, counted from 1.
    pub(crate) line: u64,
    /// The number of the line of its `else`, where it has one.
    pub(crate) else_line: Option<u64>,
}

/// The blocks that are open, the innermost one last.
type OpenedBlocks = ArrayVec<Opened, MOST_OPEN>;

/// Opens one more block.
fn open_one(blocks: &mut OpenedBlocks, opened: Opened)
    ensures { blocks.new.items ≡ spec.with_one blocks.old.items opened }
{
    let _ = blocks.try_push(opened);
}

/// A block that a line with this number opens.
fn opened_at(block: BlockKind, line: u64) -> Opened
    ensures { result ≡ record { block = block; line = line; else_line = None } }
{
    Opened {
        block,
        line,
        else_line: None,
    }
}

/// Notes that the innermost block has its `else` at the line with this number.
fn note_else(blocks: &mut OpenedBlocks, number: u64)
    ensures { blocks.new.items
        ≡ spec.past_else number (spec.innermost blocks.old.items) blocks.old.items }
{
    let Some(opened) = blocks.last().copied() else {
        return;
    };
    close_one(blocks);
    open_one(
        blocks,
        Opened {
            block: opened.block,
            line: opened.line,
            else_line: Some(number),
        },
    );
}

/// Closes the innermost block.
fn close_one(blocks: &mut OpenedBlocks)
    ensures { blocks.new.items ≡ spec.without_one blocks.old.items }
{
    let _ = blocks.pop();
}

/// Goes on past the line with this number.
fn go_past(blocks: &mut OpenedBlocks, number: u64, line: &[u8])
    ensures { blocks.new.items ≡ spec.open_past number (read_line line.now) blocks.old.items }
{
    match read_line(line) {
        Ok(Some(Line::Process)) => open_one(blocks, opened_at(BlockKind::Process, number)),
        Ok(Some(Line::If(_))) => open_one(blocks, opened_at(BlockKind::If, number)),
        Ok(Some(Line::Repeat(_))) => open_one(blocks, opened_at(BlockKind::Repeat, number)),
        Ok(Some(Line::Else)) => note_else(blocks, number),
        Ok(Some(Line::End | Line::Fi | Line::Done)) => close_one(blocks),
        _ => {}
    }
}

/// The innermost block that is open behind the first so many lines of a text, where one is.
pub(crate) fn open_block(text: &[u8], count: u64) -> Option<Opened>
    ensures { result ≡ spec.innermost (spec.open_after count text.now) }
{
    let mut blocks = OpenedBlocks::new();
    let mut number = 0;
    let mut rest = text;
    while let Some((line, after)) = split_line(rest) {
        if number == count {
            break;
        }
        number += 1;
        go_past(&mut blocks, number, line);
        rest = after;
    }
    blocks.last().copied()
}
