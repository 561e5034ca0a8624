//! The texts of a drawing, cell by cell.

ghost use Rattle.std.specs.Prelude.{◌≡◌, ◌≤◌, ◌+◌, ◌++◌, codes, decimal, length, option_map};
ghost use Rattle.std.specs.List.{list_any};
ghost use Rattle.texts.specs.OutcomeText.{end_text, fate_text};
ghost use Rattle.drawing.specs.Cells as texts;
ghost use Rattle.drawing.specs.Layout.{column_count, line_count};

use crate::cell_bytes::{Cell, MOST_CELL_BYTES};
use crate::drawings::{Deed, Drawing, LetterRow, RegisterValue};
use crate::labels::{Labels, line_of};
use crate::names::{MOST_NAME_BYTES, RegisterNames};
use regmodel::{Access, End, ProcEnd};

/// The most columns: the letters' numbers, 8 processes and 64 registers.
pub(crate) const MOST_COLUMNS: usize = 73;

impl Cell {
    /// The same with a register last: its name, or else its number.
    fn with_place(self, names: &RegisterNames<'_>, r: usize) -> Cell
        requires room { length self + MOST_NAME_BYTES ≤ MOST_CELL_BYTES }
        requires few { r ≤ 510 }
        ensures text { result ≡ self ++ texts.place_text names.now r }
        ensures long { length result ≤ length self + MOST_NAME_BYTES }
    {
        match names.at(r) {
            Some(name) => self.with(name.bytes),
            None => self.with_number(r as u32),
        }
    }

    /// The same with the registers of a scan last: the first one, and how many they are; or the
    /// first and the last one, where one of these has a name.
    fn with_span(self, names: &RegisterNames<'_>, first: u8, count: u8) -> Cell
        requires { length self ≤ 5 }
        ensures text { result ≡ self ++ texts.span_text names.now first count }
        ensures long { length result ≤ length self + 36 }
    {
        let (from, many) = (usize::from(first), usize::from(count));
        let last = (from + many).saturating_sub(1);
        if names.at(from).is_some() || names.at(last).is_some() {
            self.with_place(names, from)
                .with(b" .. ")
                .with_place(names, last)
        } else {
            self.with_number(u32::from(first))
                .with(b" ")
                .with_number(u32::from(count))
        }
    }
}

/// What a letter did, after which registers hold this.
fn deed_cell(names: &RegisterNames<'_>, deed: Deed, registers: &[RegisterValue]) -> Cell
    requires { length registers.now ≤ 64 }
    ensures text { result ≡ texts.deed_text names.now registers.now deed }
    ensures long { length result ≤ 748 }
{
    match deed {
        Deed::Did(Access::Read(r)) => Cell::new()
            .with(b"read ")
            .with_place(names, usize::from(r))
            .with(b" =")
            .with(value_cell(registers, usize::from(r)).bytes().as_slice()),
        Deed::Did(Access::Write(r, value)) => Cell::new()
            .with(b"write ")
            .with_place(names, usize::from(r))
            .with(b" ")
            .with_number(value),
        Deed::Did(Access::Scan(first, count)) => {
            let scan = Cell::new()
                .with(b"scan ")
                .with_span(names, first, count)
                .with(b" =");
            with_scanned(scan, registers, usize::from(first), usize::from(count))
        }
        Deed::Crash => Cell::new().with(b"crash"),
    }
}

/// The same with what a scan of so many registers from the first on finds in them last.
fn with_scanned(cell: Cell, registers: &[RegisterValue], first: usize, count: usize) -> Cell
    requires short { length cell ≤ 44 }
    requires few { (length registers.now ≤ 64) × (first ≤ 255) × (count ≤ 255) }
    ensures text { result ≡ cell ++ texts.scanned_text registers.now first count }
    ensures long { length result ≤ 748 }
{
    let mut cell = cell;
    for r in 0..registers.len() {
        let found = found_cell(registers, first, count, r);
        cell = cell.with(found.bytes().as_slice());
    }
    cell
}

/// What a scan of so many registers from the first on finds in a register, where it is one of them.
fn found_cell(registers: &[RegisterValue], first: usize, count: usize, r: usize) -> Cell
    requires { (first ≤ 255) × (count ≤ 255) }
    ensures text { result ≡ texts.found_text registers.now first count r }
    ensures long { length result ≤ 11 }
{
    if r < first || first + count <= r {
        Cell::new()
    } else {
        value_cell(registers, r)
    }
}

/// What a register holds, behind a space, where it is there.
fn value_cell(registers: &[RegisterValue], r: usize) -> Cell
    ensures text { result ≡ texts.value_at registers.now r }
    ensures long { length result ≤ 11 }
{
    match registers.get(r) {
        Some(held) => Cell::new().with(b" ").with_number(held.value),
        None => Cell::new(),
    }
}

/// The head of a register's column: its name, or else `r` and its number.
fn head_cell(names: &RegisterNames<'_>, r: u8) -> Cell
    ensures { result ≡ texts.name_or names.now r (codes "r" ++ decimal r) }
{
    match names.at(usize::from(r)) {
        Some(name) => Cell::new().with(name.bytes),
        None => Cell::new().with(b"r").with_number(u32::from(r)),
    }
}

/// What a register holds, and a star where the letter changed it.
fn held_cell(held: RegisterValue) -> Cell
    ensures { result ≡ texts.held_text held }
{
    let cell = Cell::new().with_number(held.value);
    if held.changed { cell.with(b"*") } else { cell }
}

/// How a process stands.
fn fate_cell(fate: &End) -> Cell
    ensures text { result ≡ fate_text fate.now }
    ensures long { length result ≤ 92 }
{
    match fate {
        End::Done(numbers) => {
            let mut cell = Cell::new().with(b"done");
            for number in numbers.as_slice() {
                cell = cell.with(b" ").with_number(*number);
            }
            cell
        }
        End::Fault(code) => Cell::new().with(b"fault ").with_number(u32::from(*code)),
        End::Crashed => Cell::new().with(b"crashed"),
        End::Running => Cell::new().with(b"running"),
    }
}

/// How a process stands, and ` idle` where it took no step.
fn end_cell(end: &ProcEnd) -> Cell
    ensures { result ≡ end_text end.now }
{
    let cell = fate_cell(&end.fate);
    if end.started {
        cell
    } else {
        cell.with(b" idle")
    }
}

/// The same with how a process came to its end last, where it is done or at fault.
fn with_ending(cell: Cell, end: &ProcEnd) -> Cell
    requires { length cell ≤ 748 }
    ensures { result ≡ cell ++ texts.ending_text end.now }
{
    match &end.fate {
        End::Done(_) | End::Fault(_) => {
            let ending = fate_cell(&end.fate);
            cell.with(b", ").with(ending.bytes().as_slice())
        }
        End::Crashed | End::Running => cell,
    }
}

/// Whether a letter comes after the one with this number and is one of this process.
fn is_later(number: u8, process: u8, row: &LetterRow) -> bool
    ensures { result ≡ texts.is_later number process row.now }
{
    row.process == process && number < row.number
}

/// A line of a drawing.
#[derive(Clone, Copy)]
enum DrawingLine<'a> {
    /// The header.
    Head,
    /// What stands before the first letter.
    Start,
    /// What one letter did.
    Row(&'a LetterRow),
    /// The ends.
    End,
}

/// The text of a line in the column of the letters' numbers, and in that of the lines of their
/// statements, where these are to be told.
fn number_cell(labels: &Labels<'_>, line: DrawingLine<'_>) -> Cell
    ensures { result ≡ texts.number_cell labels.now.lines (texts.line_of line.entry) }
{
    match line {
        DrawingLine::Head => numbers_head(labels.lines()),
        DrawingLine::Start => Cell::new().with(b"0"),
        DrawingLine::Row(row) => letter_cell(labels.lines(), row),
        DrawingLine::End => Cell::new(),
    }
}

/// The head of the column of the letters' numbers, and of that of lines, where these are to be told
/// of a text.
fn numbers_head(lines: Option<&[u8]>) -> Cell
    ensures { result ≡ texts.number_cell (option_map (λ text. text.now) lines.entry) texts.Head }
{
    match lines {
        Some(_) => Cell::new().with(b"step  line"),
        None => Cell::new().with(b"step"),
    }
}

/// The number of a letter, and the line of a text with its statement, where that is to be told.
fn letter_cell(lines: Option<&[u8]>, row: &LetterRow) -> Cell
    ensures { result ≡ decimal row.now.number
        ++ texts.line_beside (option_map (λ text. text.now) lines.entry) row.now }
{
    let number = Cell::new().with_number(u32::from(row.number));
    let Some(text) = lines else {
        return number;
    };
    match line_of(text, row) {
        Some(line) => number
            .with(gap_behind(row.number).as_bytes())
            .with_line(line),
        None => number,
    }
}

/// What parts the number of a letter from that of a line, so that this stands below its head.
fn gap_behind(number: u8) -> &'static str
    ensures text { result.now ≡ texts.gap_behind number }
    ensures short { length result.now ≤ 5 }
{
    if number < 10 { "     " } else { "    " }
}

impl Drawing {
    /// How many lines there are: the header, the start, a line a letter, and the ends.
    pub(crate) fn lines(&self) -> usize
        ensures { result ≡ line_count self.now }
    {
        self.rows().len() + 3
    }

    /// How many columns there are: the letters' numbers, the processes and the registers.
    pub(crate) fn columns(&self) -> usize
        ensures value { result ≡ column_count self.now }
        ensures few { result ≤ MOST_COLUMNS }
    {
        1 + self.outcome().ends().len() + self.start().len()
    }

    /// What a line is.
    fn line_at(&self, line: usize) -> DrawingLine<'_>
        ensures { texts.line_of result ≡ texts.line_at self.now line }
    {
        match line {
            0 => DrawingLine::Head,
            1 => DrawingLine::Start,
            _ => match self.rows().get(line - 2) {
                Some(row) => DrawingLine::Row(row),
                None => DrawingLine::End,
            },
        }
    }

    /// The text at a line and a column.
    pub(crate) fn cell(&self, labels: &Labels<'_>, line: usize, column: u8) -> Cell
        ensures { result ≡ texts.cell_text labels.now self.now line column }
    {
        let line = self.line_at(line);
        let processes = self.outcome().ends().len() as u8;
        if column == 0 {
            number_cell(labels, line)
        } else if column <= processes {
            self.process_cell(labels.names(), line, column - 1)
        } else {
            self.register_cell(labels.names(), line, column - 1 - processes)
        }
    }

    /// What a row's letter did, and where it is the last one of its process, how that came to its
    /// end.
    fn row_cell(&self, names: &RegisterNames<'_>, row: &LetterRow) -> Cell
        ensures { result ≡ texts.row_text names.now self.now row.now }
    {
        let cell = deed_cell(names, row.deed, row.registers.as_slice());
        if !self.is_last(row) {
            return cell;
        }
        match self.outcome().ends().get(usize::from(row.process)) {
            Some(end) => with_ending(cell, end),
            None => cell,
        }
    }

    /// Whether no later letter is one of the same process.
    fn is_last(&self, row: &LetterRow) -> bool
        ensures { result ≡ texts.is_last self.now.rows row.now }
    {
        !self.has_later(row.number, row.process)
    }

    /// Whether a letter comes after the one with this number and is one of this process.
    fn has_later(&self, number: u8, process: u8) -> bool
        ensures { result ≡ list_any (texts.is_later number process) self.now.rows }
    {
        self.rows().iter().any(|row| is_later(number, process, row))
    }

    /// The text of a line in the column of a process.
    fn process_cell(&self, names: &RegisterNames<'_>, line: DrawingLine<'_>, p: u8) -> Cell
        ensures { result ≡ texts.process_cell names.now self.now p (texts.line_of line.entry) }
    {
        match line {
            DrawingLine::Head => Cell::new().with(b"process ").with_number(u32::from(p)),
            DrawingLine::Row(row) if row.process == p => self.row_cell(names, row),
            DrawingLine::Start | DrawingLine::Row(_) => Cell::new(),
            DrawingLine::End => match self.outcome().ends().get(usize::from(p)) {
                Some(end) => end_cell(end),
                None => Cell::new(),
            },
        }
    }

    /// The text of a line in the column of a register.
    fn register_cell(&self, names: &RegisterNames<'_>, line: DrawingLine<'_>, r: u8) -> Cell
        ensures { result ≡ texts.register_cell names.now self.now.start r
            (texts.line_of line.entry) }
    {
        let registers = match line {
            DrawingLine::Head => return head_cell(names, r),
            DrawingLine::Start => self.start(),
            DrawingLine::Row(row) => &row.registers,
            DrawingLine::End => return Cell::new(),
        };
        match registers.get(usize::from(r)) {
            Some(held) => held_cell(*held),
            None => Cell::new(),
        }
    }
}
