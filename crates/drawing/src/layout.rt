//! How wide the columns of a drawing are, which are shown, and how many registers left out are
//! written.

ghost use Rattle.std.specs.Prelude.{◌≡◌, ◌≤◌, ◌<◌, All, length};
ghost use Rattle.drawing.specs.Layout as layout;

use crate::cells::MOST_COLUMNS;
use crate::drawings::Drawing;
use crate::labels::Labels;
use arrayvec::ArrayVec;
use breadths::{Room, is_told};

/// How many spaces part two columns.
pub(crate) const PARTING: usize = 2;

/// How long a line may be where there are at most two processes.
pub(crate) const NARROW: usize = 80;

/// How long a line may be where there are more.
pub(crate) const WIDE: usize = 132;

/// How wide columns are, at most all of them.
pub(crate) type Widths = ArrayVec<u16, MOST_COLUMNS>;

/// How wide the column is: as wide as its widest text.
fn width_of(labels: &Labels<'_>, drawing: &Drawing, column: u8) -> u16
    ensures { result ≡ layout.width_of labels.now drawing.now column }
{
    let mut width = 0;
    for line in 0..drawing.lines() {
        let long = drawing.cell(labels, line, column).bytes().len() as u16;
        width = width.max(long);
    }
    width
}

/// How wide each column is.
pub(crate) fn widths_of(labels: &Labels<'_>, drawing: &Drawing) -> Widths
    ensures widths { result.items ≡ layout.widths labels.now drawing.now }
    ensures each { length result.items ≡ layout.column_count drawing.now }
{
    let mut widths = Widths::new();
    for column in 0..drawing.columns() {
        widths.push(width_of(labels, drawing, column as u8));
    }
    widths
}

/// How many columns stand in any case: those of the letters' numbers and of the processes.
fn fixed_columns(drawing: &Drawing) -> usize
    ensures value { result ≡ layout.fixed_columns drawing.now }
    ensures few { result ≤ MOST_COLUMNS }
{
    1 + drawing.outcome().ends().len()
}

/// Whether a letter writes into a register.
fn is_written(drawing: &Drawing, register: usize) -> bool
    ensures { result ≡ layout.is_written drawing.now register }
{
    drawing.rows().iter().any(|row| row.deed.writes(register))
}

/// Whether a letter reads a register.
fn is_read(drawing: &Drawing, register: usize) -> bool
    ensures { result ≡ layout.is_read drawing.now register }
{
    drawing.rows().iter().any(|row| row.deed.reads(register))
}

/// When a column is kept where not all fit, those of lower rank first: what stands in any case, the
/// registers that a letter writes and a letter reads, those that are only written, those that are
/// only read, and the others.
fn rank(drawing: &Drawing, column: usize) -> u8
    ensures { result ≡ layout.rank drawing.now column }
{
    let fixed = fixed_columns(drawing);
    if column < fixed {
        return 0;
    }
    let register = column - fixed;
    match (is_written(drawing, register), is_read(drawing, register)) {
        (true, true) => 1,
        (true, false) => 2,
        (false, true) => 3,
        (false, false) => 4,
    }
}

/// Whether another column is kept no later than a column: it is of a lower rank, or of the same and
/// no further right.
fn is_kept_by(drawing: &Drawing, column: usize, other: usize) -> bool
    ensures { result ≡ layout.is_kept_by drawing.now column other }
{
    let (own, its) = (rank(drawing, column), rank(drawing, other));
    its < own || (its == own && other <= column)
}

/// Where the line would end with a column and all those that are kept before it.
fn end_with(drawing: &Drawing, widths: &Widths, column: usize) -> usize
    ensures { result ≡ layout.end_with drawing.now widths.now.items column }
{
    let mut room = 0;
    for other in 0..widths.len() {
        if is_kept_by(drawing, column, other) {
            room += usize::from(widths[other]) + PARTING;
        }
    }
    room
}

/// Whether a column is shown.
fn is_shown(drawing: &Drawing, widths: &Widths, room: Room<'_>, column: usize) -> bool
    ensures { result ≡ layout.is_shown drawing.now widths.now.items room.entry column }
{
    let fixed = fixed_columns(drawing);
    if column < fixed {
        return true;
    }
    match room {
        Room::Usual => { end_with(drawing, widths, column) <= usual_places(fixed - 1) + PARTING }
        Room::Places(places) => { end_with(drawing, widths, column) <= places as usize + PARTING }
        Room::Whole => true,
        Room::Chosen(text) => is_told(text.as_bytes(), column - fixed),
    }
}

/// How long a line may be where there are so many processes.
fn usual_places(processes: usize) -> usize
    ensures value { result ≡ layout.usual_places processes }
    ensures few { result ≤ WIDE }
{
    if processes <= 2 { NARROW } else { WIDE }
}

/// The columns that are shown, rising: all of them, or without registers that do not fit, of which
/// those that a letter writes and a letter reads are kept first, then those that are only written,
/// and then those that are only read.
pub(crate) fn columns_shown(
    drawing: &Drawing,
    widths: &Widths,
    room: Room<'_>,
) -> ArrayVec<u8, MOST_COLUMNS>
    requires { length widths.now.items ≡ layout.column_count drawing.now }
    ensures value { result.items ≡ layout.columns_shown drawing.now widths.now.items room.entry }
    ensures there { All (λ column. column < length widths.now.items) result.items }
{
    let mut shown = ArrayVec::new();
    for column in 0..widths.len() {
        if is_shown(drawing, widths, room, column) {
            shown.push(column as u8);
        }
    }
    shown
}

/// Whether a column is one of these.
fn has_column(columns: &[u8], column: usize) -> bool
    ensures { result ≡ layout.has_column columns.now column }
{
    columns.iter().any(|one| usize::from(*one) == column)
}

/// How many of the registers that have none of these columns a letter writes.
pub(crate) fn written_left_out(drawing: &Drawing, columns: &[u8]) -> usize
    ensures { result ≡ layout.written_left_out drawing.now columns.now }
{
    let fixed = fixed_columns(drawing);
    let mut written = 0;
    for register in 0..drawing.start().len() {
        if !has_column(columns, fixed + register) && is_written(drawing, register) {
            written += 1;
        }
    }
    written
}
