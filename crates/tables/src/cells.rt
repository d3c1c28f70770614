// The cells of a line, parted by gaps. A table has them below each other, each text at the right of its column; among values a cell is
// its text alone.
ghost use Rattle.std.specs.Prelude.{◌≡◌, ◌++◌, ◌+◌, ◌≤◌, max, length};
ghost use Rattle.lines.specs.Lines.{decimal_of};
ghost use Rattle.tables.specs.Cells.{width_most, number_most, gap_most, right_of, cell_of, gap_of, further_of};

use crate::{PAGE_ROOM, Page, Sheet};
use lines::TextBuffer;

// The width of the widest column.
const WIDTH_MOST: usize = 12;

// Room for the digits of any number.
const NUMBER_ROOM: usize = 20;

// Puts text at the right of a column.
fn put_right(page: &mut Page, width: usize, text: &[u8])
    requires { (width ≤ width_most) × (length page.old + max width (length text.now) ≤ PAGE_ROOM) }
    ensures right { page.new ≡ page.old ++ right_of width text.now }
    ensures few { length page.new ≤ length page.old + max width (length text.now) }
{
    let blanks = [b' '; WIDTH_MOST];
    page.put(&blanks[..width.saturating_sub(text.len())]);
    page.put(text);
}

impl Sheet {
    // Puts a cell.
    fn put_cell(self, page: &mut Page, width: usize, text: &[u8])
        requires { (width ≤ width_most) × (length page.old + max width (length text.now) ≤ PAGE_ROOM) }
        ensures cell { page.new ≡ page.old ++ cell_of self width text.now }
        ensures few { length page.new ≤ length page.old + max width (length text.now) }
    {
        match self {
            Sheet::Table => put_right(page, width, text),
            Sheet::Values => page.put(text),
        }
    }

    // Puts a cell with a number.
    pub(crate) fn put_number(self, page: &mut Page, width: usize, n: u64)
        requires { (width ≤ width_most) × (length page.old + number_most ≤ PAGE_ROOM) }
        ensures cell { page.new ≡ page.old ++ cell_of self width (decimal_of n) }
        ensures few { length page.new ≤ length page.old + number_most }
    {
        let mut digits = TextBuffer::<NUMBER_ROOM>::new();
        digits.number(n);
        self.put_cell(page, width, digits.bytes());
    }

    // Puts what parts two cells.
    fn put_gap(self, page: &mut Page)
        requires { length page.old + gap_most ≤ PAGE_ROOM }
        ensures gap { page.new ≡ page.old ++ gap_of self }
        ensures few { length page.new ≤ length page.old + gap_most }
    {
        match self {
            Sheet::Table => page.put(b"  "),
            Sheet::Values => page.put(b","),
        }
    }

    // Puts a further cell.
    pub(crate) fn put_further(self, page: &mut Page, width: usize, text: &[u8])
        requires { (width ≤ width_most) × (length page.old + (gap_most + max width (length text.now)) ≤ PAGE_ROOM) }
        ensures further { page.new ≡ page.old ++ further_of self width text.now }
        ensures few { length page.new ≤ length page.old + (gap_most + max width (length text.now)) }
    {
        self.put_gap(page);
        self.put_cell(page, width, text);
    }

    // Puts a further cell with a number.
    pub(crate) fn put_further_number(self, page: &mut Page, width: usize, n: u64)
        requires { (width ≤ width_most) × (length page.old + (gap_most + number_most) ≤ PAGE_ROOM) }
        ensures further { page.new ≡ page.old ++ further_of self width (decimal_of n) }
        ensures few { length page.new ≤ length page.old + (gap_most + number_most) }
    {
        self.put_gap(page);
        self.put_number(page, width, n);
    }
}
