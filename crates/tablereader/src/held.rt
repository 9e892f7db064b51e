// A route table with the part of the route area that has its entries.
ghost use Rattle.std.specs.Prelude.{◌≡◌, take};

use tables::Table;

// The table's entries stand at the front of the part.
#[derive(Clone, Copy)]
pub struct Held<'a> {
    pub table: Table,
    pub part: &'a [u8],
}

impl<'a> Held<'a> {
    // The entries, as many of them as the part has room for.
    pub(crate) fn entries(self) -> &'a [u8]
        ensures { result.now ≡ take self.entry.table.length self.entry.part.now }
    {
        let n = (self.table.length as usize).min(self.part.len());
        &self.part[..n]
    }
}
