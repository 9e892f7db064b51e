// Whether a table stops the queries that have a keyword.
ghost use Rattle.std.specs.Prelude.{◌≡◌, take, get_or};
ghost use Rattle.keywords.specs.Hash.{scaled};
ghost use Rattle.tables.specs.Tables.{held_in};
ghost use Rattle.tables.specs.Admission.{stops};

use crate::held::Held;
use keywords::hash::scaled_place;
use tables::Mark;

impl<'a> Held<'a> {
    // The entry of a keyword with this hash, and 0 where the part has none.
    fn entry_at(self, hash: u32) -> u8
        ensures { result ≡ get_or (take self.entry.table.length self.entry.part.now)
            (scaled self.entry.table.length hash)
            0 }
    {
        let place = scaled_place(hash, self.table.length) as usize;
        self.entries().get(place).copied().unwrap_or(0)
    }

    // Whether the table stops each query, to be sent with this TTL, that has a keyword with this hash. A table that is
    // not settled stops none, and its entry is not read; a settled one does if the entry is Infinity, which means none,
    // or exceeds the TTL.
    pub fn stops(self, ttl: u8, hash: u32) -> bool
        ensures { result ≡ stops (held_in self.entry.table self.entry.part.now) ttl hash }
    {
        let table = self.table;
        table.mark == u8::from(Mark::Settled)
            && {
                let entry = self.entry_at(hash);
                entry == table.infinity || ttl < entry
            }
    }
}
