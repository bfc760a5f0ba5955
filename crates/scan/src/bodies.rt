// The bodies of a table, by the records that say where they begin.
ghost use Rattle.std.specs.Prelude.{◌≡◌, ◌+◌, ◌*◌, ◌<◌, get_or};
ghost use Rattle.format.specs.Encode.{record_size};
ghost use Rattle.scan.specs.Tokens.{four_at};
ghost use Rattle.scan.specs.Laws.Laid.{Room, BodyStarts, BodyEnds};

use super::tokens::byte_at;
use basics::bytes::four_bytes;
use basics::numbers::RECORD;

// A table with the number of its procedures and the place where their records begin. All records are in the table.
#[derive(Clone, Copy)]
pub struct Bodies<'a> {
    pub table: &'a [u8],
    pub procedures: usize,
    pub records: usize,
    pub ghost room: { Room table.now procedures records },
}

impl Bodies<'_> {
    // How many parameters procedure m has.
    pub fn parameters(&self, m: usize) -> usize
        requires { m < self.now.procedures }
        ensures { (result ≡ get_or self.now.table.now (self.now.records + record_size * m) 0) × (result < 256) }
    {
        byte_at(self.table, self.records + RECORD * m)
    }

    // And how many locals.
    pub fn locals(&self, m: usize) -> usize
        requires { m < self.now.procedures }
        ensures { (result ≡ get_or self.now.table.now (self.now.records + record_size * m + 1) 0) × (result < 256) }
    {
        byte_at(self.table, self.records + RECORD * m + 1)
    }

    // Where its body begins, as its record says.
    pub fn offset(&self, m: usize) -> usize
        requires { m < self.now.procedures }
        ensures { (result ≡ four_at self.now.table.now (self.now.records + record_size * m + 2)) × (result < 4294967296) }
    {
        four_bytes(self.table, self.records + RECORD * m + 2) as usize
    }

    // Where its body begins. A table that was not let through may say a place behind the bodies: then at the records.
    pub fn start(&self, m: usize) -> usize
        requires { m < self.now.procedures }
        ensures { BodyStarts self.now.table.now self.now.procedures self.now.records m result }
    {
        self.offset(m).min(self.records)
    }

    // Where it ends: where the next one begins, or the records.
    pub fn end(&self, m: usize) -> usize
        requires { m < self.now.procedures }
        ensures { BodyEnds self.now.table.now self.now.procedures self.now.records m result }
    {
        if m + 1 < self.procedures {
            self.start(m + 1)
        } else {
            self.records
        }
    }
}
