// A table read stage by stage: what keeps the rules of a stage is handed on as a table that does.
ghost use Rattle.records.specs.Algorithm.Read.{SizedBy, SoundBy, GaplessBy};

use crate::refusal::Refusal;
use crate::rules::{gapless_fault, records_fault, size_fault};
use crate::table::{GaplessTable, SizedTable, SoundTable};

impl<'a> SizedTable<'a> {
    // By 3, 1, 2.
    pub fn read(n: usize, bytes: &'a [u8]) -> Result<SizedTable<'a>, Refusal>
        ensures { SizedBy n bytes.now result }
    {
        let m = size_fault(n, bytes)?;
        Ok(SizedTable { n, m, bytes })
    }

    // The records from 0, each by 4 to 7, 9 and 13.
    pub fn sound(self) -> Result<SoundTable<'a>, Refusal>
        ensures { SoundBy self.entry result }
    {
        records_fault(self.n, self.bytes)?;
        Ok(SoundTable { sized: self })
    }

    // The records from 0, each by 4 to 9 and 13.
    pub fn gapless(self) -> Result<GaplessTable<'a>, Refusal>
        ensures { GaplessBy self.entry result }
    {
        gapless_fault(self.n, self.bytes)?;
        Ok(GaplessTable { sized: self })
    }
}
