// Tables that keep rules: what a call knows once it has tested them stands in the type.
ghost use Rattle.std.specs.Prelude.{◌≡◌};
ghost use Rattle.fields.specs.Table.{fragments};
ghost use Rattle.records.specs.Outcome.{accepted};
ghost use Rattle.records.specs.Rules.{decide, table_rules, gapless_table_rules};
ghost use Rattle.records.specs.Algorithm.Kept.{SizesKept};

// A table of n columns and m records that keeps 3, 1 and 2.
#[derive(Clone, Copy)]
pub struct SizedTable<'a> {
    pub n: usize,
    pub m: usize,
    pub bytes: &'a [u8],
    ghost sizes: { SizesKept n m bytes.now },
}

// … whose records keep 4 to 7, 9 and 13.
#[derive(Clone, Copy)]
pub struct SoundTable<'a> {
    pub sized: SizedTable<'a>,
    ghost records: { decide (table_rules sized.n sized.bytes.now) (accepted (fragments sized.bytes.now)) ≡ accepted sized.m },
}

// … none of whose fragments has a hole between two calls (8): S and F take no others.
#[derive(Clone, Copy)]
pub struct GaplessTable<'a> {
    pub sized: SizedTable<'a>,
    ghost records: { decide (gapless_table_rules sized.n sized.bytes.now) (accepted (fragments sized.bytes.now)) ≡ accepted sized.m },
}
