// What a row of cells says: where its calls start and end, and whether it has a code without a meaning.
ghost use Rattle.std.specs.Prelude.{◌≡◌, length};
ghost use Rattle.below.specs.Below.{◌<?◌, any_below};
ghost use Rattle.fields.specs.Writing.{calls_end_of, calls_start_of, calls_span_of, codes_of};

use fields::{B, is_call};

// One past the last called column of a row; 0 without calls, and no Option, as the definition has it: no calls then span 0 columns.
pub fn calls_end(row: &[u8]) -> usize
    ensures { result ≡ calls_end_of (length row.now) (codes_of row.now) }
{
    for c in (0..row.len()).rev() {
        if is_call(row[c]) {
            return c + 1;
        }
    }
    0
}

// The first called column of a row; 0 without calls, and no Option, since it is the start that such a record has.
pub fn calls_start(row: &[u8]) -> usize
    ensures { result ≡ calls_start_of (length row.now) (codes_of row.now) }
{
    for (c, &code) in row.iter().enumerate() {
        if is_call(code) {
            return c;
        }
    }
    0
}

// How many columns the calls of a row reach over.
pub fn calls_span(row: &[u8]) -> usize
    ensures { result ≡ calls_span_of (length row.now) (codes_of row.now) }
{
    calls_end(row) - calls_start(row)
}

// Whether a row has a code without a meaning. Every code is looked at, so that the compiler can take many at once.
pub fn any_unknown(row: &[u8]) -> bool
    ensures { result ≡ any_below (length row.now) (λ c. 2 <? codes_of row.now c) }
{
    let mut found = false;
    for &code in row {
        found |= B < code;
    }
    found
}
