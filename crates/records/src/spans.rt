// One record by 4 to 8: its frame, and its cells, which are tested by their letters, all of them at once.
ghost use Rattle.std.specs.Prelude.{◌≡◌, ◌≤◌};
ghost use Rattle.below.specs.Below.{◌<?◌, ◌and◌};
ghost use Rattle.places.specs.Algorithm.Places.{places_where, both_places, without_of, occupied};
ghost use Rattle.fields.specs.Record.{span_of};
ghost use Rattle.fields.specs.Algorithm.Letters.{calls_of};
ghost use Rattle.records.specs.Outcome.{accepted, tested_of};
ghost use Rattle.records.specs.Rules.{decide, is_out_of_frame, has_stray_bits, has_open_end};
ghost use Rattle.records.specs.Algorithm.Kept.{cell_rules, span_rules_of};

use crate::refusal::{Fault, Refusal};
use fields::{grade, letters_of, span, start};
use places::{Line, Places};

// 4: span over 96; start + span over n; span 0 and start not 0.
fn out_of_frame(n: usize, part: &[u8]) -> bool
    ensures { result ≡ is_out_of_frame n part.now }
{
    let s = usize::from(start(part));
    let k = usize::from(span(part));
    96 < k || n < s + k || k == 0 && s != 0
}

// 5: byte 7 over 15, or a call after the span.
fn stray_bits(part: &[u8], calls: Places, inside: Places) -> bool
    requires { (calls ≡ calls_of part.now) × (inside ≡ places_where (λ c. c <? span_of part.now)) }
    ensures { result ≡ has_stray_bits part.now }
{
    15 < grade(part) || calls.without(inside).any()
}

// 6: a code with both bits.
fn unknown_call(letters: Line) -> bool
    ensures { result ≡ occupied (both_places letters.a letters.b) }
{
    letters.a.both(letters.b).any()
}

// 7: span over 0, first or last cell a hole.
fn open_end(part: &[u8], calls: Places) -> bool
    requires { (span_of part.now ≤ 96) × (calls ≡ calls_of part.now) }
    ensures { result ≡ has_open_end part.now }
{
    let k = usize::from(span(part));
    0 < k && (!calls.has(0) || !calls.has(k - 1))
}

// Whether a hole of the span refuses the record.
fn hole_refused(gapless: bool, calls: Places, inside: Places) -> bool
    ensures { result ≡ (gapless and occupied (without_of inside calls)) }
{
    gapless && inside.without(calls).any()
}

// A record's cells by 5 to 7, and by 8 where it must be gapless. A hole of the span lies between two calls once 6 and 7 are kept.
fn cells_fault(part: &[u8], gapless: bool, i: usize) -> Result<(), Refusal>
    requires { span_of part.now ≤ 96 }
    ensures { tested_of result ≡ decide (cell_rules gapless part.now i) (accepted 0) }
{
    let letters = letters_of(part);
    let calls = letters.a.either(letters.b);
    let inside = Places::first(usize::from(span(part)));
    if stray_bits(part, calls, inside) {
        return Err(Fault::StrayBits.at(i));
    }
    if unknown_call(letters) {
        return Err(Fault::UnknownCall.at(i));
    }
    if open_end(part, calls) {
        return Err(Fault::OpenEnd.at(i));
    }
    if hole_refused(gapless, calls, inside) {
        return Err(Fault::Gapped.at(i));
    }
    Ok(())
}

// A record by 4 to 7, and by 8 where it must be gapless.
pub(crate) fn span_fault(n: usize, part: &[u8], gapless: bool, i: usize) -> Result<(), Refusal>
    ensures { tested_of result ≡ decide (span_rules_of gapless n part.now i) (accepted 0) }
{
    if out_of_frame(n, part) {
        return Err(Fault::OutOfFrame.at(i));
    }
    cells_fault(part, gapless, i)
}
