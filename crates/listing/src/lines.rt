// The lines of a listing.
ghost use Rattle.std.specs.Prelude.{◌≡◌, ◌++◌, ◌+◌, ◌*◌, ◌≤◌, length};
ghost use Rattle.records.specs.Outcome.{number_of, outcome_of};
ghost use Rattle.conflicts.specs.Answer.{answer_size};
ghost use Rattle.below.specs.Text.{ascii};
ghost use Rattle.listing.specs.Algorithm.Letters.{letter_of};
ghost use Rattle.listing.specs.Listing.{decimal, line, refusal as refusal_words, fields, sizes_line, error_free_line, service_line};

use crate::answers::{put_block_field, put_field};
use crate::service::Service;
use crate::sizes::Sizes;
use crate::text::{ROOM, Text};
use records::Refusal;

// A text and a number, twice, and a line feed.
fn put_numbers(s: &[u8], x: usize, t: &[u8], y: usize, out: &mut Text)
    requires short { length s.now + length t.now ≤ 19 }
    requires room { length out.old + 60 ≤ ROOM }
    ensures appended { out.new ≡ out.old ++ (s.now ++ (decimal x ++ (t.now ++ (decimal y ++ ascii "\n")))) }
    ensures within { length out.new ≤ length out.old + 60 }
{
    out.push_bytes(s);
    out.push_number(x);
    out.push_bytes(t);
    out.push_number(y);
    out.push(b'\n');
}

// A refusal by the number of its rule in the paper.
pub(crate) fn put_refusal(refusal: Refusal, out: &mut Text)
    requires { length out.old + 60 ≤ ROOM }
    ensures appended { out.new ≡ out.old ++ line (refusal_words (number_of refusal.fault) refusal.place) }
    ensures within { length out.new ≤ length out.old + 60 }
{
    let Refusal { fault, place } = refusal;
    put_numbers(
        b"refused ",
        usize::from(fault.number()),
        b" at ",
        place,
        out,
    );
}

// The first line.
pub(crate) fn put_sizes(sizes: Sizes, out: &mut Text)
    requires { length out.old + 60 ≤ ROOM }
    ensures appended { out.new ≡ out.old ++ sizes_line sizes.m sizes.n }
    ensures within { length out.new ≤ length out.old + 60 }
{
    put_numbers(b"fragments ", sizes.m, b" snps ", sizes.n, out);
}

// The second line, by what check says. It never refuses an accepted table (`services-say` in proofs/LineMeanings), so what is no yes is a no.
pub(crate) fn put_error_free(outcome: Result<usize, Refusal>, out: &mut Text)
    requires { length out.old + 60 ≤ ROOM }
    ensures appended { out.new ≡ out.old ++ error_free_line (outcome_of outcome) }
    ensures within { length out.new ≤ length out.old + 60 }
{
    match outcome {
        Ok(0) => out.push_bytes(b"error-free yes\n"),
        _ => out.push_bytes(b"error-free no\n"),
    }
}

// A count and the fields of an answer: the count takes at most 20 bytes, a block with its comma at most 4.
#[tactic(auto, unfolding(conflicts::specs::Answer::answer_size))]
fn put_fields(sizes: Sizes, count: usize, answer: &[u8], out: &mut Text)
    requires sized { length answer.now ≡ answer_size sizes.m sizes.n }
    requires room { length out.old + (3 * sizes.n + 5 * sizes.m + 60) ≤ ROOM }
    ensures appended { out.new ≡ out.old ++ line (fields sizes.m sizes.n count answer.now) }
    ensures within { length out.new ≤ length out.old + (3 * sizes.n + 5 * sizes.m + 60) }
{
    let Sizes { m, n } = sizes;
    out.push_number(count);
    put_field(b"012", &answer[..n], out);
    put_field(b"-AB#", &answer[n..2 * n], out);
    put_field(b"-AB#", &answer[2 * n..3 * n], out);
    put_field(b"012", &answer[3 * n..3 * n + m], out);
    put_block_field(&answer[3 * n + m..], out);
    out.push(b'\n');
}

// The line of S, F or C.
pub(crate) fn put_service(
    service: Service,
    sizes: Sizes,
    outcome: Result<usize, Refusal>,
    answer: &[u8],
    out: &mut Text,
)
    requires sized { length answer.now ≡ answer_size sizes.m sizes.n }
    requires room { length out.old + 1086 ≤ ROOM }
    ensures appended { out.new ≡ out.old ++ service_line (letter_of service) sizes.m sizes.n (outcome_of outcome) answer.now }
    ensures within { length out.new ≤ length out.old + 1086 }
{
    out.push(service.letter());
    out.push(b' ');
    match outcome {
        Ok(count) => put_fields(sizes, count, answer, out),
        Err(refusal) => put_refusal(refusal, out),
    }
}
