// The lines of the services, each on buffers of its own.
ghost use Rattle.std.specs.Prelude.{◌≡◌, ◌++◌, ◌+◌, ◌≤◌, length};
ghost use Rattle.records.specs.Outcome.{outcome_of};
ghost use Rattle.conflicts.specs.Answer.{answer_size};
ghost use Rattle.listing.specs.Algorithm.Letters.{letter_of};
ghost use Rattle.listing.specs.Listing.{blank, check_line, service_line, least_line};

use crate::lines::{put_error_free, put_service};
use crate::service::Service;
use crate::sizes::Sizes;
use crate::text::{ROOM, Text};
use haplotypes::{check, least_corrections, least_fragment_removal, least_snp_removal};
use records::Refusal;

// Room for the answer of a full table.
const ANSWER: usize = 640;

// The work buffer that S, F and C ask for.
const WORK: usize = 32768;

// Room for the corrected records of a full table.
const TABLE: usize = 4096;

// The second line.
pub(crate) fn put_check(sizes: Sizes, table: &[u8], out: &mut Text)
    requires { length out.old + 60 ≤ ROOM }
    ensures appended { out.new ≡ out.old ++ check_line sizes.m sizes.n table.now }
    ensures within { length out.new ≤ length out.old + 60 }
{
    let mut answer = [0; ANSWER];
    let outcome = check(sizes.n, table, &mut answer[..sizes.answer_len()]);
    put_error_free(outcome, out);
}

// S, F or C on a blank answer and its own buffers: what it says and leaves prints as its line.
fn least(service: Service, sizes: Sizes, table: &[u8], answer: &mut [u8]) -> Result<usize, Refusal>
    requires { answer.old ≡ blank (answer_size sizes.m sizes.n) }
    ensures { service_line (letter_of service) sizes.m sizes.n (outcome_of result) answer.new ≡ least_line (letter_of service) sizes.m sizes.n table.now }
{
    let mut work = [0; WORK];
    match service {
        Service::Snps => least_snp_removal(sizes.n, table, &mut work, answer),
        Service::Fragments => least_fragment_removal(sizes.n, table, &mut work, answer),
        Service::Calls => {
            let mut corrected = [0; TABLE];
            least_corrections(
                sizes.n,
                table,
                &mut work,
                answer,
                &mut corrected[..32 * sizes.m],
            )
        }
    }
}

// The line of S, F or C.
pub(crate) fn put_least(service: Service, sizes: Sizes, table: &[u8], out: &mut Text)
    requires { length out.old + 1086 ≤ ROOM }
    ensures appended { out.new ≡ out.old ++ least_line (letter_of service) sizes.m sizes.n table.now }
    ensures within { length out.new ≤ length out.old + 1086 }
{
    let mut buffer = [0; ANSWER];
    let answer = &mut buffer[..sizes.answer_len()];
    let outcome = least(service, sizes, table, answer);
    put_service(service, sizes, outcome, answer, out);
}
