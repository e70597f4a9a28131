// The services as `haplotypes_c` exports them to programs in C and Rust: the outcome is one number.
ghost use Rattle.std.specs.Prelude.{◌≡◌, ◌≤◌};
ghost use Rattle.records.specs.Outcome.{outcome_of};
ghost use Rattle.conflicts.specs.Services.{unpack_leaves, pack_leaves, find_leaves, check_leaves, conflict_counts_leaves, snp_removal_leaves, fragment_removal_leaves, corrections_leaves};
ghost use Rattle.conflicts.specs.Host.{host_number_of, host_code, host_outcome, host_read, HostFits};

use correcting::least_corrections;
use counting::conflict_counts;
use fields::position_of;
use packing::{pack, unpack};
use records::Refusal;
use removals::{least_fragment_removal, least_snp_removal};
use verdicts::check;

// A count as it is, a refusal as base × number + place: no From, since the base is the caller's. Casts, since u64 has no From<usize>.
fn host_number(base: u64, outcome: Result<usize, Refusal>) -> u64
    requires base_bound { base ≤ 4294967296 }
    requires host_fits { HostFits base (outcome_of outcome) }
    ensures { result ≡ host_number_of base (outcome_of outcome) }
{
    match outcome {
        Ok(count) => count as u64,
        Err(refusal) => base * u64::from(refusal.fault.number()) + refusal.place as u64,
    }
}

// Unpack: m, or a refusal.
pub fn haplotypes_unpack(
    n: usize,
    table: &[u8],
    cells: &mut [u8],
    tags: &mut [u32],
    grades: &mut [u8],
) -> u64
    ensures number { result ≡ host_outcome (unpack_leaves n table.now cells.old tags.old grades.old).outcome }
    ensures read { host_read 4294967296 result ≡ (unpack_leaves n table.now cells.old tags.old grades.old).outcome }
    ensures cells { cells.new ≡ (unpack_leaves n table.now cells.old tags.old grades.old).cells }
    ensures tags { tags.new ≡ (unpack_leaves n table.now cells.old tags.old grades.old).tags }
    ensures grades { grades.new ≡ (unpack_leaves n table.now cells.old tags.old grades.old).grades }
{
    host_number(4294967296, unpack(n, table, cells, tags, grades))
}

// Pack: m, or a refusal.
pub fn haplotypes_pack(n: usize, cells: &[u8], tags: &[u32], grades: &[u8], table: &mut [u8]) -> u64
    ensures number { result ≡ host_outcome (pack_leaves n cells.now tags.now grades.now table.old).outcome }
    ensures read { host_read 4294967296 result ≡ (pack_leaves n cells.now tags.now grades.now table.old).outcome }
    ensures table { table.new ≡ (pack_leaves n cells.now tags.now grades.now table.old).table }
{
    host_number(4294967296, pack(n, cells, tags, grades, table))
}

// Find: the byte of the table at which its part starts.
pub fn haplotypes_find(tag: u32, table: &[u8]) -> usize
    ensures { result ≡ (find_leaves tag table.now).start }
{
    let i = position_of(tag, table);
    if i < table.len() / 32 {
        return 32 * i;
    }
    table.len()
}

// Check: 0 for yes, 1 for no, or a refusal.
pub fn haplotypes_check(n: usize, table: &[u8], answer: &mut [u8]) -> u64
    ensures number { result ≡ host_code (check_leaves n table.now answer.old).outcome }
    ensures read { host_read 1000 result ≡ (check_leaves n table.now answer.old).outcome }
    ensures answer { answer.new ≡ (check_leaves n table.now answer.old).answer }
{
    host_number(1000, check(n, table, answer))
}

// conflict_counts: m, or a refusal.
pub fn haplotypes_conflict_counts(n: usize, table: &[u8], counts: &mut [u8]) -> u64
    ensures number { result ≡ host_outcome (conflict_counts_leaves n table.now counts.old).outcome }
    ensures read { host_read 4294967296 result ≡ (conflict_counts_leaves n table.now counts.old).outcome }
    ensures counts { counts.new ≡ (conflict_counts_leaves n table.now counts.old).counts }
{
    host_number(4294967296, conflict_counts(n, table, counts))
}

// S: the number of removed columns, or a refusal.
pub fn haplotypes_least_snp_removal(
    n: usize,
    table: &[u8],
    work: &mut [u16],
    answer: &mut [u8],
) -> u64
    ensures number { result ≡ host_outcome (snp_removal_leaves n table.now answer.old work.old).outcome }
    ensures read { host_read 4294967296 result ≡ (snp_removal_leaves n table.now answer.old work.old).outcome }
    ensures work { work.new ≡ (snp_removal_leaves n table.now answer.old work.old).work }
    ensures answer { answer.new ≡ (snp_removal_leaves n table.now answer.old work.old).answer }
{
    host_number(4294967296, least_snp_removal(n, table, work, answer))
}

// F: the number of removed fragments, or a refusal.
pub fn haplotypes_least_fragment_removal(
    n: usize,
    table: &[u8],
    work: &mut [u16],
    answer: &mut [u8],
) -> u64
    ensures number { result ≡ host_outcome (fragment_removal_leaves n table.now answer.old work.old).outcome }
    ensures read { host_read 4294967296 result ≡ (fragment_removal_leaves n table.now answer.old work.old).outcome }
    ensures work { work.new ≡ (fragment_removal_leaves n table.now answer.old work.old).work }
    ensures answer { answer.new ≡ (fragment_removal_leaves n table.now answer.old work.old).answer }
{
    host_number(4294967296, least_fragment_removal(n, table, work, answer))
}

// C: the total of the corrected calls, or a refusal.
pub fn haplotypes_least_corrections(
    n: usize,
    table: &[u8],
    work: &mut [u16],
    answer: &mut [u8],
    corrected: &mut [u8],
) -> u64
    ensures number { result ≡ host_outcome (corrections_leaves n table.now answer.old corrected.old work.old).outcome }
    ensures read { host_read 4294967296 result ≡ (corrections_leaves n table.now answer.old corrected.old work.old).outcome }
    ensures work { work.new ≡ (corrections_leaves n table.now answer.old corrected.old work.old).work }
    ensures answer { answer.new ≡ (corrections_leaves n table.now answer.old corrected.old work.old).answer }
    ensures corrected { corrected.new ≡ (corrections_leaves n table.now answer.old corrected.old work.old).table }
{
    let outcome = least_corrections(n, table, work, answer, corrected);
    host_number(4294967296, outcome)
}
