// The services exported to programs in C and Rust: a slice is a pointer and a length, and the outcome is one number. Each calls the function of its name in `haplotypes`, since only a static library has names for C.
#![tactic(auto)]

ghost use Rattle.std.specs.Prelude.{◌≡◌};
ghost use Rattle.conflicts.specs.Services.{unpack_leaves, pack_leaves, find_leaves, check_leaves, conflict_counts_leaves, snp_removal_leaves, fragment_removal_leaves, corrections_leaves};
ghost use Rattle.conflicts.specs.Host.{host_code, host_outcome, host_read};

// Unpack: m, or a refusal.
#[unsafe(no_mangle)]
pub extern "C" fn haplotypes_unpack(
    n: usize,
    table: &[u8],
    cells: &mut [u8],
    tags: &mut [u32],
    grades: &mut [u8],
) -> u64
    ensures number { result ≡ host_outcome (unpack_leaves n table.now cells.old tags.old grades.old).outcome }
    ensures read { host_read 4294967296 result ≡ (unpack_leaves n table.now cells.old tags.old grades.old).outcome }
    ensures cells { cells.new ≡ (unpack_leaves n table.now cells.old tags.old grades.old).cells }
    ensures tags { tags.new ≡ (unpack_leaves n table.now cells.old tags.old grades.old).tags }
    ensures grades { grades.new ≡ (unpack_leaves n table.now cells.old tags.old grades.old).grades }
{
    haplotypes::haplotypes_unpack(n, table, cells, tags, grades)
}

// Pack: m, or a refusal.
#[unsafe(no_mangle)]
pub extern "C" fn haplotypes_pack(
    n: usize,
    cells: &[u8],
    tags: &[u32],
    grades: &[u8],
    table: &mut [u8],
) -> u64
    ensures number { result ≡ host_outcome (pack_leaves n cells.now tags.now grades.now table.old).outcome }
    ensures read { host_read 4294967296 result ≡ (pack_leaves n cells.now tags.now grades.now table.old).outcome }
    ensures table { table.new ≡ (pack_leaves n cells.now tags.now grades.now table.old).table }
{
    haplotypes::haplotypes_pack(n, cells, tags, grades, table)
}

// Find: the byte of the table at which its part starts.
#[unsafe(no_mangle)]
pub extern "C" fn haplotypes_find(tag: u32, table: &[u8]) -> usize
    ensures { result ≡ (find_leaves tag table.now).start }
{
    haplotypes::haplotypes_find(tag, table)
}

// Check: 0 for yes, 1 for no, or a refusal.
#[unsafe(no_mangle)]
pub extern "C" fn haplotypes_check(n: usize, table: &[u8], answer: &mut [u8]) -> u64
    ensures number { result ≡ host_code (check_leaves n table.now answer.old).outcome }
    ensures read { host_read 1000 result ≡ (check_leaves n table.now answer.old).outcome }
    ensures answer { answer.new ≡ (check_leaves n table.now answer.old).answer }
{
    haplotypes::haplotypes_check(n, table, answer)
}

// conflict_counts: m, or a refusal.
#[unsafe(no_mangle)]
pub extern "C" fn haplotypes_conflict_counts(n: usize, table: &[u8], counts: &mut [u8]) -> u64
    ensures number { result ≡ host_outcome (conflict_counts_leaves n table.now counts.old).outcome }
    ensures read { host_read 4294967296 result ≡ (conflict_counts_leaves n table.now counts.old).outcome }
    ensures counts { counts.new ≡ (conflict_counts_leaves n table.now counts.old).counts }
{
    haplotypes::haplotypes_conflict_counts(n, table, counts)
}

// S: the number of removed columns, or a refusal.
#[unsafe(no_mangle)]
pub extern "C" fn haplotypes_least_snp_removal(
    n: usize,
    table: &[u8],
    work: &mut [u16],
    answer: &mut [u8],
) -> u64
    ensures number { result ≡ host_outcome (snp_removal_leaves n table.now answer.old work.old).outcome }
    ensures read { host_read 4294967296 result ≡ (snp_removal_leaves n table.now answer.old work.old).outcome }
    ensures work { work.new ≡ (snp_removal_leaves n table.now answer.old work.old).work }
    ensures answer { answer.new ≡ (snp_removal_leaves n table.now answer.old work.old).answer }
{
    haplotypes::haplotypes_least_snp_removal(n, table, work, answer)
}

// F: the number of removed fragments, or a refusal.
#[unsafe(no_mangle)]
pub extern "C" fn haplotypes_least_fragment_removal(
    n: usize,
    table: &[u8],
    work: &mut [u16],
    answer: &mut [u8],
) -> u64
    ensures number { result ≡ host_outcome (fragment_removal_leaves n table.now answer.old work.old).outcome }
    ensures read { host_read 4294967296 result ≡ (fragment_removal_leaves n table.now answer.old work.old).outcome }
    ensures work { work.new ≡ (fragment_removal_leaves n table.now answer.old work.old).work }
    ensures answer { answer.new ≡ (fragment_removal_leaves n table.now answer.old work.old).answer }
{
    haplotypes::haplotypes_least_fragment_removal(n, table, work, answer)
}

// C: the total of the corrected calls, or a refusal.
#[unsafe(no_mangle)]
pub extern "C" fn haplotypes_least_corrections(
    n: usize,
    table: &[u8],
    work: &mut [u16],
    answer: &mut [u8],
    corrected: &mut [u8],
) -> u64
    ensures number { result ≡ host_outcome (corrections_leaves n table.now answer.old corrected.old work.old).outcome }
    ensures read { host_read 4294967296 result ≡ (corrections_leaves n table.now answer.old corrected.old work.old).outcome }
    ensures work { work.new ≡ (corrections_leaves n table.now answer.old corrected.old work.old).work }
    ensures answer { answer.new ≡ (corrections_leaves n table.now answer.old corrected.old work.old).answer }
    ensures corrected { corrected.new ≡ (corrections_leaves n table.now answer.old corrected.old work.old).table }
{
    haplotypes::haplotypes_least_corrections(n, table, work, answer, corrected)
}
