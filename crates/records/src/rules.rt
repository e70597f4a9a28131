// The rules of a table, tested in the paper's order.
ghost use Rattle.std.specs.Prelude.{◌≡◌, ◌<◌, ◌≤◌};
ghost use Rattle.below.specs.Below.{◌=?◌, any_below, tab, concat};
ghost use Rattle.fields.specs.Record.{tag_of};
ghost use Rattle.fields.specs.Table.{fragments, record_bytes_at, start_at, tag_at};
ghost use Rattle.records.specs.Outcome.{accepted, outcome_of, tested_of};
ghost use Rattle.records.specs.Rules.{decide, earlier_rules, table_rules, gapless_table_rules, size_rules, table_verdict};
ghost use Rattle.records.specs.Algorithm.Kept.{rules_of};

use crate::order::out_of_order;
use crate::refusal::{Fault, Refusal};
use crate::spans::span_fault;
use fields::{record_at, tag};

// Whether a record before i has the tag. All of them are whole, so `record_at` and its test are not needed.
fn any_tag(table: &[u8], sought: u32, i: usize) -> bool
    requires { i ≤ fragments table.now }
    ensures { result ≡ any_below i (λ h. tag_of (record_bytes_at table.now h) =? sought) }
{
    for h in 0..i {
        let from = 32 * h;
        if tag(&table[from..from + 32]) == sought {
            return true;
        }
    }
    false
}

// Record i, whose bytes are the part, by 9 and 13, which look at earlier records.
fn earlier_fault(table: &[u8], part: &[u8], i: usize) -> Result<(), Refusal>
    requires { (i < fragments table.now) × (part.now ≡ record_bytes_at table.now i) }
    ensures { tested_of result ≡ decide (earlier_rules (start_at table.now) (tag_at table.now) i) (accepted 0) }
{
    if any_tag(table, tag(part), i) {
        return Err(Fault::TagTwice.at(i));
    }
    if out_of_order(table, i) {
        return Err(Fault::OutOfOrder.at(i));
    }
    Ok(())
}

// Record i by 4 to 7, 9 and 13, and by 8 where it must be gapless.
fn record_fault(n: usize, table: &[u8], gapless: bool, i: usize) -> Result<(), Refusal>
    requires { i < fragments table.now }
    ensures { tested_of result ≡ decide (rules_of gapless n table.now i) (accepted 0) }
{
    let part = record_at(table, i);
    span_fault(n, part, gapless, i)?;
    earlier_fault(table, part, i)
}

// The records from 0, each by its rules: the first fault, or the number of records. By index, which is a refusal's place; gapless is a flag, since the rules that it chooses are one list but for 8.
fn first_fault(n: usize, table: &[u8], gapless: bool) -> Result<usize, Refusal>
    ensures { outcome_of result ≡ decide (concat (tab (fragments table.now) (rules_of gapless n table.now))) (accepted (fragments table.now)) }
{
    let m = table.len() / 32;
    for i in 0..m {
        record_fault(n, table, gapless, i)?;
    }
    Ok(m)
}

// The records from 0, each by 4 to 7, 9 and 13: the first fault, or the number of records.
pub fn records_fault(n: usize, table: &[u8]) -> Result<usize, Refusal>
    ensures { outcome_of result ≡ decide (table_rules n table.now) (accepted (fragments table.now)) }
{
    first_fault(n, table, false)
}

// The records from 0, each by 4 to 9 and 13: the first fault, or the number of records. Two functions by name, since callers mean one of two lists of rules.
pub fn gapless_fault(n: usize, table: &[u8]) -> Result<usize, Refusal>
    ensures { outcome_of result ≡ decide (gapless_table_rules n table.now) (accepted (fragments table.now)) }
{
    first_fault(n, table, true)
}

// The sizes by 3, 1, 2: the first fault, or the number of records.
pub fn size_fault(n: usize, table: &[u8]) -> Result<usize, Refusal>
    ensures { outcome_of result ≡ decide (size_rules n table.now) (accepted (fragments table.now)) }
{
    if 128 < n {
        return Err(Fault::TooManySnps.at(0));
    }
    let len = table.len();
    if len % 32 != 0 {
        return Err(Fault::RaggedFile.at(0));
    }
    let m = len / 32;
    if 128 < m {
        return Err(Fault::TooManyFragments.at(0));
    }
    Ok(m)
}

// A table by 3, 1, 2, then its records: the first fault, or the number of records.
pub fn table_fault(n: usize, table: &[u8]) -> Result<usize, Refusal>
    ensures { outcome_of result ≡ table_verdict n table.now }
{
    size_fault(n, table)?;
    records_fault(n, table)
}
