// Reads a table from standard input and prints its listing.
#![tactic(auto)]

ghost use Rattle.std.specs.Prelude.{◌≡◌, ◌++◌, ◌+◌, ◌≤◌, [], length};
ghost use Rattle.records.specs.Outcome.{accepted};
ghost use Rattle.listing.specs.Listing.{listed, listing};

use fields::column_count;
use input::read_input;
use lines::{put_refusal, put_sizes};
use records::table_fault;
use service::Service;
use services::{put_check, put_least};
use sizes::Sizes;
use std::io::{Eprint, Input as _, Print};
use text::Text;

mod answers;
mod input;
mod lines;
mod service;
mod services;
mod sizes;
mod text;

// One record more than a full table has, so that a longer input is refused.
const INPUT: usize = 4128;

// The five lines of an accepted table.
fn put_lines(sizes: Sizes, table: &[u8], out: &mut Text)
    requires { out.old ≡ [] }
    ensures { out.new ≡ listed sizes.n table.now (accepted sizes.m) }
{
    put_sizes(sizes, out);
    put_check(sizes, table, out);
    put_least(Service::Snps, sizes, table, out);
    put_least(Service::Fragments, sizes, table, out);
    put_least(Service::Calls, sizes, table, out);
}

// The listing of any bytes.
fn fill_listing(table: &[u8], out: &mut Text)
    requires { out.old ≡ [] }
    ensures { out.new ≡ listing table.now }
{
    let n = column_count(table);
    match table_fault(n, table) {
        Ok(m) => put_lines(Sizes { m, n }, table, out),
        Err(refusal) => put_refusal(refusal, out),
    }
}

// One line on standard error. A failure to write it has nowhere to be told.
fn report(rt: &impl Eprint, message: &str) {
    let _ = eprintln!(rt; "{message}");
}

// Prints the listing of a table, or says that it could not.
fn print_listing(rt: &(impl Print + Eprint), table: &[u8]) {
    let mut out = Text::new();
    fill_listing(table, &mut out);
    if rt.write_all(out.as_slice()).is_err() {
        report(rt, "listing: cannot write to standard output");
    }
}

// A table that could not be read whole is not answered.
fn main(rt: HostRuntime) {
    let mut buffer = [0; INPUT];
    match read_input(&mut rt.reader(), &mut buffer) {
        Ok(count) => print_listing(&rt, &buffer[..count]),
        Err(_) => report(&rt, "listing: cannot read standard input"),
    }
}
