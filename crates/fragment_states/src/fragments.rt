// What the programme asks of the fragments, by their masks: reaches and agreement (paper 001, section 5.2).
ghost use Rattle.std.specs.Prelude.{◌≡◌, ℕ, ◌+◌, ◌<◌, ◌≤◌, length};
ghost use Rattle.below.specs.Below.{bit, ◌<?◌, ◌and◌};
ghost use Rattle.fields.specs.Record.{is_call_code};
ghost use Rattle.fields.specs.Writing.{calls_end_of};
ghost use Rattle.places.specs.Algorithm.Places.{places_where};
ghost use Rattle.masks.specs.Algorithm.Masks.{code_in, words_grid};
ghost use Rattle.fragment_states.specs.Algorithm.Fragments.{Begins, Between, state_reach_of, words_agree, words_join};

use places::{Line, Places};

// Of the first n columns, those that a line calls.
pub fn calls_below(n: usize, line: Line) -> Places
    requires { n ≤ 128 }
    ensures { result ≡ places_where (λ c. c <? n and is_call_code (code_in line c)) }
{
    Places::first(n).both(line.a.either(line.b))
}

// One past the last of the first n columns that a line calls, and 0 where it calls none: a number, as `calls_end_of` defines it.
fn line_end(n: usize, line: Line) -> u8
    requires { n ≤ 128 }
    ensures { result ≡ calls_end_of n (code_in line) }
{
    calls_below(n, line).end() as u8
}

// How far a side's state reaches.
fn state_reach(n: usize, masks: &[Line; 128], s: usize) -> u8
    requires { (n ≤ 128) × (s ≤ 128) }
    ensures { (m : ℕ) → result ≡ state_reach_of (words_grid m n masks.now) s }
{
    if s == 0 { 0 } else { line_end(n, masks[s - 1]) }
}

// The reaches of the states.
pub fn fill_reaches(m: usize, n: usize, masks: &[Line; 128], reaches: &mut [u8])
    requires { (m ≤ 128) × (n ≤ 128) × (length reaches.old ≡ 129) }
    ensures { Begins (state_reach_of (words_grid m n masks.now)) (m + 1) reaches.new }
{
    for s in 0..m + 1 {
        reaches[s] = state_reach(n, masks, s);
    }
}

// Whether the fragments at positions p and q agree: there is no column on which they conflict.
fn positions_agree(masks: &[Line; 128], p: usize, q: usize) -> bool
    requires { (p < 128) × (q < 128) }
    ensures { result ≡ words_agree masks.now p q }
{
    !masks[p].conflicts(masks[q]).any()
}

// 1 where the fragment at position i agrees with a side's state, and 0 where not.
fn may_join(masks: &[Line; 128], s: usize, i: usize) -> u8
    requires { (s ≤ i) × (i < 128) }
    ensures { result ≡ bit (words_join masks.now s i) }
{
    u8::from(s == 0 || positions_agree(masks, s - 1, i))
}

// The states from `first` on that the fragment at position i agrees with, by the masks of the fragments.
pub fn fill_agreements(masks: &[Line; 128], first: usize, i: usize, agrees: &mut [u8])
    requires { (i < 128) × (length agrees.old ≡ 129) }
    ensures { Between (λ s. bit (words_join masks.now s i)) first (i + 1) agrees.new }
{
    for s in first..i + 1 {
        agrees[s] = may_join(masks, s, i);
    }
}
