// Components of related fragments by quick-find: a label and a side for each fragment.
ghost use Rattle.std.specs.Prelude.{◌≡◌, Bool, ℕ, ◌+◌, ◌*◌, ◌<◌, ◌≤◌, T, length, if◌then◌else◌};
ghost use Rattle.below.specs.Below.{◌=?◌, nth};
ghost use Rattle.conflicts.specs.Choice.{marked};
ghost use Rattle.masks.specs.Algorithm.Masks.{line_at};
ghost use Rattle.components.specs.Algorithm.Components.{side_turned, Joined, State, Step, Room, Passed, PassedOr};

use places::{Line, Places, conflict_kept};

// What fragments are joined by: their masks, the places of the kept columns, and their own keep marks.
#[derive(Clone, Copy)]
pub struct Fragments<'a> {
    pub masks: &'a [Line; 128],
    pub keep: Places,
    pub frags: &'a [u8],
}

// Every kept fragment by itself, on side 1.
fn alone(frags: &[u8], sides: &mut [u8], labels: &mut [u8])
    requires { (length frags.now ≤ 128) × (length sides.old ≡ length frags.now) × (length labels.old ≡ length frags.now) }
    ensures { (pair : ℕ → ℕ → Bool) → State (length frags.now) (marked frags.now) pair 0 (nth labels.new) (nth sides.new) }
{
    for (k, keep) in frags.iter().enumerate() {
        let kept = 0 < *keep;
        labels[k] = if kept { k as u8 } else { 255 };
        sides[k] = u8::from(kept);
    }
}

// The label after component hi is taken into lo.
fn new_label(x: u8, lo: u8, hi: u8) -> u8
    ensures { result ≡ if x =? hi then lo else x }
{
    if x == hi { lo } else { x }
}

// The side after component hi is taken in. Sides are the bytes 1 and 2, as they stand in an answer.
fn new_side(x: u8, hi: u8, turn: bool, side: u8) -> u8
    ensures { result ≡ if x =? hi then side_turned turn side else side }
{
    if x == hi && turn {
        3u8.saturating_sub(side)
    } else {
        side
    }
}

// Takes the component hi into lo, its sides turned over or not. A flag, since the loop asks it of each place and writes it whatever it is.
fn relabel(sides: &mut [u8], labels: &mut [u8], lo: u8, hi: u8, turn: bool)
    requires { length sides.old ≡ length labels.old }
    ensures { Joined (length labels.old) lo hi turn (nth labels.old) (nth sides.old) (nth labels.new) (nth sides.new) }
{
    // An index, since two rows are written; and each place is, changed or not, so that many are done at once.
    for k in 0..labels.len() {
        let x = labels[k];
        sides[k] = new_side(x, hi, turn, sides[k]);
        labels[k] = new_label(x, lo, hi);
    }
}

// Joins the components of fragments i and j, which are related. It is a no where they are on one side of one component.
fn join_pair(sides: &mut [u8], labels: &mut [u8], i: usize, j: usize) -> bool
    requires { (length labels.old ≤ 128) × (i < j) × (j < length labels.old) × (length sides.old ≡ length labels.old) }
    ensures { Step (length labels.old) i j result (nth labels.old) (nth sides.old) (nth labels.new) (nth sides.new) }
{
    let a = labels[i];
    let b = labels[j];
    let turn = sides[i] == sides[j];
    if a == b {
        return !turn;
    }
    relabel(sides, labels, a.min(b), a.max(b), turn);
    true
}

impl Fragments<'_> {
    // Joins fragments i and j if they are related. Fragment i is kept, and its line is at hand.
    fn join(self, sides: &mut [u8], labels: &mut [u8], i: usize, first: Line, j: usize) -> bool
        requires { Room self sides.old labels.old × (i < j) × (j < length self.frags.now) × T (marked self.frags.now i) × (first ≡ line_at self.masks.now i)
            × Passed self (i * 128 + j) sides.old labels.old }
        ensures { PassedOr result self.entry (i * 128 + (j + 1)) sides.new labels.new }
    {
        if self.frags[j] == 0 || !conflict_kept(first, self.masks[j], self.keep) {
            return true;
        }
        join_pair(sides, labels, i, j)
    }

    // Joins fragment i with the later ones that it is related to.
    fn join_row(self, sides: &mut [u8], labels: &mut [u8], i: usize) -> bool
        requires { Room self sides.old labels.old × (i < length self.frags.now) × Passed self (i * 128) sides.old labels.old }
        ensures { PassedOr result self.entry ((i + 1) * 128) sides.new labels.new }
    {
        if self.frags[i] == 0 {
            return true;
        }
        let first = self.masks[i];
        for j in i + 1..self.frags.len() {
            if !self.join(sides, labels, i, first, j) {
                return false;
            }
        }
        true
    }

    // The components of the kept fragments, which end at the first pair that no sides put apart: that is a no.
    // On a yes the sides put every pair apart, and the label of each fragment is its component's lowest member.
    pub fn components(self, sides: &mut [u8], labels: &mut [u8]) -> bool
        requires { Room self sides.old labels.old }
        ensures { PassedOr result self.entry 16384 sides.new labels.new }
    {
        alone(self.frags, sides, labels);
        for i in 0..self.frags.len() {
            if !self.join_row(sides, labels, i) {
                return false;
            }
        }
        true
    }
}
