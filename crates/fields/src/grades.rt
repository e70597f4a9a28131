// The weights of the grades.
ghost use Rattle.std.specs.Prelude.{◌≡◌, ◌≤◌};
ghost use Rattle.fields.specs.Grades.{weight_of};

const WEIGHTS: [u8; 16] = [1, 1, 2, 3, 4, 6, 8, 10, 13, 16, 20, 25, 31, 38, 46, 60];

// The weight of a grade, and 1 for a number over 15, which is none.
pub fn weight(grade: u8) -> u8
    ensures { (result ≡ weight_of grade) × (1 ≤ result) × (result ≤ 60) }
{
    WEIGHTS.get(usize::from(grade)).copied().unwrap_or(1)
}
