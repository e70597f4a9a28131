// The sizes of an accepted table.
ghost use Rattle.std.specs.Prelude.{◌≡◌, ◌≤◌};
ghost use Rattle.conflicts.specs.Answer.{answer_size};

// m fragments and n columns.
#[derive(Clone, Copy)]
pub(crate) struct Sizes {
    pub(crate) m: usize,
    pub(crate) n: usize,
    ghost few_fragments: { m ≤ 128 },
    ghost few_columns: { n ≤ 128 },
}

impl Sizes {
    // The length of an answer.
    #[tactic(auto, unfolding(conflicts::specs::Answer::answer_size))]
    pub(crate) fn answer_len(self) -> usize
        ensures size { result ≡ answer_size self.m self.n }
        ensures within { result ≤ 640 }
    {
        3 * self.n + 2 * self.m
    }
}
