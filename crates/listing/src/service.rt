// The services that print an answer.
ghost use Rattle.std.specs.Prelude.{◌≡◌};
ghost use Rattle.listing.specs.Algorithm.Letters.{letter_of};

// S, F or C: the least SNPs or fragments to remove, or calls to correct.
#[derive(Clone, Copy)]
pub(crate) enum Service {
    Snps,
    Fragments,
    Calls,
}

impl Service {
    pub(crate) fn letter(self) -> u8
        ensures { result ≡ letter_of self }
    {
        match self {
            Service::Snps => b'S',
            Service::Fragments => b'F',
            Service::Calls => b'C',
        }
    }
}
