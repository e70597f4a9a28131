// Arrays for a matrix and its keep marks.
ghost use Rattle.std.specs.Prelude.{◌≡◌, length, replicate};

// Room for the cells of a full table.
pub fn blank_cells() -> [u8; 16384]
    ensures { 16384 ≡ length result }
{
    [0u8; 16384]
}

// The keep marks of a table from which nothing is removed.
pub fn all_kept() -> [u8; 128]
    ensures { result ≡ replicate 128 1 }
{
    [1u8; 128]
}
