// A record's fields and cells. Each reader takes any bytes: one past the end counts as 0.
ghost use Rattle.std.specs.Prelude.{◌≡◌, ◌*◌, ◌/◌, ◌%◌, ◌^◌, get_or};
ghost use Rattle.fields.specs.Record.{is_call_code, tag_of, start_of, span_of, grade_of, cell_of};

// How many bytes a record has, how many of them stand before its cells, and how many cells it has.
pub const RECORD_BYTES: usize = 32;

pub const HEADER_BYTES: usize = 8;

pub const CELLS: usize = 96;

// The codes of a cell; 3 has no meaning.
pub const HOLE: u8 = 0;

pub const A: u8 = 1;

pub const B: u8 = 2;

// Byte i, or 0 past the end.
pub fn byte(part: &[u8], i: usize) -> u8
    ensures { result ≡ get_or part.now i 0 }
{
    part.get(i).copied().unwrap_or(0)
}

// The tag: bytes 0 to 3, little-endian.
pub fn tag(part: &[u8]) -> u32
    ensures { result ≡ tag_of part.now }
{
    u32::from_le_bytes([byte(part, 0), byte(part, 1), byte(part, 2), byte(part, 3)])
}

// The first called column: bytes 4 and 5, little-endian.
pub fn start(part: &[u8]) -> u16
    ensures { result ≡ start_of part.now }
{
    u16::from_le_bytes([byte(part, 4), byte(part, 5)])
}

// How many columns the calls reach over: byte 6.
pub fn span(part: &[u8]) -> u8
    ensures { result ≡ span_of part.now }
{
    byte(part, 6)
}

// The grade: byte 7.
pub fn grade(part: &[u8]) -> u8
    ensures { result ≡ grade_of part.now }
{
    byte(part, 7)
}

// A or B. A code is a byte of the records' format, and any is taken.
pub fn is_call(code: u8) -> bool
    ensures { result ≡ is_call_code code }
{
    code == A || code == B
}

// The code of cell i, from byte 8 + i / 4; 0 from cell 96 on.
pub fn cell(part: &[u8], i: usize) -> u8
    ensures { result ≡ cell_of part.now i }
{
    if i < CELLS {
        (byte(part, HEADER_BYTES + i / 4) >> (2 * (i % 4))) % 4
    } else {
        HOLE
    }
}
