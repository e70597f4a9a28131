// The fields of an answer.
ghost use Rattle.std.specs.Prelude.{◌≡◌, ◌++◌, ◌+◌, ◌*◌, ◌≤◌, length, map};
ghost use Rattle.below.specs.Text.{ascii};
ghost use Rattle.listing.specs.Listing.{sign_of, block_word, led, joined, field};

use crate::text::{ROOM, Text};
use fields::byte;

fn put_signs(signs: &[u8], codes: &[u8], out: &mut Text)
    requires { length out.old + length codes.now ≤ ROOM }
    ensures { out.new ≡ out.old ++ map (sign_of signs.now) codes.now }
{
    for &code in codes {
        out.push(byte(signs, usize::from(code)));
    }
}

// A space, then the signs of codes; a full stop where there is no code.
pub(crate) fn put_field(signs: &[u8], codes: &[u8], out: &mut Text)
    requires { length out.old + (length codes.now + 2) ≤ ROOM }
    ensures appended { out.new ≡ out.old ++ (ascii " " ++ field (map (sign_of signs.now) codes.now)) }
    ensures within { length out.new ≤ length out.old + (length codes.now + 2) }
{
    out.push(b' ');
    if codes.is_empty() {
        out.push(b'.');
    } else {
        put_signs(signs, codes, out);
    }
}

// A block's number, or - for 255, a removed fragment.
fn put_block(block: u8, out: &mut Text)
    requires { length out.old + 20 ≤ ROOM }
    ensures appended { out.new ≡ out.old ++ block_word block }
    ensures within { length out.new ≤ length out.old + 3 }
{
    if block == 255 {
        out.push(b'-');
    } else {
        out.push_number(usize::from(block));
    }
}

// Blocks, each after a comma.
fn put_blocks(blocks: &[u8], out: &mut Text)
    requires { length out.old + (4 * length blocks.now + 20) ≤ ROOM }
    ensures appended { out.new ≡ out.old ++ led "," (map block_word blocks.now) }
    ensures within { length out.new ≤ length out.old + 4 * length blocks.now }
{
    for &block in blocks {
        out.push(b',');
        put_block(block, out);
    }
}

// A space, then the blocks with commas between them; a full stop where there is no fragment.
pub(crate) fn put_block_field(blocks: &[u8], out: &mut Text)
    requires { length out.old + (4 * length blocks.now + 22) ≤ ROOM }
    ensures appended { out.new ≡ out.old ++ (ascii " " ++ field (joined "," (map block_word blocks.now))) }
    ensures within { length out.new ≤ length out.old + (4 * length blocks.now + 2) }
{
    out.push(b' ');
    match blocks {
        [] => out.push(b'.'),
        [first, rest @ ..] => {
            put_block(*first, out);
            put_blocks(rest, out);
        }
    }
}
