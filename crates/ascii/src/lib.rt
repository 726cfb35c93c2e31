// Words, numbers and bytes as they are printed, put into a buffer one after the other: each function writes at a place and answers the place
// after what it wrote. By hand and not by `write!`, whose text a contract knows only in a String, on the heap.
#![tactic(auto)]

ghost use Rattle.std.specs.Prelude.{◌+◌, ◌*◌, ◌≤◌, ◌≡◌, [], ◌∷◌, length};
ghost use Rattle.meaning.specs.Program.{decimal, hex_digit, hexadecimal};
ghost use Rattle.ascii.specs.Put.{Put};

pub fn put_word(word: &[u8], at: usize, out: &mut [u8]) -> usize
    requires { at + length word.now ≤ length out.old }
    ensures { Put at word.now out.old out.new result }
{
    let end = at + word.len();
    out[at..end].copy_from_slice(word);
    end
}

// A number in decimal: the digits before the last, and then the last.
pub fn put_number(n: u32, at: usize, out: &mut [u8]) -> usize
    requires { at + length (decimal n) ≤ length out.old }
    ensures { Put at (decimal n) out.old out.new result }
{
    let last = b'0' + (n % 10) as u8;
    let end = if n < 10 {
        at
    } else {
        put_number(n / 10, at, out)
    };
    out[end] = last;
    end + 1
}

// A digit of a byte: "upper-case hexadecimal".
fn hex_digit(value: u8) -> u8
    requires { value ≤ 15 }
    ensures { result ≡ hex_digit value }
{
    if value < 10 {
        b'0' + value
    } else {
        b'A' - 10 + value
    }
}

// A byte: its high digit, and its low one.
fn put_byte(byte: u8, at: usize, out: &mut [u8]) -> usize
    requires { at + 2 ≤ length out.old }
    ensures { Put at (hexadecimal (byte ∷ [])) out.old out.new result }
{
    let high = hex_digit(byte / 16);
    let low = hex_digit(byte % 16);
    out[at] = high;
    out[at + 1] = low;
    at + 2
}

// Bytes, two digits each.
pub fn put_bytes(bytes: &[u8], at: usize, out: &mut [u8]) -> usize
    requires { at + 2 * length bytes.now ≤ length out.old }
    ensures { Put at (hexadecimal bytes.now) out.old out.new result }
{
    let mut end = at;
    for byte in bytes {
        end = put_byte(*byte, end, out);
    }
    end
}
