// Lines of input that hold bytes as digits: a letter, and after it parts with one space between, and a label. A part is 0 or more bytes, each of
// two upper-case hexadecimal digits.
ghost use Rattle.std.specs.Prelude.{◌≡◌, ◌+◌, ◌*◌, ◌≤◌, length, IfSome};
ghost use Rattle.io.specs.Counts.{IsPrefixLen};

use crate::output::bad;
use std::io::Result;

// Room for each part of a line: one byte more than a text may have.
const ROOM: usize = 8193;

// A line with two parts: its letter, how many bytes each part has, and the label that stands after them.
#[derive(Clone, Copy)]
struct Asked<'a> {
    kind: u8,
    first: usize,
    second: usize,
    label: &'a [u8],
}

// Shows each line of standard input, which is read into the buffer; one that fills it may have been cut off. The first line that can't be
// written is the last one tried, and its failure the answer.
pub fn for_each_line<F: Fn(&[u8]) -> Result<()>>(
    rt: &impl Print,
    buffer: &mut [u8],
    show: F,
) -> Result<()>
    requires { F.IsAlwaysCallable show }
{
    let n = io::read_full(0, buffer);
    if n == buffer.len() {
        return bad(rt, b"the input is too long");
    }
    for line in buffer[..n].split_inclusive(|byte| *byte == b'\n') {
        show(line.strip_suffix(b"\n").unwrap_or(line))?;
    }
    Ok(())
}

// The same for a program that has nobody to tell: a line that can't be written is given up, and the next one tried.
pub fn show_all<F: Fn(&[u8]) -> Result<()>>(rt: &impl Print, buffer: &mut [u8], show: F)
    requires { F.IsAlwaysCallable show }
{
    let _ = for_each_line(rt, buffer, |line| {
        let _ = show(line);
        Ok(())
    });
}

// The letter that a line begins with, which is not 0, and what stands after the space that follows it.
pub fn letter_of(line: &[u8]) -> Option<(u8, &[u8])> {
    match line {
        [0, ..] => None,
        [letter, b' ', rest @ ..] => Some((*letter, rest)),
        _ => None,
    }
}

fn value(digit: u8) -> Option<u8>
    ensures { IfSome result (λ v. v ≤ 15) }
{
    match digit {
        b'0'..=b'9' => Some(digit - b'0'),
        b'A'..=b'F' => Some(digit - b'A' + 10),
        _ => None,
    }
}

// The part that stands first, up to a space: how many bytes it has, which are put at the front of the buffer, and what stands after the space.
pub fn read_part<'a>(line: &'a [u8], bytes: &mut [u8]) -> Option<(usize, &'a [u8])>
    ensures { IfSome result (λ part. (2 * part.0 + 1 + length part.1.now ≡ length line.now) × IsPrefixLen part.0 bytes.new) }
{
    let end = line.iter().position(|byte| *byte == b' ')?;
    let n = end / 2;
    if end % 2 != 0 || bytes.len() < n {
        return None;
    }
    for (byte, digits) in bytes.iter_mut().zip(line[..end].chunks_exact(2)) {
        *byte = 16 * value(digits[0])? + value(digits[1])?;
    }
    Some((n, &line[end + 1..]))
}

fn read_line<'a>(line: &'a [u8], first: &mut [u8], second: &mut [u8]) -> Option<Asked<'a>>
    ensures { IfSome result (λ a. IsPrefixLen a.first first.new × IsPrefixLen a.second second.new) }
{
    let (kind, line) = letter_of(line)?;
    let (first, line) = read_part(line, first)?;
    let (second, label) = read_part(line, second)?;
    Some(Asked {
        kind,
        first,
        second,
        label,
    })
}

// Shows a line with two parts by its letter, its label and the bytes of each part.
pub fn with_parts<F: Fn(u8, &[u8], &[u8], &[u8]) -> Result<()>>(
    rt: &impl Print,
    line: &[u8],
    show: F,
) -> Result<()>
    requires { F.IsAlwaysCallable show }
{
    let mut first = [0u8; ROOM];
    let mut second = [0u8; ROOM];
    match read_line(line, &mut first, &mut second) {
        Some(asked) => show(
            asked.kind,
            asked.label,
            &first[..asked.first],
            &second[..asked.second],
        ),
        None => bad(rt, line),
    }
}
