// Standard input, up to the room that there is for it.
ghost use Rattle.std.specs.Prelude.{◌≤◌, length, IfOk};

use std::io::{Read, Result};

// Reads until the buffer is full or the input ends; io::read_full does not tell the end of the input from a read that fails.
pub fn read_input<R: Read>(from: &mut R, buffer: &mut [u8]) -> Result<usize>
    ensures { IfOk result (λ n. n ≤ length buffer.new) }
{
    let mut done = 0;
    // A `while`, since a read moves on by as many bytes as it got.
    while done < buffer.len() {
        match from.read(&mut buffer[done..])? {
            0 => break,
            more => done += more,
        }
    }
    Ok(done)
}
