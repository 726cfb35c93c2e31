// Lines of output: bytes as they are, and as two upper-case hexadecimal digits each.
use ascii::put_bytes;
use std::io::Result;

// A line of the input that is no example.
pub fn bad(rt: &impl Print, line: &[u8]) -> Result<()> {
    print!(rt; "bad line: ")?;
    rt.write_all(line)?;
    println!(rt; "")
}

// The first 8,192 bytes, or as many as there are, in one write.
pub fn print_bytes(rt: &impl Print, bytes: &[u8]) -> Result<()> {
    let mut digits = [0u8; 16384];
    let n = bytes.len().min(8192);
    put_bytes(&bytes[..n], 0, &mut digits);
    rt.write_all(&digits[..2 * n])
}
