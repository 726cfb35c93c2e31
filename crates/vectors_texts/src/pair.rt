// Two nodes of a problem's expressions compared. What is asked for has 4 bytes: the numbers of the nodes, 2 bytes each.
use comparing::compare_in;
use lines::output::bad;
use std::io::Result;

pub fn show_pair(rt: &impl Print, label: &[u8], problem: &[u8], nodes: &[u8]) -> Result<()> {
    let [a, b, c, d] = nodes else {
        return bad(rt, label);
    };
    let one = u16::from_be_bytes([*a, *b]);
    let other = u16::from_be_bytes([*c, *d]);
    rt.write_all(label)?;
    match compare_in(problem, usize::from(one), usize::from(other)) {
        Err(refusal) => println!(rt; ": refused {}", refusal.number()),
        Ok(None) => println!(rt; ": no such node"),
        Ok(Some(compared)) => {
            let equal = if compared.equal { "yes" } else { "no" };
            println!(rt; ": {equal} {}", compared.pairs)
        }
    }
}
