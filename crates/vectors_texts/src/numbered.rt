// The numbers of all nodes of a problem's expressions (T-08). Their values are free: what is printed of each node, in order, is the first
// node with the same number. Nothing else is asked for.
use comparing::number_in;
use lines::output::bad;
use std::io::Result;
use table::TABLE_ROOM;

fn print_firsts(rt: &impl Print, ns: &[u64]) -> Result<()> {
    if ns.is_empty() {
        return print!(rt; " none");
    }
    for (k, n) in ns.iter().enumerate() {
        let first = ns.iter().position(|m| m == n).unwrap_or(k);
        print!(rt; " {first}")?;
    }
    Ok(())
}

pub fn show_numbered(rt: &impl Print, label: &[u8], problem: &[u8], text: &[u8]) -> Result<()> {
    if !text.is_empty() {
        return bad(rt, label);
    }
    let mut ns = [0u64; TABLE_ROOM];
    rt.write_all(label)?;
    print!(rt; ":")?;
    match number_in(problem, &mut ns) {
        Err(refusal) => print!(rt; " refused {}", refusal.number())?,
        Ok(n) => print_firsts(rt, &ns[..n])?,
    }
    println!(rt; "")
}
