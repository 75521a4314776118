#![tactic(auto)]
// Reads a switch file of bits from standard input, and prints the nodes of its line or why it is refused.
use quotes::price::Price;
use quotes::quoting::quote;
use std::io;
use std::io::Read;

fn main(rt: HostRuntime) -> io::Result<()> {
    let mut bytes = Vec::new(rt.alloc());
    rt.stdin().read_to_end(&mut bytes)?;
    match quote(&bytes) {
        Ok(nodes) => {
            let price = Price { nodes };
            println!(rt; "{price}")
        }
        Err(fault) => println!(rt; "{fault}"),
    }
}
