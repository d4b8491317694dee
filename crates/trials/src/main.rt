// Compares the pairs that are found with an enumeration of all pairs, on small generated networks.
#![tactic(auto)]

mod compare;
mod draft;
mod families;
mod generator;
mod tally;

use draft::Kind;
use families::Family;
use generator::Generator;
use std::io;
use tally::Tally;

const FAMILIES: [Family; 5] = [
    Family::All(Kind::Scattered),
    Family::All(Kind::Ties),
    Family::All(Kind::Parallel),
    Family::All(Kind::Traps),
    Family::Outages,
];

fn main(rt: HostRuntime) -> io::Result<()> {
    let mut generator = Generator::new(1);
    let mut total = Tally::default();
    for family in FAMILIES {
        let tally = family.try_networks(&mut generator, rt.alloc())?;
        println!(rt; "{family}: {tally}")?;
        total = total + tally;
    }
    println!(rt; "all: {total}")
}
