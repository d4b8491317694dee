// Families of networks, and the trials of each.
ghost use Rattle.std.specs.Prelude.{◌≡◌, Some, IfOk};
ghost use Rattle.trials.specs.Families.{Undisturbed, name_of_kind, name_of};
ghost use Rattle.trials.specs.Tallies.{AllAgreed};

use crate::compare::Trial;
use crate::draft::{Kind, make_network};
use crate::generator::Generator;
use crate::tally::Tally;
use network::MOST_LINKS;
use std::alloc::{AllocError, Global};
use std::{array, fmt};

const NETWORKS: u32 = 100;

// Not an Option: with outages a network has a kind too, drawn anew for each.
#[derive(Clone, Copy)]
pub(crate) enum Family {
    // Networks of one kind, with all links usable.
    All(Kind),
    // Networks of any kind, with some links that are not usable.
    Outages,
}

impl fmt::Display for Kind {
    ghost output = { λ kind. Some (name_of_kind kind) };

    fn fmt<W: fmt::Write>(&self, f: &mut fmt::Formatter<W>) -> fmt::Result {
        f.write_str(match self {
            Kind::Scattered => "random costs",
            Kind::Ties => "ties",
            Kind::Parallel => "parallel links",
            Kind::Traps => "traps",
        })
    }
}

impl fmt::Display for Family {
    ghost output = { λ family. Some (name_of family) };

    fn fmt<W: fmt::Write>(&self, f: &mut fmt::Formatter<W>) -> fmt::Result {
        match self {
            Family::All(kind) => kind.fmt(f),
            Family::Outages => f.write_str("outages"),
        }
    }
}

// One of the four kinds. The numbers are only drawn: no enum is made from a number by a derive.
fn any_kind(generator: &mut Generator) -> Kind {
    match generator.between(0, 3) {
        0 => Kind::Scattered,
        1 => Kind::Ties,
        2 => Kind::Parallel,
        _ => Kind::Traps,
    }
}

// Which links are usable: three of four, by chance.
fn any_links(generator: &mut Generator) -> [bool; MOST_LINKS] {
    array::from_fn(|_| generator.between(0, 3) > 0)
}

impl Family {
    // The kind of its next network.
    fn kind(self, generator: &mut Generator) -> Kind {
        match self {
            Family::All(kind) => kind,
            Family::Outages => any_kind(generator),
        }
    }

    // Which links are usable in it.
    fn usable(self, generator: &mut Generator) -> [bool; MOST_LINKS]
        ensures { Undisturbed self result }
    {
        match self {
            Family::All(_) => [true; MOST_LINKS],
            Family::Outages => any_links(generator),
        }
    }

    // Tries 100 networks of the family.
    pub(crate) fn try_networks(
        self,
        generator: &mut Generator,
        heap: Global,
    ) -> Result<Tally, AllocError>
        ensures { IfOk result (λ tally. AllAgreed 100 tally) }
    {
        let mut tally = Tally::default();
        for _n in 0..NETWORKS {
            let network = make_network(self.kind(generator), generator, heap)?;
            let usable = self.usable(generator);
            let trial = Trial {
                network: &network,
                usable: &usable,
            };
            tally = tally + trial.try_all();
        }
        Ok(tally)
    }
}
