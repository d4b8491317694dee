// Small networks of which the cheapest pairs are known: as a theorem about the definitions that `find_pair` is
// proved against, and as tests of it.
#![tactic(auto)]

ghost use Rattle.small_cases.specs.Cases.{SmallNetworks};

#[cfg(test)]
mod tests;

// The definitions of pairs give on small networks what they should.
pub fn small_networks_stand()
    ensures { SmallNetworks }
{}
