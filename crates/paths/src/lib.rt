// Paths and pairs of paths in directed graphs: the definitions (specs/Pairs.antt) and the theorems that finding the
// cheapest pair rests on. There is no code to run here.
#![tactic(auto)]

ghost use Rattle.paths.specs.Theorems.{CertifiedIsCheapest, ClosedAfterOneMeansNoPair, ClosedAtFirstMeansNoPath, WalksTelescope};

// The theorems hold of every directed graph.
pub fn pairs_stand()
    ensures telescope { WalksTelescope }
    ensures cheapest { CertifiedIsCheapest }
    ensures nopair { ClosedAfterOneMeansNoPair }
    ensures nopath { ClosedAtFirstMeansNoPath }
{}
