use network::read;
use routing::{NodeKey, Pair, Reach, find_pair};
use std::alloc::Global;
use std::process::Abort;
use std::test::Fail;

// Four nodes; 0→1, 1→2 and 2→3 at cost 1, 0→2 and 1→3 at 4.
const DIAMOND: [u32; 11] = [
    0x1004_0005,
    0x2001_0001,
    0x3000_a800,
    0x2042_0001,
    0x3000_a800,
    0x2083_0001,
    0x3000_a800,
    0x2002_0004,
    0x3000_a800,
    0x2043_0004,
    0x3000_a800,
];

// The pair from node 0, if any; the words are left zero.
fn find(
    rt: &impl Abort,
    heap: Global,
    network: &[u32],
    usable: &[bool],
    target: u8,
) -> Result<Option<Pair>, Fail> {
    let network = read(network, heap)?;
    let mut words = [7; 448];
    let mut entries = [NodeKey {
        reach: Reach::NotReached,
        node: 0,
    }; 32];
    let found = find_pair(&network, usable, 0, target, &mut words, &mut entries).map_err(
        |_| "refused",
    )?;
    assert!(rt; words.as_slice() == [0; 448].as_slice());
    Ok(found)
}

fn finds(
    rt: &impl Abort,
    heap: Global,
    network: &[u32],
    target: u8,
    cost: u32,
    working: &[u8],
    protecting: &[u8],
) -> Result<(), Fail> {
    let pair = find(rt, heap, network, &[true; 128], target)?.ok_or("no pair")?;
    assert_eq!(rt; pair.cost, cost);
    assert!(rt; pair.working.links() == working);
    assert!(rt; pair.protecting.links() == protecting);
    Ok(())
}

#[test]
fn pairs(rt: HostRuntime) -> Result<(), Fail> {
    let heap = rt.alloc();
    finds(&rt, heap, &DIAMOND, 3, 10, &[0, 4], &[3, 2])?;
    let parallel = [
        0x1002_0002,
        0x2001_0001,
        0x3000_a800,
        0x2001_0002,
        0x3000_a800,
    ];
    finds(&rt, heap, &parallel, 1, 3, &[0], &[1])
}

// The cheapest path, 0→1→2→5 at 3, leaves only 0→5 at 20: 23 together. Without 0→5 both 2→5 and 4→5 are needed, so
// 0→1→4→5 at 1 + 2 + 2 and 0→3→2→5 at 2 + 2 + 1: 10 together. The second works, by its first link.
#[test]
fn cheapest_path_in_no_cheapest_pair(rt: HostRuntime) -> Result<(), Fail> {
    let network = [
        0x1006_0008,
        0x2003_0002,
        0x3000_a800,
        0x20c2_0002,
        0x3000_a800,
        0x2085_0001,
        0x3000_a800,
        0x2001_0001,
        0x3000_a800,
        0x2042_0001,
        0x3000_a800,
        0x2044_0002,
        0x3000_a800,
        0x2105_0002,
        0x3000_a800,
        0x2005_0014,
        0x3000_a800,
    ];
    finds(&rt, rt.alloc(), &network, 5, 10, &[0, 1, 2], &[3, 5, 6])
}

#[test]
fn no_pair(rt: HostRuntime) -> Result<(), Fail> {
    let heap = rt.alloc();
    let single = [0x1002_0001, 0x2001_0001, 0x3000_a800];
    let found = find(&rt, heap, &single, &[true], 1)?;
    assert!(rt; found.is_none());
    let found = find(&rt, heap, &DIAMOND, &[true, true, true, true, false], 3)?;
    assert!(rt; found.is_none(), "without 1→3");
    Ok(())
}
