use crate::*;
use std::alloc::Global;
use std::test::Fail;

// Four nodes; 0→1, 1→2 and 2→3 at cost 1, 0→2 and 1→3 at 4; capacity 10 and ceiling 64 throughout.
const DIAMOND: [u32; 11] = [
    0x1004_0005,
    0x2001_0001,
    0x3000_a800,
    0x2042_0001,
    0x3000_a800,
    0x2083_0001,
    0x3000_a800,
    0x2002_0004,
    0x3000_a800,
    0x2043_0004,
    0x3000_a800,
];

#[test]
fn reads_and_writes(rt: HostRuntime) -> Result<(), Fail> {
    let network = read(&DIAMOND, rt.alloc())?;
    assert_eq!(rt; network.nodes(), 4);
    assert_eq!(rt; network.links().len(), 5);
    let last = Link {
        tail: 1,
        head: 3,
        cost: 4,
        capacity: 10,
        ceiling: 64,
    };
    assert_eq!(rt; network.link(4), Some(last));
    let mut words = [7; 12];
    assert_eq!(rt; network.write(&mut words)?, 11);
    assert!(rt; &words[0..11] == DIAMOND.as_slice());
    assert_eq!(rt; words[11], 7);
    assert_eq!(rt; extent(&words), 11);
    Ok(())
}

// The number and the place of the fault of the words.
fn fault(words: &[u32], heap: Global) -> (Option<u8>, Option<usize>) {
    match read(words, heap) {
        Ok(_) => (None, None),
        Err(fault) => (fault.number(), fault.place()),
    }
}

#[test]
fn refuses(rt: HostRuntime) {
    let heap = rt.alloc();
    assert_eq!(rt; fault(&[], heap), (Some(1), Some(0)));
    assert_eq!(rt; fault(&[0x2004_0005], heap), (Some(2), Some(0)));
    assert_eq!(rt; fault(&DIAMOND[0..10], heap), (Some(3), Some(10)));
    let mut words = DIAMOND;
    words[10] = 0x3000_a801;
    assert_eq!(rt; fault(&words, heap), (Some(7), Some(10)));
    words[7] = 0x2002_0000;
    assert_eq!(rt; fault(&words, heap), (Some(6), Some(7)));
    words[5] = 0x2103_0001;
    assert_eq!(rt; fault(&words, heap), (Some(5), Some(5)));
    words[4] = 0x2000_a800;
    assert_eq!(rt; fault(&words, heap), (Some(4), Some(4)));
}

// A link of the diamond.
fn link(tail: u8, head: u8, cost: u16) -> Link {
    Link {
        tail,
        head,
        cost,
        capacity: 10,
        ceiling: 64,
    }
}

#[test]
fn makes_of_links(rt: HostRuntime) -> Result<(), Fail> {
    let heap = rt.alloc();
    let links = [
        link(0, 1, 1),
        link(1, 2, 1),
        link(2, 3, 1),
        link(0, 2, 4),
        link(1, 3, 4),
    ];
    let network = Network::of_links(4, links.to_vec(heap)?, heap)?;
    let mut words = [7; 11];
    assert_eq!(rt; network.write(&mut words)?, 11);
    assert!(rt; words == DIAMOND);
    let few = Network::of_links(3, links.to_vec(heap)?, heap);
    assert!(rt; matches!(few, Err(LinksFault::OutOfLimits)));
    Ok(())
}
