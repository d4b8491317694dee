#![tactic(auto)]

// Whole inputs and their logs: the inputs of examples/.
#[cfg(test)]
mod tests {
    use orders::run;
    use std::alloc::{AllocError, Global};
    use std::process::Abort;
    use std::test::Fail;

    // The words, most significant byte first, and some bytes behind them.
    fn input_of(heap: Global, words: &[u32], behind: &[u8]) -> Result<Vec<u8>, AllocError> {
        let mut bytes = Vec::new(heap);
        for word in words {
            bytes.extend_from_slice(&word.to_be_bytes())?;
        }
        bytes.extend_from_slice(behind)?;
        Ok(bytes)
    }

    fn logs(
        rt: &impl Abort,
        heap: Global,
        words: &[u32],
        behind: &[u8],
        log: &[u8],
    ) -> Result<(), Fail> {
        let input = input_of(heap, words, behind)?;
        let line = run(&input, heap)?;
        assert!(rt; line.bytes() == log);
        Ok(())
    }

    #[test]
    fn diamond(rt: HostRuntime) -> Result<(), Fail> {
        let words = [
            0x1004_0005,
            0x2001_0001,
            0x3000_a800,
            0x2042_0001,
            0x3000_a800,
            0x2083_0001,
            0x3000_a800,
            0x2002_0004,
            0x3000_a800,
            0x2043_0004,
            0x3000_a800,
            0x5003_0006,
            0x6000_003c,
        ];
        logs(&rt, rt.alloc(), &words, b"", b"PAIR 1 10 W 0 4 P 3 2\n")
    }

    #[test]
    fn several_orders(rt: HostRuntime) -> Result<(), Fail> {
        let words = [
            0x1004_0005,
            0x2001_0001,
            0x3000_a800,
            0x2042_0001,
            0x3000_a800,
            0x2083_0001,
            0x3000_a800,
            0x2002_0004,
            0x3000_a800,
            0x2043_0004,
            0x3000_a800,
            0x5003_0006,
            0x6000_003c,
            0x5004_0006,
            0x6000_003c,
            0x5249_0006,
            0x6000_003c,
            0x5041_0006,
            0x6000_003c,
            0x5003_0000,
            0x6000_0000,
            0x5003_0006,
            0x6000_0000,
            0x5003_0006,
            0x6001_5181,
            0x5003_0006,
            0x6001_5180,
            0x5003_000b,
            0x6000_003c,
            0x50c0_0001,
            0x6000_003c,
            0x5003_000a,
            0x6000_003c,
            0x5002_0001,
            0x6000_0001,
            0x5043_0001,
            0x6000_0001,
            0x5001_0001,
            0x6000_0001,
        ];
        logs(
            &rt,
            rt.alloc(),
            &words,
            b"",
            b"PAIR 1 10 W 0 4 P 3 2\nNO 21\nNO 21\nNO 22\nNO 23\nNO 24\nNO 24\nPAIR 2 10 W 0 4 P 3 2\nNO 28\nNO 28\nPAIR 3 10 W 0 4 P 3 2\nPAIR 4 6 W 0 1 P 3\nPAIR 5 6 W 1 2 P 4\nNO 28\n",
        )
    }

    #[test]
    fn parallel_links(rt: HostRuntime) -> Result<(), Fail> {
        let words = [
            0x1002_0002,
            0x2001_0001,
            0x3000_a800,
            0x2001_0002,
            0x3000_a800,
            0x5001_0001,
            0x6000_003c,
        ];
        logs(&rt, rt.alloc(), &words, b"", b"PAIR 1 3 W 0 P 1\n")
    }

    #[test]
    fn capacities(rt: HostRuntime) -> Result<(), Fail> {
        let words = [
            0x1002_0003,
            0x2001_0001,
            0x3000_5800,
            0x2001_0002,
            0x3000_a800,
            0x2001_0003,
            0x3000_a000,
            0x5001_0005,
            0x6000_003c,
            0x5001_0006,
            0x6000_003c,
            0x5001_000b,
            0x6000_003c,
        ];
        logs(
            &rt,
            rt.alloc(),
            &words,
            b"",
            b"PAIR 1 3 W 0 P 1\nPAIR 2 5 W 1 P 2\nNO 28\n",
        )
    }

    #[test]
    fn damaged_network(rt: HostRuntime) -> Result<(), Fail> {
        let words = [
            0x1004_0005,
            0x2001_0001,
            0x3000_a800,
            0x2042_0001,
            0x3000_a800,
            0x2089_0001,
            0x3000_a800,
            0x2002_0000,
            0x3000_a800,
            0x2043_0004,
            0x3000_a800,
            0x5003_0006,
            0x6000_003c,
        ];
        logs(&rt, rt.alloc(), &words, b"", b"NO 5\n")
    }

    #[test]
    fn bytes_left_over(rt: HostRuntime) -> Result<(), Fail> {
        let words = [
            0x1004_0005,
            0x2001_0001,
            0x3000_a800,
            0x2042_0001,
            0x3000_a800,
            0x2083_0001,
            0x3000_a800,
            0x2002_0004,
            0x3000_a800,
            0x2043_0004,
            0x3000_a800,
            0x5003_0006,
            0x6000_003c,
            0x5041_0006,
            0x6000_003c,
        ];
        logs(
            &rt,
            rt.alloc(),
            &words,
            b"\x50\x03",
            b"PAIR 1 10 W 0 4 P 3 2\nNO 22\nNO 9\n",
        )
    }

    #[test]
    fn reserve_without_hold(rt: HostRuntime) -> Result<(), Fail> {
        let words = [
            0x1004_0005,
            0x2001_0001,
            0x3000_a800,
            0x2042_0001,
            0x3000_a800,
            0x2083_0001,
            0x3000_a800,
            0x2002_0004,
            0x3000_a800,
            0x2043_0004,
            0x3000_a800,
            0x5003_0006,
            0x6000_003c,
            0x5009_0000,
            0x5003_0006,
            0x6000_003c,
        ];
        logs(
            &rt,
            rt.alloc(),
            &words,
            b"",
            b"PAIR 1 10 W 0 4 P 3 2\nNO 9\n",
        )
    }

    #[test]
    fn no_input(rt: HostRuntime) -> Result<(), Fail> {
        logs(&rt, rt.alloc(), &[], b"", b"NO 1\n")
    }
}
