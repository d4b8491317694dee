// A line of a log: bytes and decimals, appended one after another.
#![tactic(auto)]

ghost use Rattle.std.specs.Prelude.{◌≡◌, ◌+◌, ◌<◌, ◌≤◌, [], ◌++◌, length, take, decimal, OnErr, OnOk};
ghost use Rattle.line.specs.Decimals.{TheDecimal};
ghost use Rattle.line.specs.Held.{Appends, held, room, spaced};

use itoa::Buffer;
use std::alloc::{AllocError, Global};

// A byte buffer. A call that appends answers `Err` where it finds no memory, and the line then holds what it held.
#[derive(Drop)]
pub struct Line {
    bytes: Vec<u8>,
}

impl Line {
    // An empty line.
    pub fn new(heap: Global) -> Line
        ensures empty { held result ≡ [] }
        ensures capacity { room result ≡ 0 }
    {
        Line {
            bytes: Vec::new(heap),
        }
    }

    // Appends the bytes of a text.
    pub fn text(&mut self, text: &[u8]) -> Result<(), AllocError>
        ensures { Appends self.old text.now result self.new }
    {
        self.bytes.extend_from_slice(text)
    }

    // Appends the decimal of n, with no leading zeros.
    #[tactic(auto, using(crate::proofs::Decimals::the_decimal))]
    pub fn decimal(&mut self, n: u32) -> Result<(), AllocError>
        ensures appends { Appends self.old (decimal n) result self.new }
        ensures spelled { TheDecimal n (decimal n) }
    {
        self.text(Buffer::new().format(n).as_bytes())
    }

    // Appends for each number a space and its decimal.
    pub fn numbers(&mut self, numbers: &[u8]) -> Result<(), AllocError>
        ensures { Appends self.old (spaced numbers.now) result self.new }
    {
        let before = self.bytes.len();
        let answer = self.each_number(numbers);
        if answer.is_err() {
            self.bytes.truncate(before);
        }
        answer
    }

    // Appends the numbers one by one, so that an `Err` may leave a part of them behind what the line held.
    #[tactic(auto, using(crate::proofs::Spaced::fitting))]
    fn each_number(&mut self, numbers: &[u8]) -> Result<(), AllocError>
        ensures kept { take (length (held self.old)) (held self.new) ≡ held self.old }
        ensures appended { OnOk result (held self.new ≡ held self.old ++ spaced numbers.now) }
        ensures full { OnErr result (room self.old < length (held self.old) + length (spaced numbers.now)) }
        ensures capacity { room self.old ≤ room self.new }
    {
        for &number in numbers {
            self.text(b" ")?;
            self.decimal(u32::from(number))?;
        }
        Ok(())
    }

    // The bytes that the line holds.
    pub fn bytes(&self) -> &[u8]
        ensures { result.now ≡ held self.now }
    {
        &self.bytes
    }
}

#[cfg(test)]
mod tests {
    use super::*;
    use std::test::Fail;

    #[test]
    fn decimals(rt: HostRuntime) -> Result<(), Fail> {
        let cases: [(u32, &[u8]); 5] = [
            (0, b"0"),
            (9, b"9"),
            (10, b"10"),
            (65_535, b"65535"),
            (4_294_967_295, b"4294967295"),
        ];
        for (n, text) in cases {
            let mut line = Line::new(rt.alloc());
            line.decimal(n)?;
            assert_eq!(rt; line.bytes(), text);
        }
        Ok(())
    }

    #[test]
    fn spaced_numbers(rt: HostRuntime) -> Result<(), Fail> {
        let mut line = Line::new(rt.alloc());
        line.text(b"PATH")?;
        line.numbers(&[7, 0, 10, 255])?;
        assert_eq!(rt; line.bytes(), b"PATH 7 0 10 255".as_slice());
        Ok(())
    }
}
