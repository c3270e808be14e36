//! What printed reports show.

/// What the lines of intervals in printed reports show.
#[derive(Clone, Copy, PartialEq, Eq, Debug)]
pub struct Printed {
    /// How many such lines there are.
    pub lines: u64,
    /// How many of them have another number than their place, counted from 0.
    pub misnumbered: u64,
    /// How many of them show a sample.
    pub filled: u64,
    /// How many samples they show together.
    pub samples: u64,
}

impl Printed {
    // One more line.
    fn with(self, number: u64, samples: u64) -> Printed {
        Printed {
            lines: self.lines.wrapping_add(1),
            misnumbered: self
                .misnumbered
                .wrapping_add(u64::from(number != self.lines)),
            filled: self.filled.wrapping_add(u64::from(samples != 0)),
            samples: self.samples.wrapping_add(samples),
        }
    }
}

// The number that decimal digits spell.
fn number(digits: &[u8]) -> u64 {
    let mut number = 0u64;
    for digit in digits {
        let value = u64::from(digit.wrapping_sub(b'0'));
        number = number.wrapping_mul(10).wrapping_add(value);
    }
    number
}

// The number and the samples of an interval, where the line is that of an interval.
fn interval_line(line: &[u8]) -> Option<(u64, u64)> {
    let mut fields = line.split(|byte| *byte == b',');
    if fields.next()? != b"interval".as_slice() {
        return None;
    }
    Some((number(fields.next()?), number(fields.next()?)))
}

/// What the lines of intervals in a text show.
pub fn read_printed(text: &[u8]) -> Printed {
    let mut all = Printed {
        lines: 0,
        misnumbered: 0,
        filled: 0,
        samples: 0,
    };
    for line in text.split(|byte| *byte == b'\n') {
        if let Some((number, samples)) = interval_line(line) {
            all = all.with(number, samples);
        }
    }
    all
}
