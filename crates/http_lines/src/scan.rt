// Where a head or a trailer part ends.

ghost use Rattle.std.specs.Prelude.{◌≡◌, ◌≤◌, ◌<◌, length, take, OnOk, IfSome, IfNone};
ghost use Rattle.http_lines.specs.SectionEnds.{section_end, scanned, next_line, next_scan, is_last};

/// What has come of a line.
#[derive(Clone, Copy, Debug, PartialEq, Eq)]
pub enum Line {
    /// Nothing.
    Fresh,
    /// A carriage return alone.
    Return,
    /// Something.
    Filled,
}

/// How far lines were read that end with an empty one.
#[derive(Clone, Copy, Debug, PartialEq, Eq)]
pub struct Scan {
    /// What has come of the last line.
    pub line: Line,
    /// Whether an empty line would be the last.
    pub begun: bool,
}

/// Before the first byte of a head, whose end is its first empty line after one that is not empty.
pub const HEAD: Scan = Scan {
    line: Line::Fresh,
    begun: false,
};

/// Before the first byte of a trailer part, whose end is its first empty line.
pub const TRAILER: Scan = Scan {
    line: Line::Fresh,
    begun: true,
};

/// What has come of a line after one more byte, which does not end it.
pub fn after_byte(line: Line, byte: u8) -> Line
    ensures { result ≡ next_line line byte }
{
    match line {
        Line::Fresh if byte == b'\r' => Line::Return,
        _ => Line::Filled,
    }
}

impl Scan {
    /// Whether this byte ends the empty line that is the last.
    fn is_last(self, byte: u8) -> bool
        ensures { result ≡ is_last self byte }
    {
        byte == b'\n' && self.line != Line::Filled && self.begun
    }

    /// How lines stand after one more byte.
    fn next(self, byte: u8) -> Scan
        ensures { result ≡ next_scan self byte }
    {
        if byte == b'\n' {
            return Scan {
                line: Line::Fresh,
                begun: self.begun || self.line == Line::Filled,
            };
        }
        Scan {
            line: after_byte(self.line, byte),
            begun: self.begun,
        }
    }

    /// Reads on, and answers how many bytes of the piece there are up to the end, where that is in the piece.
    pub fn find_end(&mut self, piece: &[u8]) -> Option<usize>
        ensures found { result ≡ section_end self.old piece.now }
        ensures within { IfSome result (λ n. (n ≤ length piece.now) × (0 < n)) }
        ensures open { IfNone result (self.new ≡ scanned self.old piece.now) }
    {
        let mut scan = *self;
        for (index, byte) in piece.iter().enumerate() {
            if scan.is_last(*byte) {
                return Some(index + 1);
            }
            scan = scan.next(*byte);
        }
        *self = scan;
        None
    }
}
