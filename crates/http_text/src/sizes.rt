// How far a chunk's size line was read.

ghost use Rattle.std.specs.Prelude.{◌≡◌, ◌&&◌, nat_lt};
ghost use Rattle.std.specs.Char.{is_ascii_hexdigit};
ghost use Rattle.httparse.specs.Grammar.{is_ows, is_extension_byte};
ghost use Rattle.http_text.specs.SizeLines.{is_known, is_size_digit, after_digits, next_size, scanned_size};

/// The most digits of a size.
const MOST_DIGITS: usize = 16;

/// What a size line is so far (RFC 9112, section 7.1), as far as that is seen without its parser.
#[derive(Clone, Copy, Debug, PartialEq, Eq)]
pub(crate) enum SizeScan {
    /// Digits alone, this many.
    Digits(usize),
    /// Digits, and blanks after them.
    Blanks,
    /// Digits, maybe blanks, and an extension that has begun.
    Extension,
    /// Anything else.
    Other,
}

/// Before the first byte of a size line.
pub(crate) const SIZE: SizeScan = SizeScan::Digits(0);

/// Whether a byte is a further digit after this many.
fn is_size_digit(count: usize, byte: u8) -> bool
    ensures { result ≡ is_size_digit count byte }
{
    byte.is_ascii_hexdigit() && count < MOST_DIGITS
}

/// Whether a byte is a blank.
fn is_blank(byte: u8) -> bool
    ensures { result ≡ is_ows byte }
{
    byte == b' ' || byte == b'\t'
}

/// Whether a byte is one of an extension.
fn is_extension_byte(byte: u8) -> bool
    ensures { result ≡ is_extension_byte byte }
{
    !(byte == b'\r' || byte == b'\n')
}

/// What a size line is with a byte after its digits or blanks.
fn after_digits(byte: u8) -> SizeScan
    ensures { result ≡ after_digits byte }
{
    if is_blank(byte) {
        return SizeScan::Blanks;
    }
    if byte == b';' {
        return SizeScan::Extension;
    }
    SizeScan::Other
}

impl SizeScan {
    /// Whether it is one that further bytes can make whole, and is not whole.
    pub(crate) fn is_known(self) -> bool
        ensures { result ≡ is_known self }
    {
        match self {
            SizeScan::Digits(_) => true,
            SizeScan::Blanks => true,
            SizeScan::Extension => true,
            SizeScan::Other => false,
        }
    }

    /// What a size line is with one more byte.
    fn next(self, byte: u8) -> SizeScan
        ensures { result ≡ next_size self byte }
    {
        match self {
            SizeScan::Digits(count) if is_size_digit(count, byte) => SizeScan::Digits(count + 1),
            SizeScan::Digits(count) if count > 0 => after_digits(byte),
            SizeScan::Digits(_) => SizeScan::Other,
            SizeScan::Blanks => after_digits(byte),
            SizeScan::Extension if is_extension_byte(byte) => SizeScan::Extension,
            SizeScan::Extension => SizeScan::Other,
            SizeScan::Other => SizeScan::Other,
        }
    }

    /// What a size line is with further bytes.
    pub(crate) fn after(self, bytes: &[u8]) -> SizeScan
        ensures { result ≡ scanned_size self bytes.now }
    {
        let mut scan = self;
        for byte in bytes {
            scan = scan.next(*byte);
        }
        scan
    }
}
