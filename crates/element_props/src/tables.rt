// Texts of comma-separated values.

ghost use Rattle.std.specs.Prelude.{◌≡◌, true, map, IfOk};
ghost use Rattle.csv.specs.Records.{fields_of};
ghost use Rattle.csv.specs.Reading.{error_kind, stops_reader};
ghost use Rattle.element_props.specs.Tables.{rows_of, is_table};

use csv::{ByteRecord, Error, ErrorKind, ReaderBuilder};
use jm_base::{M, NoMemory};
use std::alloc::Global;

// What stops a reader of rows over a text: out of memory. A text gives no error of its own, though `csv` leaves that open.
fn no_memory(error: Error) -> NoMemory
    requires { stops_reader (error_kind error) ≡ true }
{
    match error.into_kind() {
        ErrorKind::OutOfMemory | ErrorKind::Io(_) => NoMemory,
        ErrorKind::Utf8 { .. } | ErrorKind::UnequalLengths { .. } => unreachable!(),
        ErrorKind::Serialize(_) | ErrorKind::Deserialize { .. } => unreachable!(),
    }
}

/// The rows of a text of comma-separated values (RFC 4180), of any lengths, without a header. The only error is out of memory.
pub fn table_rows(alloc: Global, text: &[u8]) -> M<Vec<ByteRecord>>
    ensures { IfOk result (λ v. map fields_of v.items ≡ rows_of text.now) }
{
    let reader = ReaderBuilder::new()
        .has_headers(false)
        .flexible(true)
        .from_reader(alloc, text);
    let mut rows = Vec::new(alloc);
    for row in reader.into_byte_records() {
        match row {
            Ok(row) => rows.push(row)?,
            Err(error) => return Err(no_memory(error)),
        }
    }
    Ok(rows)
}

// Whether there is a row, and each row has that many fields.
fn fits(rows: &[ByteRecord], width: usize) -> bool
    ensures { result ≡ is_table width (map fields_of rows.now) }
{
    !rows.is_empty() && rows.iter().all(|row| row.len() == width)
}

/// Whether the text has a row, and each row that many fields.
pub fn is_table(alloc: Global, text: &[u8], width: usize) -> M<bool>
    ensures { IfOk result (λ b. b ≡ is_table width (rows_of text.now)) }
{
    let rows = table_rows(alloc, text)?;
    Ok(fits(&rows, width))
}
