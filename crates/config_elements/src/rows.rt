// The rows of data sets.

ghost use Rattle.std.specs.Prelude.{◌≡◌, ◌<◌, [], length, slice_get, IfOk, IfSome};
ghost use Rattle.std.specs.Option.{option_map};
ghost use Rattle.csv.specs.Records.{fields_of};
ghost use Rattle.element_props.specs.Tables.{rows_of};

use csv::ByteRecord;
use element_props::table_rows;
use jm_base::{Items, M, Text};
use std::alloc::Global;
use std::marker::Model;

/// Rows of fields.
#[derive(Drop)]
pub struct Rows {
    rows: Vec<Items<Text>>,
}

impl Model for Rows {
    ghost use Rattle.std.specs.Prelude.{List, ℕ};

    ghost Value = { List (List (List ℕ)) };

    ghost view = { λ r. r.rows.items };
}

// The fields of a record, each a text of its own.
fn fields_of(alloc: Global, row: &ByteRecord) -> M<Vec<Text>>
    ensures { IfOk result (λ v. v.items ≡ fields_of row.now) }
{
    let mut fields = Vec::new(alloc);
    'fields: for field in row {
        fields.push(Text::new(alloc, field)?)?;
    }
    Ok(fields)
}

impl Rows {
    /// No rows.
    pub(crate) fn none(alloc: Global) -> Rows
        ensures { result ≡ [] }
    {
        Rows {
            rows: Vec::new(alloc),
        }
    }

    /// The rows of a text of comma-separated values, of any lengths.
    pub(crate) fn read(alloc: Global, text: &[u8]) -> M<Rows>
        ensures { IfOk result (λ r. r ≡ rows_of text.now) }
    {
        let records = table_rows(alloc, text)?;
        let mut rows = Vec::new(alloc);
        'records: for row in &records {
            rows.push(Items::of(fields_of(alloc, row)?))?;
        }
        Ok(Rows { rows })
    }

    /// How many there are.
    pub(crate) fn count(&self) -> usize
        ensures { result ≡ length self.now }
    {
        self.rows.len()
    }

    /// The row at this place, from 0.
    pub(crate) fn get(&self, place: u64) -> Option<&Items<Text>>
        ensures row { option_map (λ r. r.now) result ≡ slice_get self.now place }
        ensures within { IfSome result (λ r. place < length self.now) }
    {
        self.rows.get(place as usize)
    }
}
