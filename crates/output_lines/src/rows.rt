// Rows of comma-separated fields.

ghost use Rattle.std.specs.Prelude.{◌≡◌, ◌++◌, [], map, Some, None, is_some, option_map, true, OnOk, OnErr, IfOk};
ghost use Rattle.output_lines.specs.Lines.{csv_line};

use csv::{Writer, WriterBuilder};
use jm_base::{M, NoMemory};
use std::alloc::Global;
use std::marker::Model;

/// Rows that are formed one after another in one text. Contracts see the text, and none once memory ran out.
#[derive(Drop)]
pub(crate) struct Rows {
    writer: Writer<Vec<u8>>,
    spent: bool,
}

impl Model for Rows {
    ghost use Rattle.std.specs.Prelude.{◌≡◌, ℕ, List, [], Option, Some, None, false, if◌then◌else◌};
    ghost use Rattle.csv.specs.Writing.{text_written, fields_written, has_written, writer_setup, writer_pending, default_writer};

    ghost Value = { Option (List ℕ) };

    ghost view = { λ r. if r.spent then None else text_written (λ v. Some v.items) r.writer };

    ghost invariant = { λ r. r.spent ≡ false → (fields_written r.writer ≡ 0) × (has_written r.writer ≡ false) × (writer_setup r.writer ≡ default_writer)
        × (writer_pending r.writer ≡ []) };
}

impl Rows {
    pub(crate) fn new(alloc: Global) -> Rows
        ensures { result ≡ Some [] }
    {
        Rows {
            writer: WriterBuilder::new().from_writer(Vec::new(alloc)),
            spent: false,
        }
    }

    // Adds a row. A writer over a `Vec` has one reason to refuse a row: out of memory. Its contract leaves the kind of the
    // error open, so no kind is told apart here.
    pub(crate) fn push(&mut self, fields: &[&[u8]]) -> M<()>
        requires { is_some self.old ≡ true }
        ensures ok { OnOk result (self.new ≡ option_map (λ text. text ++ csv_line (map (λ f. f.now) fields.now)) self.old) }
        ensures err { OnErr result (self.new ≡ None) }
    {
        if self.writer.write_fields(fields).is_err() || self.writer.flush().is_err() {
            self.spent = true;
            return Err(NoMemory);
        }
        Ok(())
    }

    // The text of all rows so far.
    pub(crate) fn text(&self) -> &[u8]
        requires { is_some self.now ≡ true }
        ensures { self.now ≡ Some result.now }
    {
        self.writer.get_ref()
    }
}

/// Appends one row. Out of memory appends nothing.
pub fn push_row(alloc: Global, out: &mut Vec<u8>, fields: &[&[u8]]) -> M<()>
    ensures ok { OnOk result (out.new.items ≡ out.old.items ++ csv_line (map (λ f. f.now) fields.now)) }
    ensures err { OnErr result (out.new.items ≡ out.old.items) }
{
    let mut rows = Rows::new(alloc);
    rows.push(fields)?;
    out.extend_from_slice(rows.text())?;
    Ok(())
}
