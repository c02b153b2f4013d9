ghost use Rattle.std.specs.Prelude.{◌≡◌, length};
ghost use Rattle.std.specs.Option.{option_copied};
ghost use Rattle.sb_step.specs.Records.Spans as spec;
ghost use Rattle.sb_step.specs.Records.Table.{form_of, PlaceLies};

pub(crate) mod records;
pub(crate) mod schema;
pub(crate) mod table;
pub(crate) mod text;

use crate::step_file::records::Form;
use crate::step_file::schema::{Schema, one_string};
use crate::step_file::table::{Place, Row, find, form, last_number};
use crate::step_file::text::Text;
use std::marker::Model;

/// An exchange text whose instances are found by their numbers. It borrows the text.
#[derive(Drop)]
pub struct StepFile<'a> {
    pub(crate) text: Text<'a>,
    pub(crate) schema: Schema,
    pub(crate) numbers: Vec<u32>,
    pub(crate) places: Vec<Place>,
    pub(crate) rows: Vec<Row>,
    pub(crate) data_end: usize,
}

impl<'a> Model for StepFile<'a> {
    ghost use Rattle.sb_step.specs.Indexed.{Indexed};
    ghost use Rattle.sb_step.specs.IndexAnswers.{IsHeld};

    ghost Value = { Indexed };

    ghost view = { λ s. record { input = s.text.bytes.now; file = s.text.described.0 } };

    ghost invariant = { λ s. IsHeld s.schema s.numbers.items s.places.items s.rows.items s.data_end
        (record { input = s.text.bytes.now; file = s.text.described.0 }) };
}

impl<'a> StepFile<'a> {
    ghost use Rattle.std.specs.Prelude.{◌↔◌, ℕ, List, Some, None};
    ghost use Rattle.sb_step.specs.Numbers.{numbers_of, IsGreatest};
    ghost use Rattle.sb_step.specs.Records.Schema.{IsSchema, HasNoSchema};
    ghost use Rattle.sb_step.specs.Records.Table.{place_at};

    /// The numbers of the instances in file order.
    pub fn numbers(&self) -> &[u32]
        ensures { result.now ≡ numbers_of self.now.file.instances }
    {
        self.numbers.as_slice()
    }

    /// The greatest number of an instance, and 0 where there is no instance.
    pub fn greatest(&self) -> u32
        ensures { IsGreatest result self.now.file.instances }
    {
        last_number(&self.rows)
    }

    /// The keyword of the instance of this number, found in logarithmic time: `None` exactly where
    /// there is no such instance, or its record is complex.
    pub fn keyword(&self, number: u32) -> Option<&[u8]>
        ensures { option_copied result ≡ spec.keyword_of self.now number }
    {
        let place = self.find(number)?;
        keyword_at(self.text.bytes, place)
    }

    /// Where the keyword of the instance of this number stands.
    pub(crate) fn find(&self, number: u32) -> Option<Place>
        ensures { result ≡ place_at self.now.file.instances number }
    {
        let at = find(&self.rows, number)?;
        Some(self.places[at as usize])
    }

    /// The schema that the header names, as it stands between its apostrophes: the one string of
    /// the one FILE_SCHEMA.
    ///
    /// - `Some(text)`: exactly where one entity of the header, and no second, is a FILE_SCHEMA, its
    ///   list has one parameter, and this is a list of one string, the text in apostrophes.
    /// - `None`: exactly where there is no such text.
    pub fn schema(&self) -> Option<&[u8]>
        ensures text { (text : List ℕ) → (option_copied result ≡ Some text)
            ↔ IsSchema self.now text }
        ensures none { (option_copied result ≡ None) ↔ HasNoSchema self.now }
    {
        self.read_schema()
    }

    fn read_schema(&self) -> Option<&[u8]>
        ensures { (text : List ℕ) → (option_copied result ≡ Some text)
            ↔ IsSchema self.now text }
    {
        match self.schema {
            Schema::One(end) => one_string(self.text.bytes, end),
            _ => None,
        }
    }

    /// The first byte of the ENDSEC behind the instances.
    pub fn data_end(&self) -> usize
        ensures { result ≡ self.now.file.data_end }
    {
        self.data_end
    }
}

pub(crate) fn keyword_at(bytes: &[u8], place: Place) -> Option<&[u8]>
    requires { PlaceLies (length bytes.now) place }
    ensures { option_copied result ≡ spec.keyword_by bytes.now place.start (form_of place) }
{
    match form(place) {
        Form::Simple(end) => Some(&bytes[place.start..end]),
        Form::Complex => None,
    }
}
