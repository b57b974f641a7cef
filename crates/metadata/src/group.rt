// Which cells may be a group of an index. Called by `record_store` where a total is read.
ghost use Rattle.std.specs.Prelude.{◌≡◌};
ghost use Rattle.metadata.specs.Group.{fits_field, fits_group, fits_places};

use crate::cells::{Cell, Cells, Kind};
use crate::definition::Fields;
use crate::index::IndexDefinition;
use crate::lawful::type_at;
use crate::schema::Schema;

// Whether the cell may stand in a field of this kind, if there is such a field.
fn fits_field(kind: Option<Kind>, cell: &Cell) -> bool
    ensures { result ≡ fits_field kind cell.now }
{
    match kind {
        Some(kind) => cell.fits(kind),
        None => false,
    }
}

// Whether there are as many cells as places of fields, each null or of the kind of the field there.
fn fits_places(fields: &Fields, places: &[usize], cells: &[Cell]) -> bool
    ensures { result ≡ fits_places fields.now places.now cells.now }
{
    match places {
        [] => cells.is_empty(),
        [place, other_places @ ..] => match cells {
            [] => false,
            [cell, other_cells @ ..] => {
                fits_field(fields.kind_at(*place), cell)
                    && fits_places(fields, other_places, other_cells)
            }
        },
    }
}

impl Schema {
    /// Whether the cells may be a group of this index of the schema: one for each of its columns,
    /// null or of the column's kind.
    pub fn fits_group(&self, index: &IndexDefinition, group: &Cells) -> bool
        ensures { result ≡ fits_group self.now index.now group.now }
    {
        match type_at(self.types(), index.type_number) {
            Some(definition) => fits_places(
                &definition.fields,
                index.columns.as_slice(),
                group.as_slice(),
            ),
            None => false,
        }
    }
}
