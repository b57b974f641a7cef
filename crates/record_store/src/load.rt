// How a record is loaded. Called by `schedule` for the command `load` and by applications.
ghost use Rattle.std.specs.Prelude.{◌≡◌, Option, IfOk, IfErr};
ghost use Rattle.std.specs.Option.{option_map};
ghost use Rattle.metadata.specs.Record.{Record as RecordValue};
ghost use Rattle.record_store.specs.Call.{IsAnswered, IsRefused};
ghost use Rattle.record_store.specs.Calls.{load_call};

use crate::error::StoreError;
use crate::layout::key_asked;
use crate::reading::read_value;
use crate::store::Store;
use metadata::{Cells, Record};
use tuple_codec::Text;
use txn::{Snapshot, Transaction};

impl Store {
    /// The record of the type of this name with these key cells, if it is there.
    ///
    /// Refused, in this order, before anything is read: `UnknownType`, `WrongKind` (a cell of
    /// another kind than its key field, or another number of cells), `NullKey`; then with the
    /// snapshot's refusal of the read, and with `Corrupt` and the record's key where its value
    /// isn't that of such a record.
    pub fn load<S: Snapshot>(
        &self,
        tx: &mut Transaction,
        db: &S,
        type_name: &Text,
        key: &Cells,
    ) -> Result<Option<Record>, StoreError>
        ensures found { IfOk result (λ found.
            IsAnswered (S.map_at db.now) self.now (load_call self.now type_name.now key.now) found tx.old tx.new) }
        ensures refused { IfErr result (λ error.
            IsRefused (S.map_at db.now) (S.may_refuse db.now) self.now
            (load_call self.now type_name.now key.now) error tx.old tx.new) }
    {
        let definition = self.definition(type_name)?;
        let at = key_asked(self.alloc(), self.prefix(), definition, key)?;
        let value = read_value(tx, db, &at)?;
        let found = self.record_of(definition, &at, value)?;
        Ok(found)
    }

    /// The cells of the record that `load` answers, if one is there, without its definition.
    /// Refused as `load` is.
    pub fn load_cells<S: Snapshot>(
        &self,
        tx: &mut Transaction,
        db: &S,
        type_name: &Text,
        key: &Cells,
    ) -> Result<Option<Cells>, StoreError>
        ensures found { IfOk result (λ cells.
            (found : Option RecordValue) × (cells ≡ option_map (λ r. r.cells) found)
            × IsAnswered (S.map_at db.now) self.now
            (load_call self.now type_name.now key.now) found tx.old tx.new) }
        ensures refused { IfErr result (λ error.
            IsRefused (S.map_at db.now) (S.may_refuse db.now) self.now
            (load_call self.now type_name.now key.now) error tx.old tx.new) }
    {
        let definition = self.definition(type_name)?;
        let record_key = key_asked(self.alloc(), self.prefix(), definition, key)?;
        let stored = read_value(tx, db, &record_key)?;
        let cells = self.cells_of(definition, &record_key, stored)?;
        Ok(cells)
    }
}
