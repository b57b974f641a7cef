// What records and entries are decoded by, once for all of a type and of an index. Used by
// `record_streams`, `fetch_streams` and `opening`.
ghost use Rattle.std.specs.Prelude.{◌≡◌, ◌++◌, List, ℕ, IfOk, IsTrue};
ghost use Rattle.kv_core.specs.Bytes.{end_of_keys, key_lt};
ghost use Rattle.record_store.specs.Layout.{place};
ghost use Rattle.metadata.specs.Layout.{entries_prefix, place_of_records};
ghost use Rattle.metadata.specs.Schema.{field_kinds};
ghost use Rattle.plan_exec.specs.Decoding.{IsFormOf};

use crate::decoding::shared;
use crate::entries::entry_form;
use crate::entry::EntryForm;
use crate::keys::records_place;
use metadata::{IndexDefinition, Kind, TypeDefinition};
use record_store::Store;
use std::alloc::AllocError;
use std::rc::Rc;

/// The records of a type: what their keys begin with, the definition that they share, and the kinds
/// of its fields.
#[derive(Drop)]
pub(crate) struct RecordsOf<'a> {
    pub(crate) store: &'a Store,
    pub(crate) front: Vec<u8>,
    pub(crate) definition: Rc<TypeDefinition>,
    pub(crate) kinds: Vec<Kind>,
    ghost fronted: { front.items ≡ place store.now.prefix place_of_records },
    ghost typed: { kinds.items ≡ field_kinds definition.value },
}

impl<'a> RecordsOf<'a> {
    /// Those of a type of the store.
    pub(crate) fn new(
        store: &'a Store,
        definition: &TypeDefinition,
    ) -> Result<RecordsOf<'a>, AllocError>
        ensures store { IfOk result (λ records. records.store.now ≡ store.now) }
        ensures typed { IfOk result (λ records. records.definition.value ≡ definition.now) }
    {
        let front = records_place(store)?;
        let kinds = definition.field_kinds(store.alloc())?;
        let definition = shared(store.alloc(), definition)?;
        Ok(RecordsOf {
            store,
            front,
            definition,
            kinds,
        })
    }
}

/// The entries of an index over a type, and their form.
#[derive(Drop)]
pub(crate) struct EntriesOf<'a> {
    pub(crate) store: &'a Store,
    pub(crate) definition: &'a TypeDefinition,
    pub(crate) index: &'a IndexDefinition,
    pub(crate) form: EntryForm,
    ghost formed: { IsFormOf store.now.prefix definition.now index.now form },
}

impl<'a> EntriesOf<'a> {
    /// Those of an index over the type.
    pub(crate) fn new(
        records: &'a RecordsOf<'a>,
        index: &'a IndexDefinition,
    ) -> Result<EntriesOf<'a>, AllocError>
        ensures store { IfOk result (λ entries. entries.store.now ≡ records.now.store.now) }
        ensures typed { IfOk result (λ entries.
            entries.definition.now ≡ records.now.definition.value) }
        ensures index { IfOk result (λ entries. entries.index.now ≡ index.now) }
        ensures front { IfOk result (λ entries. entries.form.front.items
            ≡ entries_prefix records.now.store.now.prefix index.now.number) }
        ensures below { IfOk result (λ entries. (rest : List ℕ) →
            IsTrue (key_lt (entries.form.front.items ++ rest) end_of_keys)) }
    {
        let form = entry_form(records.store, &records.definition, index)?;
        Ok(EntriesOf {
            store: records.store,
            definition: &records.definition,
            index,
            form,
        })
    }
}
