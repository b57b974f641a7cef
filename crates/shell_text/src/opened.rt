// What is committed in a store. Called by `ranges`, and by `shell`.
use cluster_core::Cluster;
use metadata::{Field, Schema};
use record_store::{Store, StoreError, StoreNumber};
use std::alloc::{AllocError, Global};
use tuple_codec::Text;
use txn::Transaction;

/// A store as it is committed, the transaction that reads it, and what each of its keys begins
/// with.
#[derive(Drop)]
pub struct Opened {
    pub store: Store,
    pub tx: Transaction,
    pub prefix: Vec<u8>,
}

impl Opened {
    /// The schema.
    pub fn schema(&self) -> &Schema {
        self.store.schema()
    }
}

/// Opens the store of a number at the last reported version.
pub fn open(alloc: Global, cluster: &Cluster, number: StoreNumber) -> Result<Opened, StoreError> {
    let prefix = number.prefix(alloc)?;
    let mut tx = Transaction::begin(alloc, cluster.read_version());
    let store = Store::open(alloc, prefix.as_slice(), &mut tx, cluster)?;
    Ok(Opened { store, tx, prefix })
}

/// The fields of a type of this name in the store of a number, none where it isn't committed.
pub fn fields_of(
    alloc: Global,
    cluster: &Cluster,
    number: StoreNumber,
    type_name: &str,
) -> Result<Option<Vec<Field>>, AllocError> {
    let opened = match open(alloc, cluster, number) {
        Ok(opened) => opened,
        Err(StoreError::Memory) => return Err(AllocError),
        Err(_) => return Ok(None),
    };
    let name = Text::from_str(alloc, type_name)?;
    let Some(definition) = opened.schema().type_named(&name) else {
        return Ok(None);
    };
    let mut fields = Vec::new(alloc);
    for field in definition.fields.as_slice() {
        fields.push(field.copy()?)?;
    }
    Ok(Some(fields))
}
