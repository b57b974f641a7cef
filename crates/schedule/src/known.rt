// What is known while commands are performed. Kept by who performs them one after another:
// `running`, `stepwise`, `clients` and, on threads, `runtime`; asked when a command opens its store,
// by `commands`.
ghost use Rattle.std.specs.Prelude.{◌≡◌, None};

use record_store::{KnownSchema, Store};

/// What the commands of a transaction know of its store: the schema that was decoded last, and the
/// store as a command left it open, where that is known.
///
/// It changes no reply. Each command of a transaction is given the same one (`perform_open`). The
/// schema may stay for another transaction, in any store; the store may not.
#[derive(Drop)]
pub struct Known {
    pub schema: KnownSchema,
    pub store: Option<Store>,
}

impl Known {
    /// Nothing is known, which takes no memory.
    pub fn new() -> Known
        ensures { result.store ≡ None }
    {
        Known::of(KnownSchema::new())
    }

    /// A schema may be known, and no store.
    pub(crate) fn of(schema: KnownSchema) -> Known
        ensures { result.store ≡ None }
    {
        Known {
            schema,
            store: None,
        }
    }

    /// Lets the store go, as where its transaction ends. The schema stays.
    pub fn let_go(&mut self)
        ensures { self.new ≡ record self.old { store = None } }
    {
        self.store = None;
    }
}
