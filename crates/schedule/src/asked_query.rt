// Shared queries, as commands have them. Used by `step`, `planning` and `executing`, by `runtime`,
// and by `script` and `race`, which make them.
ghost use Rattle.std.specs.Prelude.{◌≡◌, IfOk};
ghost use Rattle.query.specs.View.{query_of};

use query::Query;
use std::alloc::{AllocError, Global};
use std::marker::Model;
use std::rc::Rc;

/// The query of a command: what it asks for.
pub struct AskedQuery {
    query: Rc<Query>,
}

// Written out, so that no proof of a caller has to take its parts apart where one is dropped.
impl Drop for AskedQuery {
    fn drop(self) {
        let AskedQuery { query } = self;
        drop(query);
    }
}

impl Model for AskedQuery {
    ghost use Rattle.query.specs.Query.{Query};
    ghost use Rattle.query.specs.View.{query_of};
    ghost use Rattle.schedule.specs.QueryCode.{query_code};

    ghost Value = { Query };

    ghost coded = { query_code };

    ghost view = { λ a. query_of a.query.value };
}

impl AskedQuery {
    /// This query.
    pub fn new(alloc: Global, query: Query) -> Result<AskedQuery, AllocError>
        ensures { IfOk result (λ asked. asked ≡ query_of query) }
    {
        let query = Rc::new(alloc, query)?;
        Ok(AskedQuery { query })
    }

    /// The query.
    pub fn query(&self) -> &Query
        ensures { query_of result.now ≡ self.now }
    {
        &self.query
    }

    /// An equal query.
    pub fn copy(&self) -> Result<AskedQuery, AllocError>
        ensures { IfOk result (λ copy. copy ≡ self.now) }
    {
        let query = self.query.clone()?;
        Ok(AskedQuery { query })
    }
}
