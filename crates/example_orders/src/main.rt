//! Keeps orders, of which each customer may have one: two transactions meet, the one that is
//! refused for what it read is tried again, and a query tells what there is in the end.
#![tactic(auto)]

ghost use Rattle.std.specs.Prelude.{IfOk};
ghost use Rattle.record_layer.specs.Databases.{IsCommittedAt};

use record_layer::CellRef::{Int, Text};
use record_layer::IndexOf::{Count, Value};
use record_layer::{
    Config, Database, Error, Kind, Operator, QueryMaker, Retry, SchemaMaker, Session, compare,
    int_named,
};
use std::alloc::Global;

/// How often an order is tried.
const ATTEMPTS: Retry = Retry { limit: 3 };

/// Makes the store: orders by their customers, and how many each customer has.
fn make(alloc: Global, db: &mut Database) -> Result<u64, Error> {
    let fields = [
        ("id", Kind::Int),
        ("customer", Kind::Text),
        ("cents", Kind::Int),
    ];
    let schema = SchemaMaker::new(alloc)
        .with_type("order", &fields, &["id"])?
        .with_index(Value, "by_customer", "order", &["customer"])?
        .with_index(Count, "orders", "order", &["customer"])?
        .into_schema()?;
    Ok(db.create(alloc, &schema)?)
}

/// Saves an order of Emma's, unless she has one, and says whether it did.
fn order(session: &mut Session<'_>, id: i64) -> Result<bool, Error> {
    if session.total("orders", &[Text("Emma")])? > 0 {
        return Ok(false);
    }
    session.save("order", &[Int(id), Text("Emma"), Int(600)])?;
    Ok(true)
}

/// Two transactions order beside each other. The second one is refused for what it read, and is
/// tried again. Answers of each whether it saved an order, and its version.
fn meet(alloc: Global, db: &mut Database) -> Result<((bool, u64), (bool, u64)), Error>
    ensures { IfOk result (λ told. IsCommittedAt told.1.1 db.new) }
{
    let mut one = |session: &mut Session<'_>| order(session, 1);
    let mut other = |session: &mut Session<'_>| order(session, 2);
    let first = db.attempt(alloc, &mut one)?;
    let second = db.attempt(alloc, &mut other)?;
    let first = db.complete(alloc, ATTEMPTS, first, &mut one)?;
    let second = db.complete(alloc, ATTEMPTS, second, &mut other)?;
    Ok((first, second))
}

/// The cents of Emma's orders, added up, which a query finds along the index.
fn spent(alloc: Global, db: &Database) -> Result<i64, Error> {
    let emma = compare(alloc, "customer", Operator::Equal, Text("Emma"))?;
    let orders = QueryMaker::of(alloc, "order")?.with_filter(emma);
    let found = db.session(alloc)?.query(orders)?;
    let cents = found
        .as_slice()
        .iter()
        .filter_map(|it| int_named(it, "cents"));
    Ok(cents.fold(0, i64::saturating_add))
}

fn main(rt: HostRuntime) -> Result<(), Error> {
    let alloc = rt.alloc();
    let mut db = Database::new(alloc, &Config::single(alloc))?;
    make(alloc, &mut db)?;
    let (one, other) = meet(alloc, &mut db)?;
    let spent = spent(alloc, &db)?;
    println!(rt; "one: {one:?}, the other: {other:?}; Emma has spent {spent}")?;
    Ok(())
}
