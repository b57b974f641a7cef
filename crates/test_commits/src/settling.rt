// A commit of a database of one thread, which is settled where memory runs out for it. Called by
// `main`.
use record_layer::CellRef::Int;
use record_layer::{
    Config, Database, Error, Kind, NotCommitted, SchemaMaker, Session, Transaction,
};
use std::alloc::Global;
use std::test::Fail;

/// How often what became of a commit is asked for.
const TRIES: u8 = 3;

/// An error for what must not be answered.
fn fail(why: NotCommitted) -> Fail {
    why.forget();
    Fail::from("another commit is answered")
}

/// Makes the store, without a record.
fn make(alloc: Global, db: &mut Database) -> Result<(), Error> {
    let schema = SchemaMaker::new(alloc)
        .with_type("t", &[("k", Kind::Int), ("a", Kind::Int)], &["k"])?
        .into_schema()?;
    db.create(alloc, &schema)?;
    Ok(())
}

/// A transaction that saves the record of this key.
fn saving(alloc: Global, db: &Database, key: i64) -> Result<Transaction, Error> {
    let mut session = db.session(alloc)?;
    session.save("t", &[Int(key), Int(0)])?;
    Ok(session.into_transaction())
}

/// Whether the record of this key is there.
fn has(session: &mut Session<'_>, key: i64) -> Result<bool, Error> {
    Ok(session.load("t", &[Int(key)])?.is_some())
}

/// Which of the first two records are there.
fn there(alloc: Global, db: &Database) -> Result<(bool, bool), Error> {
    let mut session = db.session(alloc)?;
    let first = has(&mut session, 1)?;
    Ok((first, has(&mut session, 2)?))
}

/// Just these records must be there.
fn shows(alloc: Global, db: &Database, wanted: (bool, bool)) -> Result<(), Fail> {
    if there(alloc, db)? == wanted {
        Ok(())
    } else {
        Err(Fail::from("other records are there"))
    }
}

/// Commits what saves the first record: whether it is known what became of that.
fn is_told(alloc: Global, db: &mut Database) -> Result<bool, Fail> {
    let tx = saving(alloc, db, 1)?;
    match db.commit(tx) {
        Ok(_) => Ok(true),
        Err(NotCommitted::Unknown) => Ok(false),
        Err(why) => Err(fail(why)),
    }
}

/// While a commit is unsettled, another one isn't taken.
fn refuses_others(alloc: Global, db: &mut Database) -> Result<(), Fail> {
    let tx = saving(alloc, db, 2)?;
    match db.commit(tx) {
        Err(NotCommitted::Unsettled) => Ok(()),
        Err(why) => Err(fail(why)),
        Ok(_) => Err(Fail::from("a commit is taken before the earlier one is settled")),
    }
}

/// Asks until it is told what became of the commit of which it wasn't known.
fn settle(db: &mut Database) -> Result<u64, Fail> {
    for _ in 0..TRIES {
        match db.settle() {
            Ok(Some(version)) => return Ok(version),
            Ok(None) => return Err(Fail::from("nothing is left to be settled")),
            Err(NotCommitted::Unknown) => {}
            Err(why) => return Err(fail(why)),
        }
    }
    Err(Fail::from("it is never settled"))
}

/// Settles the commit of which it isn't known whether it is there: it isn't until then, and it is
/// at the next version afterwards.
fn settled(alloc: Global, db: &mut Database) -> Result<(), Fail> {
    shows(alloc, db, (false, false))?;
    refuses_others(alloc, db)?;
    let version = settle(db)?;
    if version != 2 {
        return Err(Fail::from("it is settled at another version"));
    }
    shows(alloc, db, (true, false))
}

/// Commits what saves the second record, which must be taken.
fn committed(alloc: Global, db: &mut Database) -> Result<(), Fail> {
    let tx = saving(alloc, db, 2)?;
    match db.commit(tx) {
        Ok(_) => Ok(()),
        Err(why) => Err(fail(why)),
    }
}

/// A commit, which is settled where its outcome isn't known, and the next one: whether the first
/// one was told at once.
pub(crate) fn one_thread(alloc: Global) -> Result<bool, Fail> {
    let mut db = Database::new(alloc, &Config::single(alloc))?;
    make(alloc, &mut db)?;
    let is_told = is_told(alloc, &mut db)?;
    if !is_told {
        settled(alloc, &mut db)?;
    }
    shows(alloc, &db, (true, false))?;
    committed(alloc, &mut db)?;
    shows(alloc, &db, (true, true))?;
    Ok(is_told)
}
