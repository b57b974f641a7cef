// What refusals mean, and what to do then. Called by `telling`.
use schedule::Refusal;

// What the refusals of a definition mean.
fn definition_words(refusal: Refusal) -> &'static str {
    match refusal {
        Refusal::BadName => "a name is of 1 to 32 letters, digits and _",
        Refusal::NameTaken =>
            "the name is taken: .schema and .indexes show those that are committed",
        Refusal::BadSchema =>
            "a type has a key, no key or index has a field twice, and an index has fields",
        Refusal::TooMany => "there are more of these than there may be",
        Refusal::AlreadyThere => "the store is there: type and index add to it",
        Refusal::NoStore => "the transaction's store isn't made yet: create makes it",
        _ => "",
    }
}

// What the refusals of records, totals and queries mean.
fn asking_words(refusal: Refusal) -> &'static str {
    match refusal {
        Refusal::UnknownType =>
            "there is no type of this name: .schema shows those that are committed",
        Refusal::UnknownIndex =>
            "there is no index of this name: .indexes shows those that are committed",
        Refusal::UnknownField => "the type has no field of this name: .schema shows its fields",
        Refusal::WrongKind =>
            "there is a cell for each field, of its kind or null: .schema shows them",
        Refusal::NullKey => "a key field is null",
        Refusal::TooDeep | Refusal::TooLarge =>
            "the filter or the order is too large: ask in parts",
        Refusal::SortTwice => "a field stands in the order twice",
        Refusal::SortNotServed =>
            "no readable index serves this order: .plan tells which one would",
        Refusal::NotAggregate => "the index has no totals: count and sum make such ones",
        Refusal::NotReadable => "the index isn't readable: build and readable make it so",
        _ => definition_words(refusal),
    }
}

// What the refusals of plans and builders mean.
fn building_words(refusal: Refusal) -> &'static str {
    match refusal {
        Refusal::NoPlan => "the client keeps no plan: plan makes one",
        Refusal::OtherSchema => "the plan's type isn't the store's: plan again",
        Refusal::IndexNotReadable => "an index of the plan isn't readable now: plan again",
        Refusal::WrongState =>
            "the index isn't written only: write_only makes it so, .indexes shows states",
        Refusal::NotBuilt => "not every record is in the index yet: build goes on with it",
        Refusal::BadLimit => "a builder builds a record at least",
        _ => asking_words(refusal),
    }
}

/// What a refusal means, and what to do then.
pub(crate) fn refusal_words(refusal: Refusal) -> &'static str {
    match refusal {
        Refusal::NoSuchClient => "clients are 0 to 15",
        Refusal::NoSuchStore => "stores are 1 to 65535",
        Refusal::NoSuchRole =>
            "this database has one resolver, one log and one server, each of the number 0",
        Refusal::Busy => "the client has a transaction: commit or abandon ends it",
        Refusal::NoTransaction => "the client has no transaction: begin begins one",
        Refusal::FutureVersion => "a server is behind: settle has it follow",
        Refusal::TooOld =>
            "the transaction began too many versions ago: abandon it and begin again",
        Refusal::VersionsExhausted => "the last version was given",
        Refusal::KeyOutside | Refusal::KeyTooLarge =>
            "the key fields, or the fields of an index, are too long",
        Refusal::ValueTooLarge => "the fields of the record are too long together",
        Refusal::TransactionTooLarge =>
            "the transaction is full: commit it, and save the rest in another one",
        _ => building_words(refusal),
    }
}
