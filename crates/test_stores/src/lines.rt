// The lines of replies that no short script gets. Run as a test.
use metadata::State;
use schedule::{Refusal, Reply, Report, Reports};
use script::make_line;
use std::alloc::Global;
use std::test::Fail;
use test_parts::{range_of, same};

// What is told of a client's transaction; of a conflict the version seen and the range.
#[derive(Clone, Copy)]
enum Told {
    Committed(u64, u64),
    Conflict(u64, u64, &'static str),
    Unknown(u64),
}

// A reply, in plain data; of reports the places in `TOLD` from which and up to which they stand.
#[derive(Clone, Copy)]
enum Plain {
    Reported(usize, usize),
    Refused(Refusal),
    Indexed(State),
    State(State),
    Stopped,
}

static TOLD: [Told; 4] = [
    Told::Committed(15, u64::MAX),
    Told::Conflict(0, 7, "00ab-7f"),
    Told::Unknown(3),
    Told::Conflict(1, 2, "-"),
];

// The number of a step, what it replied, and the line that is printed.
static LINES: [(usize, Plain, &str); 16] = [
    (
        12,
        Plain::Reported(0, 3),
        "12 client 15 committed 18446744073709551615, client 0 conflict 7 00ab..7f, client 3 unknown\n",
    ),
    (1, Plain::Reported(3, 4), "1 client 1 conflict 2 ..\n"),
    (
        1,
        Plain::Refused(Refusal::NoSuchRole),
        "1 refused NoSuchRole\n",
    ),
    (
        1,
        Plain::Refused(Refusal::OtherSchema),
        "1 refused OtherSchema\n",
    ),
    (
        1,
        Plain::Refused(Refusal::FutureVersion),
        "1 refused FutureVersion\n",
    ),
    (1, Plain::Refused(Refusal::TooOld), "1 refused TooOld\n"),
    (
        1,
        Plain::Refused(Refusal::VersionsExhausted),
        "1 refused VersionsExhausted\n",
    ),
    (
        1,
        Plain::Refused(Refusal::KeyOutside),
        "1 refused KeyOutside\n",
    ),
    (
        1,
        Plain::Refused(Refusal::KeyTooLarge),
        "1 refused KeyTooLarge\n",
    ),
    (
        1,
        Plain::Refused(Refusal::ValueTooLarge),
        "1 refused ValueTooLarge\n",
    ),
    (
        1,
        Plain::Refused(Refusal::TransactionTooLarge),
        "1 refused TransactionTooLarge\n",
    ),
    (7, Plain::Indexed(State::Disabled), "7 disabled\n"),
    (7, Plain::Stopped, "7 out of memory\n"),
    (7, Plain::State(State::Readable), "7 readable\n"),
    (7, Plain::State(State::WriteOnly), "7 write-only\n"),
    (7, Plain::State(State::Disabled), "7 disabled\n"),
];

fn report_of(alloc: Global, told: Told) -> Result<Report, Fail> {
    match told {
        Told::Committed(client, version) => Ok(Report::Committed { client, version }),
        Told::Conflict(client, seen, range) => {
            let range = range_of(alloc, range)?;
            Ok(Report::Conflict {
                client,
                seen,
                range,
            })
        }
        Told::Unknown(client) => Ok(Report::Unknown { client }),
    }
}

fn reports_of(alloc: Global, from: usize, to: usize) -> Result<Reports, Fail> {
    let mut reports = Vec::new(alloc);
    for one in TOLD.get(from..to).ok_or("no reports")? {
        reports.push(report_of(alloc, *one)?)?;
    }
    Ok(Reports::new(reports))
}

fn reply_of(alloc: Global, plain: Plain) -> Result<Reply, Fail> {
    match plain {
        Plain::Reported(from, to) => Ok(Reply::Reported(reports_of(alloc, from, to)?)),
        Plain::Refused(refusal) => Ok(Reply::Refused(refusal)),
        Plain::Indexed(state) => Ok(Reply::Indexed(state)),
        Plain::State(state) => Ok(Reply::State(state)),
        Plain::Stopped => Ok(Reply::Stopped),
    }
}

#[test]
fn lines_are_printed(rt: HostRuntime) -> Result<(), Fail> {
    let mut line = String::new(rt.alloc());
    for (number, plain, wanted) in &LINES {
        let reply = reply_of(rt.alloc(), *plain)?;
        make_line(rt.alloc(), &mut line, *number, &reply)?;
        same(line.as_str(), wanted)?;
    }
    Ok(())
}
