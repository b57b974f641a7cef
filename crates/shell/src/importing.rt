// The records of a file. Called by `reading`.
ghost use Rattle.std.specs.Prelude.{IfOk};
ghost use Rattle.shell.specs.Further.{IsFurther};

use crate::database::Database;
use crate::error::ShellError;
use crate::import::{Import, Importer};
use crate::lines::next_line;
use crate::stores::Stores;
use crate::telling::{Telling, Watch, tell};
use csv::{Error, ErrorKind, Reader, StringRecord};
use metadata::{Cells, Field};
use schedule::{Reply, Step};
use shell_text::{Progress, RowError, cells_of_line, cells_of_row, fields_of, places_of};
use std::alloc::{AllocError, Global};
use std::fs::File;
use std::io::{BufReader, Read, Write};
use std::rt::Files;

// What is read of a file at a line of it.
#[derive(Drop)]
enum Row {
    // The cells of a record.
    Record(Cells),
    // What is wrong there.
    Bad(String),
    // Nothing: the file has ended.
    End,
}

/// Which file's records are to be saved, of which type and by which client.
#[derive(Debug, Drop)]
pub(crate) struct Order {
    pub client: u64,
    pub path: String,
    pub type_name: String,
}

// What the records of a file are of, and who saves them.
#[derive(Clone, Copy, Drop)]
struct Target<'a> {
    type_name: &'a str,
    fields: &'a [Field],
    importer: Importer,
}

// Records that are saved, and the line of the file that was read last.
#[derive(Drop)]
struct Course {
    import: Import,
    line: u64,
}

// What cells are, or what is wrong where there are none.
fn row_in(cells: Result<Cells, RowError>) -> Result<Row, ShellError> {
    match cells {
        Ok(cells) => Ok(Row::Record(cells)),
        Err(RowError::Bad(reason)) => Ok(Row::Bad(reason)),
        Err(RowError::OutOfMemory) => Err(ShellError::OutOfMemory),
    }
}

// What is wrong, as a text that is no value's.
fn bad(alloc: Global, reason: &str) -> Result<Row, ShellError> {
    Ok(Row::Bad(String::from_str(alloc, reason)?))
}

// What is read where a file can't be.
fn unread(alloc: Global, error: ShellError) -> Result<Row, ShellError> {
    match error {
        ShellError::CannotRead => bad(alloc, "the file can't be read further"),
        other => Err(other),
    }
}

// The next line of JSON, whose number is counted on. Blank ones are passed over.
fn next_json<R: Read>(
    alloc: Global,
    fields: &[Field],
    input: &mut BufReader<R>,
    bytes: &mut Vec<u8>,
    line: &mut u64,
) -> Result<Row, ShellError> {
    for _ in 0..u64::MAX {
        match next_line(input, bytes) {
            Ok(true) => {}
            Ok(false) => return Ok(Row::End),
            Err(error) => return unread(alloc, error),
        }
        *line = line.saturating_add(1);
        let text = bytes.as_slice().trim_ascii();
        if !text.is_empty() {
            return row_in(cells_of_line(alloc, fields, text));
        }
    }
    Ok(Row::End)
}

// What a row of a table that isn't read is told as.
fn unread_row(alloc: Global, error: &Error) -> Result<Row, ShellError> {
    match error.kind() {
        ErrorKind::OutOfMemory => Err(ShellError::OutOfMemory),
        ErrorKind::Utf8 { .. } => bad(alloc, "this isn't UTF-8"),
        ErrorKind::UnequalLengths {
            expected_len,
            len,
            ..
        } => Ok(Row::Bad(format!(in alloc;
            "a row has {expected_len} cells, as the first line, not {len}"
        )?)),
        _ => bad(alloc, "the file can't be read further"),
    }
}

// The next row of a table, whose line is kept.
fn next_row<R: Read>(
    alloc: Global,
    fields: &[Field],
    places: &[usize],
    reader: &mut Reader<R>,
    row: &mut StringRecord,
    line: &mut u64,
) -> Result<Row, ShellError> {
    let found = reader.read_record(row);
    if let Some(position) = row.position() {
        *line = position.line();
    }
    match found {
        Ok(true) => row_in(cells_of_row(alloc, fields, places, row)),
        Ok(false) => Ok(Row::End),
        Err(error) => unread_row(alloc, &error),
    }
}

// Takes what was read, and answers whether it goes on.
fn take(
    alloc: Global,
    import: Import,
    type_name: &str,
    row: Row,
) -> Result<(Import, bool), ShellError>
    ensures { IfOk result (λ after. IsFurther import.schedule after.0.schedule) }
{
    match row {
        Row::Record(cells) => {
            let import = import.save(alloc, type_name, cells)?;
            let goes_on = import.stop.is_none();
            Ok((import, goes_on))
        }
        Row::Bad(reason) => Ok((import.stopped(reason), false)),
        Row::End => Ok((import, false)),
    }
}

// Saves the records of lines of JSON.
fn import_json<R: Read, E: Write>(
    alloc: Global,
    progress: Progress,
    target: &Target<'_>,
    import: Import,
    file: &mut R,
    errors: &mut E,
) -> Result<Course, ShellError>
    ensures { IfOk result (λ after. IsFurther import.schedule after.import.schedule) }
{
    let mut progress = progress;
    let mut import = import;
    let mut input = BufReader::new(alloc, file)?;
    let (mut bytes, mut line) = (Vec::new(alloc), 0);
    'rows: for _ in 0..u64::MAX {
        let row = next_json(alloc, target.fields, &mut input, &mut bytes, &mut line)?;
        let (after, goes_on) = take(alloc, import, target.type_name, row)?;
        import = after;
        if !goes_on {
            break;
        }
        progress.note(errors, "records");
    }
    progress.end(errors);
    Ok(Course { import, line })
}

// The places of the fields that the first line of a table names, or what is wrong there.
fn columns_of<R: Read>(
    alloc: Global,
    fields: &[Field],
    reader: &mut Reader<R>,
) -> Result<Result<Vec<usize>, Row>, ShellError> {
    match reader.headers() {
        Ok(names) => match places_of(alloc, fields, names) {
            Ok(places) => Ok(Ok(places)),
            Err(error) => Ok(Err(row_in(Err(error))?)),
        },
        Err(error) => Ok(Err(unread_row(alloc, &error)?)),
    }
}

// Saves the records of a table, whose first line names fields.
fn import_table<R: Read, E: Write>(
    alloc: Global,
    progress: Progress,
    target: &Target<'_>,
    import: Import,
    file: &mut R,
    errors: &mut E,
) -> Result<Course, ShellError>
    ensures { IfOk result (λ after. IsFurther import.schedule after.import.schedule) }
{
    let mut progress = progress;
    let mut import = import;
    let mut reader = Reader::from_reader(alloc, file);
    let places = match columns_of(alloc, target.fields, &mut reader)? {
        Ok(places) => places,
        Err(row) => {
            let (import, _) = take(alloc, import, target.type_name, row)?;
            return Ok(Course { import, line: 1 });
        }
    };
    let (mut found, mut line) = (StringRecord::new(alloc), 1);
    'rows: for _ in 0..u64::MAX {
        let row = next_row(
            alloc,
            target.fields,
            places.as_slice(),
            &mut reader,
            &mut found,
            &mut line,
        )?;
        let (after, goes_on) = take(alloc, import, target.type_name, row)?;
        import = after;
        if !goes_on {
            break;
        }
        progress.note(errors, "records");
    }
    progress.end(errors);
    Ok(Course { import, line })
}

// Has all roles do what there is to do, and tells what came of that, where something did.
fn settle<W: Write>(
    alloc: Global,
    telling: Telling,
    stores: &Stores,
    schedule: Database,
    output: &mut W,
) -> Result<Database, ShellError>
    ensures { IfOk result (IsFurther schedule) }
{
    let (schedule, reply) = schedule.step(alloc, &Step::Settle)?;
    if let Reply::Reported(_) = &reply {
        tell(
            alloc,
            telling,
            stores,
            schedule.cluster(),
            &Step::Settle,
            &reply,
            output,
        )?;
    }
    Ok(schedule)
}

// Tells how many records are saved, and why no more are where the file isn't read to its end.
fn tell_saved<W: Write>(path: &str, course: &Course, output: &mut W) -> Result<(), ShellError> {
    let (line, saved) = (course.line, course.import.saved);
    if let Some(why) = &course.import.stop {
        let why = why.as_str();
        writeln!(output, "{path}:{line}: {why}")?;
    }
    let what = if saved == 1 {
        "record is"
    } else {
        "records are"
    };
    writeln!(output, "{saved} {what} saved")?;
    Ok(())
}

// Saves the records of a table where the file's name ends so, else those of lines of JSON.
fn import_rows<R: Read, E: Write>(
    alloc: Global,
    telling: Telling,
    path: &str,
    target: &Target<'_>,
    import: Import,
    file: &mut R,
    errors: &mut E,
) -> Result<Course, ShellError>
    ensures { IfOk result (λ after. IsFurther import.schedule after.import.schedule) }
{
    let progress = Progress::new(telling.watch != Watch::Nothing);
    if path.ends_with(".csv") {
        import_table(alloc, progress, target, import, file, errors)
    } else {
        import_json(alloc, progress, target, import, file, errors)
    }
}

// Saves the records of a file that is open.
fn import_open<R: Read, W: Write, E: Write>(
    alloc: Global,
    telling: Telling,
    stores: &Stores,
    schedule: Database,
    path: &str,
    target: &Target<'_>,
    file: &mut R,
    output: &mut W,
    errors: &mut E,
) -> Result<Database, ShellError>
    ensures { IfOk result (IsFurther schedule) }
{
    let schedule = settle(alloc, telling, stores, schedule, output)?;
    let import = Import::begin(alloc, schedule, target.importer)?;
    if let Some(why) = &import.stop {
        let why = why.as_str();
        writeln!(output, "{why}")?;
        return Ok(import.schedule);
    }
    let rows = import_rows(alloc, telling, path, target, import, file, errors)?;
    let Course { import, line } = rows;
    let import = import.end(alloc)?;
    let course = Course { import, line };
    tell_saved(path, &course, output)?;
    Ok(course.import.schedule)
}

/// Saves a record of a type for each line of a file, so many in a transaction of a client in the
/// store in which it began last, and tells how many they are: lines of JSON, or where the file's
/// name ends in `.csv` a table whose first line names fields. The first line that isn't one, or
/// whose record is refused, is the last that is read.
pub(crate) fn import_file<H: Files + AllocGlobal, W: Write, E: Write>(
    rt: &H,
    telling: Telling,
    stores: &Stores,
    schedule: Database,
    order: &Order,
    output: &mut W,
    errors: &mut E,
) -> Result<Database, ShellError>
    ensures { IfOk result (IsFurther schedule) }
{
    let alloc = rt.alloc();
    let (path, type_name) = (order.path.as_str(), order.type_name.as_str());
    let importer = Importer {
        client: order.client,
        store: stores.of(order.client),
    };
    let Some(fields) = fields_of(alloc, schedule.cluster(), importer.store, type_name)? else {
        writeln!(output, "no type {type_name} is committed")?;
        return Ok(schedule);
    };
    let Ok(mut file) = File::open(rt, path) else {
        writeln!(output, "{path} can't be read")?;
        return Ok(schedule);
    };
    let target = Target {
        type_name,
        fields: fields.as_slice(),
        importer,
    };
    import_open(
        alloc, telling, stores, schedule, path, &target, &mut file, output, errors,
    )
}
