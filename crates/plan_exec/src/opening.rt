// How the rows of a plan's steps are opened: nothing is read yet. Called by `execution`.
ghost use Rattle.std.specs.Prelude.{◌≡◌, ◌∷◌, [], IfOk, List, map};
ghost use Rattle.metadata.specs.Layout.{Pair as PairValue};
ghost use Rattle.planner.specs.View.{index_scan_of, node_of, scan_of, source_of};
ghost use Rattle.plan_exec.specs.Course.{all_joined, entries_course, node_course, scan_course};
ghost use Rattle.plan_exec.specs.Course.{source_course};
ghost use Rattle.plan_exec.specs.Rows.{level_of, new_level};
ghost use Rattle.plan_exec.specs.declared.fetch_streams.SourceStream.TheVariants.{Shared};
ghost use Rattle.plan_exec.specs.Sources.{entries_left, source_left};
ghost use Rattle.plan_exec.specs.Streams.{pair_course, records_made};

use crate::distinct::PrimaryKeys;
use crate::fetch_streams::{FetchStream, SourceStream};
use crate::keys::{records_key, scan_range};
use crate::level::Level;
use crate::readers::{EntriesOf, RecordsOf};
use crate::record_streams::{EntryStream, RecordStream};
use crate::rows::{Rows, Step};
use crate::streams::PairStream;
use planner::{IndexScan, Node, Scan, Source};
use std::alloc::AllocError;

// The records of a scan.
fn scan_stream<'a>(records: &'a RecordsOf<'a>, scan: &Scan) -> Result<RecordStream<'a>, AllocError>
    ensures same { IfOk result (λ stream. stream.records.now ≡ records.now) }
    ensures course { IfOk result (λ stream. (pairs : List PairValue) →
        records_made records.now (pair_course stream.pairs pairs)
        ≡ scan_course records.now.store.now.prefix pairs records.now.definition.value
        (scan_of scan.now)) }
{
    let alloc = records.store.alloc();
    let key = records_key(records.store, &records.definition)?;
    let range = scan_range(alloc, key.as_slice(), &scan.range)?;
    let pairs = PairStream::new(alloc, range, scan.reverse);
    Ok(RecordStream { pairs, records })
}

// The entries of a scan of an index.
fn entry_stream<'a>(
    records: &'a RecordsOf<'a>,
    scan: &'a IndexScan,
) -> Result<EntryStream<'a>, AllocError>
    ensures { IfOk result (λ stream. (pairs : List PairValue) → entries_left stream pairs
        ≡ entries_course records.now.store.now.prefix pairs records.now.definition.value
        (index_scan_of scan.now)) }
{
    let alloc = records.store.alloc();
    let entries = EntriesOf::new(records, &scan.index)?;
    let range = scan_range(alloc, entries.form.front.as_slice(), &scan.range)?;
    Ok(EntryStream {
        pairs: PairStream::new(alloc, range, scan.reverse),
        entries,
    })
}

// The entries of several scans.
fn entry_levels<'a>(
    records: &'a RecordsOf<'a>,
    scans: &'a [IndexScan],
) -> Result<Vec<Level<EntryStream<'a>>>, AllocError>
    ensures { IfOk result (λ levels. (pairs : List PairValue) → source_left (Shared levels) pairs
        ≡ all_joined (λ entry. entry.primary_key)
        (map (entries_course records.now.store.now.prefix pairs records.now.definition.value)
        (map index_scan_of scans.now))) }
{
    let mut levels = Vec::with_capacity(records.store.alloc(), scans.len())?;
    for scan in scans {
        levels.push(Level::new(entry_stream(records, scan)?))?;
    }
    Ok(levels)
}

// The entries of a fetch's source.
fn source_stream<'a>(
    records: &'a RecordsOf<'a>,
    source: &'a Source,
) -> Result<SourceStream<'a>, AllocError>
    ensures { IfOk result (λ stream. (pairs : List PairValue) → source_left stream pairs
        ≡ source_course records.now.store.now.prefix pairs records.now.definition.value
        (source_of source.now)) }
{
    match source {
        Source::IndexScan(scan) => {
            let entries = entry_stream(records, scan)?;
            Ok(SourceStream::Scanned(entries))
        }
        Source::Intersection(scans) => {
            let levels = entry_levels(records, scans.as_slice())?;
            Ok(SourceStream::Shared(levels))
        }
    }
}

/// The rows of a step of a plan.
#[cycle(opening)]
pub(crate) fn rows_of<'a>(
    records: &'a RecordsOf<'a>,
    node: &'a Node,
) -> Result<Rows<'a>, AllocError>
    ensures { IfOk result (λ rows. level_of rows ≡ new_level (λ pairs. node_course
        records.now.store.now.prefix pairs records.now.definition.value (node_of node.now))) }
{
    let alloc = records.store.alloc();
    match node {
        Node::Scan(scan) => {
            let stream = scan_stream(records, scan)?;
            Ok(Rows::new(Step::Scanned(stream), Vec::new(alloc)))
        }
        Node::Fetch(source) => {
            let entries = source_stream(records, source)?;
            let stream = FetchStream { entries, records };
            Ok(Rows::new(Step::Fetched(stream), Vec::new(alloc)))
        }
        Node::Filter(condition, part) => {
            let parts = one_part(records, part)?;
            Ok(Rows::new(Step::Kept(condition), parts))
        }
        Node::Union(nodes) => {
            let parts = parts_of(records, nodes.as_slice())?;
            Ok(Rows::new(Step::Merged, parts))
        }
        Node::UnorderedUnion(nodes) => {
            let parts = parts_of(records, nodes.as_slice())?;
            Ok(Rows::new(Step::Chained, parts))
        }
        Node::Distinct(part) => {
            let parts = one_part(records, part)?;
            Ok(Rows::new(Step::First(PrimaryKeys::new(alloc)), parts))
        }
    }
}

// The rows of a step alone.
#[cycle(opening)]
fn one_part<'a>(records: &'a RecordsOf<'a>, node: &'a Node) -> Result<Vec<Rows<'a>>, AllocError>
    ensures { IfOk result (λ parts. map level_of parts.items ≡ new_level (λ pairs. node_course
        records.now.store.now.prefix pairs records.now.definition.value (node_of node.now)) ∷ []) }
{
    let mut parts = Vec::with_capacity(records.store.alloc(), 1)?;
    parts.push(rows_of(records, node)?)?;
    Ok(parts)
}

// The rows of several steps.
#[cycle(opening)]
fn parts_of<'a>(records: &'a RecordsOf<'a>, nodes: &'a [Node]) -> Result<Vec<Rows<'a>>, AllocError>
    ensures { IfOk result (λ parts. map level_of parts.items
        ≡ map (λ node. new_level (λ pairs. node_course records.now.store.now.prefix pairs
        records.now.definition.value (node_of node))) nodes.now) }
{
    let mut parts = Vec::with_capacity(records.store.alloc(), nodes.len())?;
    for node in nodes {
        parts.push(rows_of(records, node)?)?;
    }
    Ok(parts)
}
