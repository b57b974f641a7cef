// Plans as one line of text. Called by `script`, `recordctl` and applications; ranges by `plan_tree`.
ghost use Rattle.std.specs.Prelude.{◌≡◌, ◌++◌, OnOk, IfOk, map, string_bytes, ℕ};
ghost use Rattle.std.specs.List.{join_with_byte};
ghost use Rattle.hex.specs.Hex.{encode_lower};
ghost use Rattle.planner.specs.Planned.{nodes_of};
ghost use Rattle.planner.specs.View.{index_scan_of, node_of, plan_of, range_of, source_of};
ghost use Rattle.explain.specs.PlanText.{bracketed, comma_before, index_scan_text, node_text};
ghost use Rattle.explain.specs.PlanText.{node_texts, plan_text};
ghost use Rattle.explain.specs.PlanText.{range_text, scan_text, source_text, turned_text};
ghost use Rattle.query.specs.View.{filter_of};
ghost use Rattle.std.specs.Prelude.{codes};
ghost use Rattle.serde_json.specs.Written.{compact_text};
ghost use Rattle.json_forms.specs.QueryJson.{filter_data};

use json_forms::filter_text;
use planner::{IndexScan, KeyRange, Node, Plan, Source};
use query::Filter;
use std::alloc::{AllocError, Global};
use tuple_codec::{ByteString, Text};

// Writes bytes in hexadecimal.
fn push_hex(alloc: Global, text: &mut String, bytes: &ByteString) -> Result<(), AllocError>
    ensures { OnOk result (string_bytes text.new ≡ string_bytes text.old ++ encode_lower bytes.now) }
{
    let digits = hex::encode(alloc, bytes.as_slice())?;
    text.push_str(digits.as_str())?;
    Ok(())
}

/// Writes the ends of a range.
pub(crate) fn push_range(
    alloc: Global,
    text: &mut String,
    range: &KeyRange,
) -> Result<(), AllocError>
    ensures { OnOk result (string_bytes text.new ≡ string_bytes text.old ++ range_text (range_of range.now)) }
{
    push_hex(alloc, text, &range.begin)?;
    text.push_str("..")?;
    push_hex(alloc, text, &range.end)?;
    Ok(())
}

// Writes the end of a scan: its range, and whether the last key comes first.
fn push_scanned(
    alloc: Global,
    text: &mut String,
    range: &KeyRange,
    reverse: bool,
) -> Result<(), AllocError>
    ensures { OnOk result (string_bytes text.new
        ≡ string_bytes text.old ++ (range_text (range_of range.now) ++ turned_text reverse ++ codes ")")) }
{
    push_range(alloc, text, range)?;
    if reverse {
        text.push_str(",reverse")?;
    }
    text.push_str(")")?;
    Ok(())
}

// Writes a scan.
fn push_scan(
    alloc: Global,
    text: &mut String,
    opened: &str,
    name: &Text,
    range: &KeyRange,
    reverse: bool,
) -> Result<(), AllocError>
    ensures { OnOk result (string_bytes text.new
        ≡ string_bytes text.old ++ scan_text opened.now name.now (range_of range.now) reverse) }
{
    text.push_str(opened)?;
    text.push_str(name.as_str())?;
    text.push_str(",")?;
    push_scanned(alloc, text, range, reverse)
}

// Writes the scan of an index.
fn push_index_scan(alloc: Global, text: &mut String, scan: &IndexScan) -> Result<(), AllocError>
    ensures { OnOk result (string_bytes text.new
        ≡ string_bytes text.old ++ index_scan_text (index_scan_of scan.now)) }
{
    push_scan(
        alloc,
        text,
        "IndexScan(",
        &scan.index.name,
        &scan.range,
        scan.reverse,
    )
}

// Writes a comma before each part but the first.
fn push_comma(text: &mut String, index: usize) -> Result<(), AllocError>
    ensures { OnOk result (string_bytes text.new ≡ string_bytes text.old ++ comma_before index) }
{
    if index > 0 {
        text.push_str(",")?;
    }
    Ok(())
}

// Writes scans of indexes, with a comma between each two.
fn push_index_scans(alloc: Global, text: &mut String, scans: &[IndexScan]) -> Result<(), AllocError>
    ensures { OnOk result (string_bytes text.new
        ≡ string_bytes text.old ++ join_with_byte 44 (map index_scan_text (map index_scan_of scans.now))) }
{
    for (index, scan) in scans.iter().enumerate() {
        push_comma(text, index)?;
        push_index_scan(alloc, text, scan)?;
    }
    Ok(())
}

// Writes where a fetch gets its primary keys from.
fn push_source(alloc: Global, text: &mut String, source: &Source) -> Result<(), AllocError>
    ensures { OnOk result (string_bytes text.new ≡ string_bytes text.old ++ source_text (source_of source.now)) }
{
    match source {
        Source::IndexScan(scan) => push_index_scan(alloc, text, scan),
        Source::Intersection(scans) => {
            text.push_str("Intersection(")?;
            push_index_scans(alloc, text, scans.as_slice())?;
            text.push_str(")")?;
            Ok(())
        }
    }
}

// Writes a fetch.
fn push_fetch(alloc: Global, text: &mut String, source: &Source) -> Result<(), AllocError>
    ensures { OnOk result (string_bytes text.new
        ≡ string_bytes text.old ++ (codes "Fetch(" ++ source_text (source_of source.now) ++ codes ")")) }
{
    text.push_str("Fetch(")?;
    push_source(alloc, text, source)?;
    text.push_str(")")?;
    Ok(())
}

// Writes the beginning of a step that filters.
fn push_filter(alloc: Global, text: &mut String, filter: &Filter) -> Result<(), AllocError>
    ensures { OnOk result (string_bytes text.new ≡ string_bytes text.old
        ++ (codes "Filter(" ++ compact_text (filter_data (filter_of filter.now)) ++ codes ",")) }
{
    let condition = filter_text(alloc, filter)?;
    text.push_str("Filter(")?;
    text.push_str(condition.as_str())?;
    text.push_str(",")?;
    Ok(())
}

// Writes a step.
#[cycle(writing)]
fn push_node(alloc: Global, text: &mut String, name: &Text, node: &Node) -> Result<(), AllocError>
    ensures { OnOk result (string_bytes text.new ≡ string_bytes text.old ++ node_text name.now (node_of node.now)) }
{
    match node {
        Node::Scan(scan) => push_scan(alloc, text, "Scan(", name, &scan.range, scan.reverse),
        Node::Fetch(source) => push_fetch(alloc, text, source),
        Node::Filter(filter, part) => {
            push_filter(alloc, text, filter)?;
            push_closed(alloc, text, name, part)?;
            Ok(())
        }
        Node::Union(parts) => push_parts(alloc, text, "Union(", name, parts.as_slice()),
        Node::UnorderedUnion(parts) => {
            push_parts(alloc, text, "UnorderedUnion(", name, parts.as_slice())
        }
        Node::Distinct(part) => {
            text.push_str("Distinct(")?;
            push_closed(alloc, text, name, part)?;
            Ok(())
        }
    }
}

// Writes a step and the bracket that closes the one above it.
#[cycle(writing)]
fn push_closed(alloc: Global, text: &mut String, name: &Text, node: &Node) -> Result<(), AllocError>
    ensures { OnOk result (string_bytes text.new
        ≡ string_bytes text.old ++ (node_text name.now (node_of node.now) ++ codes ")")) }
{
    push_node(alloc, text, name, node)?;
    text.push_str(")")?;
    Ok(())
}

// Writes steps between brackets.
#[cycle(writing)]
fn push_parts(
    alloc: Global,
    text: &mut String,
    opened: &str,
    name: &Text,
    parts: &[Node],
) -> Result<(), AllocError>
    ensures { OnOk result (string_bytes text.new ≡ string_bytes text.old
        ++ bracketed opened.now (node_texts name.now (nodes_of (map node_of parts.now)))) }
{
    text.push_str(opened)?;
    push_nodes(alloc, text, name, parts)?;
    text.push_str(")")?;
    Ok(())
}

// Writes steps, with a comma between each two.
#[cycle(writing)]
fn push_nodes(
    alloc: Global,
    text: &mut String,
    name: &Text,
    parts: &[Node],
) -> Result<(), AllocError>
    ensures { OnOk result (string_bytes text.new ≡ string_bytes text.old
        ++ join_with_byte 44 (node_texts name.now (nodes_of (map node_of parts.now)))) }
{
    for (index, part) in parts.iter().enumerate() {
        push_comma(text, index)?;
        push_node(alloc, text, name, part)?;
    }
    Ok(())
}

/// The text of a plan, in one line: `Fetch(IndexScan(by_a,01..1505))`. Keys are in hexadecimal, of
/// a scan's own keys behind those of its type or index, and a filter is compact JSON.
pub fn explain(alloc: Global, plan: &Plan) -> Result<String, AllocError>
    ensures { IfOk result (λ text. string_bytes text ≡ plan_text (plan_of plan.now)) }
{
    let mut text = String::new(alloc);
    push_node(alloc, &mut text, &plan.definition().name, plan.root())?;
    Ok(text)
}
