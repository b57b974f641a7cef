// Plans as indented trees. Called by `recordctl` for `explain --tree`.
ghost use Rattle.std.specs.Prelude.{◌≡◌, ◌++◌, codes, IfOk, OnOk, flat_map, map, string_bytes};
ghost use Rattle.serde_json.specs.Written.{compact_text};
ghost use Rattle.json_forms.specs.QueryJson.{filter_data};
ghost use Rattle.query.specs.View.{filter_of};
ghost use Rattle.planner.specs.Planned.{nodes_of};
ghost use Rattle.planner.specs.View.{index_scan_of, node_of, plan_of, range_of, scan_of, source_of};
ghost use Rattle.explain.specs.Tree.{deeper, index_line, line, node_tree, nodes_tree, plan_tree};
ghost use Rattle.explain.specs.PlanText.{range_text};
ghost use Rattle.explain.specs.Tree.{scan_line, shown_range, source_tree, told_words, turned_words};

use crate::plan_text::push_range;
use crate::ranges::range_words;
use json_forms::filter_text;
use metadata::TypeDefinition;
use planner::{IndexScan, KeyRange, Node, Plan, Scan, Source};
use query::Filter;
use std::alloc::{AllocError, Global};
use tuple_codec::Text;

// The indentation of what stands below.
fn deeper(alloc: Global, indent: &str) -> Result<String, AllocError>
    ensures { IfOk result (λ made. string_bytes made ≡ deeper indent.now) }
{
    let mut made = String::from_str(alloc, indent)?;
    made.push_str("  ")?;
    Ok(made)
}

// Writes a line with its indentation.
fn push_line(text: &mut String, indent: &str, words: &str) -> Result<(), AllocError>
    ensures { OnOk result (string_bytes text.new ≡ string_bytes text.old ++ line indent.now words.now) }
{
    text.push_str(indent)?;
    text.push_str(words)?;
    text.push_str("\n")?;
    Ok(())
}

// Writes what a range says of columns, where that can be told.
fn push_words(
    alloc: Global,
    text: &mut String,
    definition: &TypeDefinition,
    columns: &[usize],
    range: &KeyRange,
) -> Result<(), AllocError>
    ensures { OnOk result (string_bytes text.new
        ≡ string_bytes text.old ++ told_words definition.now columns.now (range_of range.now)) }
{
    if let Some(words) = range_words(alloc, definition, columns, range)? {
        text.push_str(": ")?;
        text.push_str(words.as_str())?;
    }
    Ok(())
}

// Writes the bytes of a range.
fn push_bytes(alloc: Global, text: &mut String, range: &KeyRange) -> Result<(), AllocError>
    ensures { OnOk result (string_bytes text.new
        ≡ string_bytes text.old ++ (codes " [" ++ range_text (range_of range.now) ++ codes "]")) }
{
    text.push_str(" [")?;
    push_range(alloc, text, range)?;
    text.push_str("]")?;
    Ok(())
}

// What a range says of columns, and its bytes.
fn shown_range(
    alloc: Global,
    definition: &TypeDefinition,
    columns: &[usize],
    range: &KeyRange,
) -> Result<String, AllocError>
    ensures { IfOk result (λ text. string_bytes text
        ≡ shown_range definition.now columns.now (range_of range.now)) }
{
    let mut text = String::new(alloc);
    push_words(alloc, &mut text, definition, columns, range)?;
    push_bytes(alloc, &mut text, range)?;
    Ok(text)
}

// Writes the scan of a range of what has this name, and how it is turned.
fn push_scanned(
    text: &mut String,
    what: &str,
    name: &Text,
    shown: &str,
    reverse: bool,
) -> Result<(), AllocError>
    ensures { OnOk result (string_bytes text.new
        ≡ string_bytes text.old ++ (what.now ++ name.now ++ (shown.now ++ turned_words reverse))) }
{
    text.push_str(what)?;
    text.push_str(name.as_str())?;
    text.push_str(shown)?;
    if reverse {
        text.push_str(" reverse")?;
    }
    Ok(())
}

// Writes the line of a scan of the records.
fn push_scan(
    alloc: Global,
    text: &mut String,
    indent: &str,
    definition: &TypeDefinition,
    scan: &Scan,
) -> Result<(), AllocError>
    ensures { OnOk result (string_bytes text.new
        ≡ string_bytes text.old ++ scan_line definition.now indent.now (scan_of scan.now)) }
{
    let shown = shown_range(alloc, definition, definition.key.as_slice(), &scan.range)?;
    text.push_str(indent)?;
    push_scanned(
        text,
        "Scan ",
        &definition.name,
        shown.as_str(),
        scan.reverse,
    )?;
    text.push_str("\n")?;
    Ok(())
}

// Writes the line of a scan of an index.
fn push_index_scan(
    alloc: Global,
    text: &mut String,
    indent: &str,
    definition: &TypeDefinition,
    scan: &IndexScan,
) -> Result<(), AllocError>
    ensures { OnOk result (string_bytes text.new
        ≡ string_bytes text.old ++ index_line definition.now indent.now (index_scan_of scan.now)) }
{
    let columns = scan.index.columns.as_slice();
    let shown = shown_range(alloc, definition, columns, &scan.range)?;
    text.push_str(indent)?;
    push_scanned(
        text,
        "IndexScan ",
        &scan.index.name,
        shown.as_str(),
        scan.reverse,
    )?;
    text.push_str("\n")?;
    Ok(())
}

// Writes the lines of scans of indexes.
fn push_index_scans(
    alloc: Global,
    text: &mut String,
    indent: &str,
    definition: &TypeDefinition,
    scans: &[IndexScan],
) -> Result<(), AllocError>
    ensures { OnOk result (string_bytes text.new
        ≡ string_bytes text.old ++ flat_map (index_line definition.now indent.now) (map index_scan_of scans.now)) }
{
    for scan in scans {
        push_index_scan(alloc, text, indent, definition, scan)?;
    }
    Ok(())
}

// Writes where a fetch gets its primary keys from.
fn push_source(
    alloc: Global,
    text: &mut String,
    indent: &str,
    definition: &TypeDefinition,
    source: &Source,
) -> Result<(), AllocError>
    ensures { OnOk result (string_bytes text.new
        ≡ string_bytes text.old ++ source_tree definition.now indent.now (source_of source.now)) }
{
    match source {
        Source::IndexScan(scan) => push_index_scan(alloc, text, indent, definition, scan),
        Source::Intersection(scans) => {
            push_line(text, indent, "Intersection")?;
            let below = deeper(alloc, indent)?;
            push_index_scans(alloc, text, below.as_str(), definition, scans.as_slice())
        }
    }
}

// Writes a fetch.
fn push_fetch(
    alloc: Global,
    text: &mut String,
    indent: &str,
    definition: &TypeDefinition,
    source: &Source,
) -> Result<(), AllocError>
    ensures { OnOk result (string_bytes text.new ≡ string_bytes text.old
        ++ (line indent.now (codes "Fetch") ++ source_tree definition.now (deeper indent.now) (source_of source.now))) }
{
    push_line(text, indent, "Fetch")?;
    let below = deeper(alloc, indent)?;
    push_source(alloc, text, below.as_str(), definition, source)
}

// Writes the line of a step that filters.
fn push_filter(
    alloc: Global,
    text: &mut String,
    indent: &str,
    filter: &Filter,
) -> Result<(), AllocError>
    ensures { OnOk result (string_bytes text.new ≡ string_bytes text.old
        ++ line indent.now (codes "Filter " ++ compact_text (filter_data (filter_of filter.now)))) }
{
    let condition = filter_text(alloc, filter)?;
    text.push_str(indent)?;
    text.push_str("Filter ")?;
    push_line(text, "", condition.as_str())
}

// Writes a step and what it is made of.
#[cycle(growing)]
fn push_node(
    alloc: Global,
    text: &mut String,
    indent: &str,
    definition: &TypeDefinition,
    node: &Node,
) -> Result<(), AllocError>
    ensures { OnOk result (string_bytes text.new
        ≡ string_bytes text.old ++ node_tree definition.now indent.now (node_of node.now)) }
{
    match node {
        Node::Scan(scan) => push_scan(alloc, text, indent, definition, scan),
        Node::Fetch(source) => push_fetch(alloc, text, indent, definition, source),
        Node::Filter(filter, part) => {
            push_filter(alloc, text, indent, filter)?;
            push_below(alloc, text, indent, definition, part)
        }
        Node::Union(parts) => {
            push_line(text, indent, "Union")?;
            push_parts(alloc, text, indent, definition, parts.as_slice())
        }
        Node::UnorderedUnion(parts) => {
            push_line(text, indent, "UnorderedUnion")?;
            push_parts(alloc, text, indent, definition, parts.as_slice())
        }
        Node::Distinct(part) => {
            push_line(text, indent, "Distinct")?;
            push_below(alloc, text, indent, definition, part)
        }
    }
}

// Writes the step below another one.
#[cycle(growing)]
fn push_below(
    alloc: Global,
    text: &mut String,
    indent: &str,
    definition: &TypeDefinition,
    part: &Node,
) -> Result<(), AllocError>
    ensures { OnOk result (string_bytes text.new
        ≡ string_bytes text.old ++ node_tree definition.now (deeper indent.now) (node_of part.now)) }
{
    let below = deeper(alloc, indent)?;
    push_node(alloc, text, below.as_str(), definition, part)
}

// Writes the steps below another one.
#[cycle(growing)]
fn push_parts(
    alloc: Global,
    text: &mut String,
    indent: &str,
    definition: &TypeDefinition,
    parts: &[Node],
) -> Result<(), AllocError>
    ensures { OnOk result (string_bytes text.new ≡ string_bytes text.old
        ++ nodes_tree definition.now (deeper indent.now) (nodes_of (map node_of parts.now))) }
{
    let below = deeper(alloc, indent)?;
    for part in parts {
        push_node(alloc, text, below.as_str(), definition, part)?;
    }
    Ok(())
}

/// The tree of a plan, for people: a step a line, and below it, two spaces further in, those that
/// it is made of. A scan says its range as conditions on columns, where these can be told, then its
/// bytes in hexadecimal, then `reverse` where it gives the last key first:
/// `IndexScan by_a: a > 3 and a <= 9 [1503ff..1509ff]`. A range of all keys says `all`, one of none
/// `nothing`. Each line has its line end.
pub fn tree(alloc: Global, plan: &Plan) -> Result<String, AllocError>
    ensures { IfOk result (λ text. string_bytes text ≡ plan_tree (plan_of plan.now)) }
{
    let mut text = String::new(alloc);
    push_node(alloc, &mut text, "", plan.definition(), plan.root())?;
    Ok(text)
}
