//! The lines of a plan.

ghost use Rattle.std.specs.Prelude.{◌≡◌, ◌≤◌, ◌++◌, ◌∷◌, [], length, map, IfOk, codes, if◌then◌else◌};
ghost use Rattle.std.specs.List.{flat_map, All};
ghost use Rattle.std.specs.Option.{unwrap_or};
ghost use Rattle.oc_bytes.specs.Outcome.{Spells, AddsText};
ghost use Rattle.biop_object.specs.Names.{module_in};
ghost use Rattle.path_tree.specs.Trees.{node_at};
ghost use Rattle.module_groups.specs.declared.TheConstants.{GREATEST_ID};
ghost use Rattle.generation.specs.Layouts.{lines_of, cycle_items};
ghost use Rattle.generation.specs.Objects.{object_of};
ghost use Rattle.section_stream.specs.Packing.{IsSectionLike};
ghost use Rattle.folder_store.specs.Surveys.{names_at, view_standing};
ghost use Rattle.publication_plan.specs.Telling.{count_of, cycle_line, cycle_packets, cycle_sections, entry_lines, hidden_text, is_hidden, is_hidden_name, kind_line, kind_text, left_first, left_line, module_line, object_line, plan_text, stands_before};
ghost use Rattle.shell_words.specs.Texts.{line, with_number};
ghost use Rattle.publication_plan.specs.declared.counting.TheConstants.{MOST_PACKETS};

use crate::counting::{Cycle, count_cycle, time_of};
use carousel_profile::PACKET_LENGTH;
use cycle_planner::Weigh;
use folder_store::{Standing, standing_text};
use generation::{Generation, Object, ObjectKind};
use oc_bytes::NoMemory;
use path_tree::{Lookup, Path, Tree};
use std::alloc::Global;

/// The whole plan of a generation and of what was passed over on the way to it.
pub(crate) fn plan_lines(
    alloc: Global,
    generation: &Generation,
    left: &[Standing],
    weigh: &Weigh,
    bitrate: u32,
) -> Result<String, NoMemory>
    requires like { All IsSectionLike (cycle_sections weigh.now.weights generation.now) }
    requires rate { 1 ≤ bitrate }
    ensures { Spells result
        (plan_text weigh.now.weights bitrate generation.now (map view_standing left.now)) }
{
    let mut text = String::new(alloc);
    put_objects(alloc, generation, left, &mut text)?;
    put_modules(alloc, generation, weigh, &mut text)?;
    put_cycle(alloc, generation, weigh, bitrate, &mut text)?;
    Ok(text)
}

// ---- objects, and what was passed over

/// The objects of a generation in order, and between them what was passed over.
fn put_objects(
    alloc: Global,
    generation: &Generation,
    left: &[Standing],
    text: &mut String,
) -> Result<(), NoMemory>
    ensures { AddsText result text.old text.new
        (entry_lines generation.now.tree (map object_of generation.now.objects)
        (map view_standing left.now)) }
{
    let objects = generation.objects()?;
    put_entries(alloc, generation.tree(), &objects, left, text)
}

/// The objects in order, and between them what was passed over.
fn put_entries(
    alloc: Global,
    tree: &Tree,
    objects: &[Object],
    left: &[Standing],
    text: &mut String,
) -> Result<(), NoMemory>
    ensures { AddsText result text.old text.new
        (entry_lines tree.now objects.now (map view_standing left.now)) }
{
    let mut next = 0;
    for object in objects {
        next += put_first(alloc, &left[next..], &object.path, text)?;
        put_object(alloc, tree, object, text)?;
    }
    put_left(alloc, &left[next..], text)
}

/// What was passed over and stands before an object: how many they are.
fn put_first(
    alloc: Global,
    left: &[Standing],
    path: &Path,
    text: &mut String,
) -> Result<usize, NoMemory>
    ensures text { AddsText result text.old text.new
        (flat_map left_line (left_first path.now (map view_standing left.now))) }
    ensures count { IfOk result (λ n.
        n ≡ length (left_first path.now (map view_standing left.now))) }
    ensures within { IfOk result (λ n. n ≤ length left.now) }
{
    let count = count_first(left, path);
    put_left(alloc, &left[..count], text)?;
    Ok(count)
}

/// How many of these stand before an object, up to the first that doesn't.
fn count_first(left: &[Standing], path: &Path) -> usize
    ensures count { result ≡ length (left_first path.now (map view_standing left.now)) }
    ensures within { result ≤ length left.now }
{
    for (index, standing) in left.iter().enumerate() {
        if !stands_before(standing, path) {
            return index;
        }
    }
    left.len()
}

fn stands_before(standing: &Standing, path: &Path) -> bool
    ensures { result ≡ stands_before (view_standing standing.now) path.now }
{
    match standing.folder.next_below(path) {
        Some(name) => standing.name.as_bytes().cmp(&name.bytes()).is_lt(),
        None => standing.folder.compare(path).is_lt(),
    }
}

/// The lines of what was passed over.
fn put_left(alloc: Global, left: &[Standing], text: &mut String) -> Result<(), NoMemory>
    ensures { AddsText result text.old text.new (flat_map left_line (map view_standing left.now)) }
{
    for standing in left {
        let line = left_text(alloc, standing)?;
        text.push_str(&line)?;
    }
    Ok(())
}

fn left_text(alloc: Global, standing: &Standing) -> Result<String, NoMemory>
    ensures { Spells result (left_line (view_standing standing.now)) }
{
    let path = standing_text(alloc, standing)?;
    left_joined(alloc, &path, standing_mark(standing))
}

fn left_joined(alloc: Global, path: &str, hidden: &str) -> Result<String, NoMemory>
    ensures { Spells result (line (codes "left " ++ path.now ++ hidden.now)) }
{
    format!(in alloc; "left {path}{hidden}\n")
}

fn standing_mark(standing: &Standing) -> &'static str
    ensures { result.now ≡ hidden_text (names_at (view_standing standing.now)) }
{
    mark(is_hidden(&standing.folder) || is_hidden_name(standing.name.as_bytes()))
}

fn put_object(
    alloc: Global,
    tree: &Tree,
    object: &Object,
    text: &mut String,
) -> Result<(), NoMemory>
    ensures { AddsText result text.old text.new (object_line tree.now object.now) }
{
    let kind = kind_text(alloc, tree, object)?;
    let kind = kind.as_str();
    let module = object.module;
    let hidden = mark(is_hidden(&object.path));
    let line = format!(in alloc; "{kind} module {module}{hidden}\n")?;
    text.push_str(&line)
}

/// What an object is, its path, and a file's length or the number of a folder's names.
fn kind_text(alloc: Global, tree: &Tree, object: &Object) -> Result<String, NoMemory>
    ensures { Spells result (kind_text tree.now object.now.path object.now.kind) }
{
    match object.kind {
        ObjectKind::File(length) => kind_line(alloc, "file", &object.path, length),
        ObjectKind::Folder => {
            let count = count_names(tree, &object.path)?;
            kind_line(alloc, "folder", &object.path, count)
        }
    }
}

fn kind_line(alloc: Global, kind: &str, path: &Path, number: usize) -> Result<String, NoMemory>
    ensures { Spells result (kind_line kind.now path.now number) }
{
    format!(in alloc; "{kind} {path} {number}")
}

fn count_names(tree: &Tree, path: &Path) -> Result<usize, NoMemory>
    ensures { IfOk result (λ n. n ≡ count_of (node_at tree.now path.now)) }
{
    match tree.lookup(path)? {
        Lookup::Folder(names) => Ok(names.len()),
        Lookup::File(_) | Lookup::NoSuch => Ok(0),
    }
}

/// Whether an object or a folder above it is hidden where it comes from.
fn is_hidden(path: &Path) -> bool
    ensures { result ≡ is_hidden path.now }
{
    path.iter().any(|name| is_hidden_name(name.bytes()))
}

fn is_hidden_name(name: &[u8]) -> bool
    ensures { result ≡ is_hidden_name name.now }
{
    match name {
        [first, ..] => *first == b'.',
        [] => false,
    }
}

fn mark(is_hidden: bool) -> &'static str
    ensures { result.now ≡ (if is_hidden then codes " hidden" else []) }
{
    if is_hidden { " hidden" } else { "" }
}

// ---- modules and the cycle

fn put_modules(
    alloc: Global,
    generation: &Generation,
    weigh: &Weigh,
    text: &mut String,
) -> Result<(), NoMemory>
    ensures { AddsText result text.old text.new
        (flat_map (module_line weigh.now.weights generation.now) (lines_of generation.now)) }
{
    for (id, blocks) in generation.lines() {
        let line = module_text(alloc, generation, weigh, *id, *blocks)?;
        text.push_str(&line)?;
    }
    Ok(())
}

fn module_text(
    alloc: Global,
    generation: &Generation,
    weigh: &Weigh,
    id: u16,
    blocks: u32,
) -> Result<String, NoMemory>
    requires { (1 ≤ id) × (id ≤ GREATEST_ID) }
    ensures { Spells result (module_line weigh.now.weights generation.now (id, blocks)) }
{
    let size = module_size(generation, id) as u64;
    let front = two_fields(alloc, "module", u64::from(id), "size", size)?;
    let back = two_fields(
        alloc,
        "blocks",
        u64::from(blocks),
        "weight",
        u64::from(weigh.of(id)),
    )?;
    four_fields(alloc, &front, &back)
}

fn module_size(generation: &Generation, id: u16) -> usize
    ensures { result ≡ length (unwrap_or (module_in generation.now.layout id) []) }
{
    match generation.module_bytes(id) {
        Some(bytes) => bytes.len(),
        None => 0,
    }
}

/// The line of a cycle.
fn put_cycle(
    alloc: Global,
    generation: &Generation,
    weigh: &Weigh,
    bitrate: u32,
    text: &mut String,
) -> Result<(), NoMemory>
    requires like { All IsSectionLike (cycle_sections weigh.now.weights generation.now) }
    requires rate { 1 ≤ bitrate }
    ensures { AddsText result text.old text.new
        (cycle_line (length (cycle_items weigh.now.weights generation.now))
        (length (cycle_packets weigh.now.weights generation.now)) bitrate) }
{
    let cycle = count_cycle(alloc, generation, weigh)?;
    let line = cycle_text(alloc, cycle, bitrate)?;
    text.push_str(&line)
}

fn cycle_text(alloc: Global, cycle: Cycle, bitrate: u32) -> Result<String, NoMemory>
    requires rate { 1 ≤ bitrate }
    requires few { cycle.packets ≤ MOST_PACKETS }
    ensures { Spells result (cycle_line cycle.sections cycle.packets bitrate) }
{
    let bytes = PACKET_LENGTH as u64 * cycle.packets;
    let time = time_of(bytes, bitrate);
    let front = two_fields(
        alloc,
        "cycle sections",
        cycle.sections,
        "packets",
        cycle.packets,
    )?;
    let back = two_fields(alloc, "bytes", bytes, "milliseconds", time)?;
    four_fields(alloc, &front, &back)
}

/// Two names, each with its number.
fn two_fields(
    alloc: Global,
    first: &str,
    number: u64,
    second: &str,
    other: u64,
) -> Result<String, NoMemory>
    ensures { Spells result (with_number first.now number ++ 32 ∷ with_number second.now other) }
{
    format!(in alloc; "{first} {number} {second} {other}")
}

/// The line of four fields, two by two.
fn four_fields(alloc: Global, front: &str, back: &str) -> Result<String, NoMemory>
    ensures { Spells result (line (front.now ++ 32 ∷ back.now)) }
{
    format!(in alloc; "{front} {back}\n")
}
