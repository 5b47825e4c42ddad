//! A generated script.
ghost use Rattle.std.specs.Prelude.{◌≡◌, ◌+◌, ◌*◌, ◌++◌, ◌∷◌, ◌≤◌, ◌<◌, ◌^◌, true, [], map, length, IfOk, OnOk, flat_map};
ghost use Rattle.oc_bytes.specs.Outcome.{MakesList};
ghost use Rattle.path_tree.specs.Texts.{is_name};
ghost use Rattle.session_script.specs.declared.script.Stage.TheVariants.{During, After};
ghost use Rattle.session_script.specs.Scripts.{act_of, AddsActs, task_line, finale_line, script_of_parts};
ghost use Rattle.session_script.specs.Ranges.{AreListed, IsInRanges};
ghost use Rattle.session_script.specs.Generated.{number_lines, generated_script};
ghost use Rattle.session_script.specs.Generated as specs;

use crate::script::{Finale, Parts, Task, TaskLine};
use oc_bytes::NoMemory;
use path_tree::Path;
use std::alloc::{AllocError, Global};
use ts_packet::Fate;

/// How many files a commit puts.
const FILES_IN_COMMIT: u32 = 8;

/// How many commits an editor makes.
const COMMITS: u32 = 4;

/// How many files an editor puts.
const FILES: u32 = FILES_IN_COMMIT * COMMITS;

/// How often a reader opens a path before the end.
const OPENS: u32 = 64;

/// How many draws the feeder makes, of how many items each.
const DRAWS: u32 = 64;

const ITEMS: u32 = 256;

/// How many packets arrive before one is lost.
const KEPT: usize = 49;

/// The reader who opens all files at the end.
const LAST_READER: u32 = 1;

/// The script of a session of this size, 1 to 16: editors and readers 1 to `size`, with all lines
/// below `start`.
///
/// - Editor E makes 4 commits of 8 files, `/eE/f0` to `/eE/f31`. File K has 500 * (1 + (E + K) mod
///   40) bytes, filled from (E + K) mod 256.
/// - The feeder makes 64 draws of 256 sections. Of each 50 packets the last is lost.
/// - Reader R makes 64 opens. Open J is of file J mod 32 of editor 1 + (R + J) mod `size`.
/// - The script settles, and reader 1 opens each file, by editors.
pub fn generated(alloc: Global, size: u32) -> Result<Parts, NoMemory>
    requires least { 1 ≤ size }
    requires most { size ≤ 16 }
    ensures script { IfOk result (λ parts. script_of_parts parts ≡ generated_script size) }
    ensures ranges { IfOk result (λ parts. IsInRanges (script_of_parts parts)) }
    ensures listed { IfOk result (λ parts. AreListed (script_of_parts parts)) }
{
    let tasks = tasks_during(alloc, size)?;
    let settle = tasks.len() as u32 + 1;
    Ok(Parts {
        editors: numbers(alloc, size)?,
        readers: numbers(alloc, size)?,
        before: Vec::new(alloc),
        during: number_tasks(alloc, tasks)?,
        settle: Some(settle),
        finales: finales(alloc, size, settle + 1)?,
    })
}

fn numbers(alloc: Global, size: u32) -> Result<Vec<u32>, NoMemory>
    requires { size ≤ 16 }
    ensures { MakesList result (specs.numbers size) }
{
    (1..size + 1).collect(alloc)
}

fn tasks_during(alloc: Global, size: u32) -> Result<Vec<Task>, NoMemory>
    requires least { 1 ≤ size }
    requires most { size ≤ 16 }
    ensures acts { IfOk result (λ tasks. map act_of tasks.items ≡ specs.acts_during size) }
    ensures count { IfOk result (λ tasks.
        length tasks.items ≡ (FILES + COMMITS + OPENS) * size + DRAWS) }
{
    let mut tasks = Vec::new(alloc);
    put_files(alloc, &mut tasks, size)?;
    put_draws(alloc, &mut tasks)?;
    put_opens(alloc, &mut tasks, size)?;
    Ok(tasks)
}

fn put_files(alloc: Global, tasks: &mut Vec<Task>, size: u32) -> Result<(), NoMemory>
    requires { size ≤ 16 }
    ensures { OnOk result (AddsActs tasks.old tasks.new
        (flat_map specs.lines_of_editor (specs.numbers size))) }
{
    for editor in 1..size + 1 {
        put_commits(alloc, tasks, editor)?;
    }
    Ok(())
}

fn put_commits(alloc: Global, tasks: &mut Vec<Task>, editor: u32) -> Result<(), NoMemory>
    requires { editor ≤ 16 }
    ensures { OnOk result (AddsActs tasks.old tasks.new (specs.lines_of_editor editor)) }
{
    for commit in 0..COMMITS {
        put_commit(alloc, tasks, editor, commit)?;
    }
    Ok(())
}

/// `commit` is 0 to 3, and its files come first.
fn put_commit(
    alloc: Global,
    tasks: &mut Vec<Task>,
    editor: u32,
    commit: u32,
) -> Result<(), NoMemory>
    requires editor { editor ≤ 16 }
    requires commit { commit < COMMITS }
    ensures { OnOk result (AddsActs tasks.old tasks.new (specs.commit_of editor commit)) }
{
    for place in 0..FILES_IN_COMMIT {
        let file = FILES_IN_COMMIT * commit + place;
        let path = file_path(alloc, editor, file)?;
        let kind = editor + file;
        let bytes = 500 * (1 + kind % 40);
        tasks.push(Task::Fill(editor, path, bytes, (kind % 256) as u8))?;
    }
    tasks.push(Task::Commit(editor))?;
    Ok(())
}

fn put_draws(alloc: Global, tasks: &mut Vec<Task>) -> Result<(), NoMemory>
    ensures { OnOk result (AddsActs tasks.old tasks.new specs.lines_of_feeder) }
{
    for _draw in 0..DRAWS {
        tasks.push(Task::Draw(ITEMS, fates(alloc)?))?;
    }
    Ok(())
}

#[tactic(auto, unfolding(crate::specs::Generated::fates))]
fn fates(alloc: Global) -> Result<Vec<Fate>, NoMemory>
    ensures { MakesList result specs.fates }
{
    let mut fates = vec![in alloc; Fate::Keep; KEPT]?;
    fates.push(Fate::Lose)?;
    Ok(fates)
}

fn put_opens(alloc: Global, tasks: &mut Vec<Task>, size: u32) -> Result<(), NoMemory>
    requires least { 1 ≤ size }
    requires most { size ≤ 16 }
    ensures { OnOk result (AddsActs tasks.old tasks.new
        (flat_map (specs.lines_of_reader size) (specs.numbers size))) }
{
    for reader in 1..size + 1 {
        put_opens_of(alloc, tasks, size, reader)?;
    }
    Ok(())
}

fn put_opens_of(
    alloc: Global,
    tasks: &mut Vec<Task>,
    size: u32,
    reader: u32,
) -> Result<(), NoMemory>
    requires least { 1 ≤ size }
    requires most { size ≤ 16 }
    requires reader { reader ≤ 16 }
    ensures { OnOk result (AddsActs tasks.old tasks.new (specs.lines_of_reader size reader)) }
{
    for turn in 0..OPENS {
        let path = file_path(alloc, 1 + (reader + turn) % size, turn % FILES)?;
        tasks.push(Task::Open(reader, path))?;
    }
    Ok(())
}

/// Numbered from 1.
fn number_tasks(alloc: Global, tasks: Vec<Task>) -> Result<Vec<TaskLine>, NoMemory>
    requires { length tasks.items + 1 < 2 ^ 32 }
    ensures { IfOk result (λ lines.
        map (task_line During) lines.items ≡ number_lines 1 During (map act_of tasks.items)) }
{
    let mut lines = Vec::new(alloc);
    let mut number = 1;
    for task in tasks {
        lines.push(TaskLine { number, task })?;
        number += 1;
    }
    Ok(lines)
}

/// Numbered from `first`.
fn finales(alloc: Global, size: u32, first: u32) -> Result<Vec<Finale>, NoMemory>
    requires size { size ≤ 16 }
    requires room { first + FILES * size < 2 ^ 32 }
    ensures { IfOk result (λ finales. map finale_line finales.items
        ≡ number_lines first After (flat_map specs.finales_of (specs.numbers size))) }
{
    let mut finales = Vec::new(alloc);
    for editor in 1..size + 1 {
        put_finales(alloc, &mut finales, editor, first + FILES * (editor - 1))?;
    }
    Ok(finales)
}

fn put_finales(
    alloc: Global,
    finales: &mut Vec<Finale>,
    editor: u32,
    first: u32,
) -> Result<(), NoMemory>
    requires editor { editor ≤ 16 }
    requires room { first + FILES < 2 ^ 32 }
    ensures { OnOk result (map finale_line finales.new.items
        ≡ map finale_line finales.old.items ++ number_lines first After (specs.finales_of editor)) }
{
    for file in 0..FILES {
        finales.push(Finale {
            number: first + file,
            reader: LAST_READER,
            path: file_path(alloc, editor, file)?,
        })?;
    }
    Ok(())
}

/// Editors are 1 to 16, files 0 to 31.
fn file_path(alloc: Global, editor: u32, file: u32) -> Result<Path, NoMemory>
    requires editor { editor ≤ 16 }
    requires file { file < FILES }
    ensures { IfOk result (λ path. path ≡ specs.file_path editor file) }
{
    let Ok(root) = Path::parse(alloc, b"/") else {
        return Err(AllocError);
    };
    let first = format!(in alloc; "e{editor}")?;
    let folder = entry(&root, first.as_str())?;
    let second = format!(in alloc; "f{file}")?;
    entry(&folder, second.as_str())
}

fn entry(folder: &Path, name: &str) -> Result<Path, NoMemory>
    requires name { is_name name.now ≡ true }
    requires depth { length folder.now < 16 }
    ensures { IfOk result (λ entry. entry ≡ folder.now ++ name.now ∷ []) }
{
    match folder.below(name.as_bytes())? {
        Some(entry) => Ok(entry),
        None => unreachable!(),
    }
}
