//! Real ends at their worst: the program makes a folder with links, loops of them and closed doors, a folder in an input's place,
//! a full device, and a file that shrinks while it is read, and it writes files where something stands or nothing can. It prints what
//! the system's ends make of each, and the gate compares that.
#![tactic(auto)]

use folder_store::{Folders, OsFolders, OsStore, Store};
use oc_bytes::{Sink, Source, StdSink, StdSource};
use std::fs::{File, OpenFile, OpenOptions, Permissions};
use std::os::unix;
use std::os::unix::fs::PermissionsExt;
use std::{fs, io};

fn main(rt: HostRuntime) -> io::Result<()> {
    lay(&rt)?;
    let mut folders = OsFolders::new(&rt);
    for path in ["F", "F/d", "F/a", "F/loop", "F/there", "F/nowhere", "F/a/b"] {
        print_list(&rt, &mut folders, path)?;
    }
    for path in [
        "F/a",
        "F/d",
        "F/shut",
        "F/loop",
        "F/there",
        "F/nowhere",
        "F/a/b",
    ] {
        print_read(&rt, &mut folders, path)?;
    }
    let faults = folders.faults();
    println!(rt; "{faults} faults")?;
    print_folder_as_input(&rt)?;
    print_full_device(&rt)?;
    print_shrinking_file(&rt)?;
    print_writing(&rt)?;
    fs::remove_dir_all(&rt, "F")
}

/// The folder F: a file, a folder with a file, a file that nobody may read, a link to a file and one to a folder, a link to itself,
/// two links to each other, and one to nothing.
fn lay(rt: &HostRuntime) -> io::Result<()> {
    let _ = fs::remove_dir_all(rt, "F");
    fs::create_dir(rt, "F")?;
    fs::create_dir(rt, "F/d")?;
    fs::write(rt, "F/a", "hello")?;
    fs::write(rt, "F/d/b", "")?;
    fs::write(rt, "F/shut", "secret")?;
    File::open(rt, "F/shut")?.set_permissions(Permissions::from_mode(0))?;
    unix::fs::symlink(rt, "a", "F/link")?;
    unix::fs::symlink(rt, "d", "F/door")?;
    unix::fs::symlink(rt, "loop", "F/loop")?;
    unix::fs::symlink(rt, "there", "F/back")?;
    unix::fs::symlink(rt, "back", "F/there")?;
    unix::fs::symlink(rt, "nothing", "F/dangling")
}

fn print_list<F: Folders>(rt: &HostRuntime, folders: &mut F, path: &str) -> io::Result<()> {
    match folders.list(rt.alloc(), path) {
        Ok(mut entries) => {
            println!(rt; "{path} is a folder")?;
            entries.sort_unstable_by(|entry, other| entry.name.cmp(&other.name));
            for entry in &entries {
                let name = entry.name.as_str();
                let kind = entry.kind;
                println!(rt; "    {name} {kind:?}")?;
            }
        }
        Err(fault) => println!(rt; "{path} as a folder: {fault:?}")?,
    }
    Ok(())
}

fn print_read<F: Folders>(rt: &HostRuntime, folders: &mut F, path: &str) -> io::Result<()> {
    match folders.read(rt.alloc(), path, 100) {
        Ok(bytes) => {
            let count = bytes.len();
            println!(rt; "{path} is a file of {count} bytes")
        }
        Err(fault) => println!(rt; "{path} as a file: {fault:?}"),
    }
}

/// Folders and files that are made where nothing stands, where something does, and where nothing can.
fn print_writing(rt: &HostRuntime) -> io::Result<()> {
    let mut store = OsStore::new(rt);
    for path in [
        "F/new",
        "F/new/d",
        "F/new",
        "F/a",
        "F/loop",
        "F/dangling",
        "F/nowhere/d",
        "F/a/b",
    ] {
        print_made(rt, &mut store, path)?;
    }
    for path in [
        "F/new/a",
        "F/new/a",
        "F/new/d",
        "F/new/.",
        "F/new/..",
        "F/new/.carousel-part",
        "F/loop",
        "F/dangling",
        "F/nowhere/a",
        "F/a/b",
    ] {
        print_written(rt, &mut store, path)?;
    }
    print_shut_out(rt, &mut store)?;
    let faults = store.faults();
    println!(rt; "{faults} faults")?;
    let mut folders = OsFolders::new(rt);
    print_list(rt, &mut folders, "F/new")?;
    print_read(rt, &mut folders, "F/new/a")?;
    print_read(rt, &mut folders, "F/.carousel-part")
}

/// Files below a folder in which nobody may write, of a name that is too long, and beside one that has the name under which files are
/// written.
fn print_shut_out<S: Store>(rt: &HostRuntime, store: &mut S) -> io::Result<()> {
    File::open(rt, "F/new/d")?.set_permissions(Permissions::from_mode(0o555))?;
    print_written(rt, store, "F/new/d/a")?;
    let mut long = String::from_str(rt.alloc(), "F/new/")?;
    for _ in 0..256u32 {
        long.push('n')?;
    }
    let written = store.write_new(rt.alloc(), long.as_str(), b"hello");
    println!(rt; "a name of 256 bytes written: {written:?}")?;
    fs::write(rt, "F/.carousel-part", "of another")?;
    print_written(rt, store, "F/b")
}

fn print_made<S: Store>(rt: &HostRuntime, store: &mut S, path: &str) -> io::Result<()> {
    let made = store.make_folder(rt.alloc(), path);
    println!(rt; "{path} made: {made:?}")
}

fn print_written<S: Store>(rt: &HostRuntime, store: &mut S, path: &str) -> io::Result<()> {
    let written = store.write_new(rt.alloc(), path, b"hello");
    println!(rt; "{path} written: {written:?}")
}

fn print_folder_as_input(rt: &HostRuntime) -> io::Result<()> {
    let mut source = StdSource::new(File::open(rt, "F")?);
    let mut into = [0; 9];
    let read = source.read(&mut into);
    let faults = source.faults();
    println!(rt; "a folder as input: {read:?}, {faults} faults")
}

fn print_full_device(rt: &HostRuntime) -> io::Result<()> {
    let mut sink = StdSink::new(OpenOptions::new().write(true).open(rt, "/dev/full")?);
    let wrote = sink.write(b"hello");
    let faults = sink.faults();
    println!(rt; "a full device: {wrote:?}, {faults} faults")
}

/// Three bytes of the file are read, and then it has two.
fn print_shrinking_file(rt: &HostRuntime) -> io::Result<()> {
    let mut source = StdSource::new(File::open(rt, "F/a")?);
    let mut into = [0; 3];
    let before = source.read(&mut into);
    OpenOptions::new().write(true).open(rt, "F/a")?.set_len(2)?;
    let after = source.read(&mut into);
    let faults = source.faults();
    println!(rt; "a file that shrinks: {before:?} and then {after:?}, {faults} faults")
}
