//! Several carousels under names in one tree.

use crate::resolver::{answer_text, path_at};
use carousel_profile::PACKET_LENGTH;
use mount_table::{Mount, Mounted, Mounts};
use path_tree::{Name, Path, print_name};
use std::alloc::Global;
use test_rows::{Line, Row, RowFault};

/// The table of mounts, where a row has made one.
#[derive(Drop)]
pub(crate) struct MountRows {
    table: Option<Mounts>,
}

impl MountRows {
    /// No table.
    pub(crate) fn new() -> MountRows {
        MountRows { table: None }
    }

    /// What the call of a row answers, where it is one of these.
    pub(crate) fn call(&mut self, alloc: Global, row: &Row<'_>) -> Option<Line> {
        match row.name() {
            "mounts" => Some(self.make(alloc, row)),
            "mounts-feed" => Some(self.feed(row)),
            "mounts-open" => Some(self.open(alloc, row)),
            _ => None,
        }
    }

    /// Makes a table of the mounts of a row: the mounts in its order, or why there is none.
    fn make(&mut self, alloc: Global, row: &Row<'_>) -> Line {
        match Mounts::new(alloc, mounts_of(alloc, row)) {
            Ok(table) => {
                let line = table_text(alloc, row.line(), &table);
                self.table = Some(table);
                line
            }
            Err(fault) => {
                self.table = None;
                row.line().value("", &fault)
            }
        }
    }

    /// Feeds the packets of a row, one after another.
    fn feed(&mut self, row: &Row<'_>) -> Line {
        match &mut self.table {
            Some(table) => feed_all(row, table),
            None => row.fail(RowFault::BadRow),
        }
        row.line().text("fed")
    }

    /// The answer to the path of a row.
    fn open(&self, alloc: Global, row: &Row<'_>) -> Line {
        match &self.table {
            Some(table) => opened_at(alloc, row, table),
            None => row.failed(RowFault::BadRow),
        }
    }
}

fn feed_all(row: &Row<'_>, table: &mut Mounts) {
    for place in 0..row.len() {
        row.keep(table.feed(&packet_at(row, place)));
    }
}

fn opened_at(alloc: Global, row: &Row<'_>, table: &Mounts) -> Line {
    match path_at(alloc, row, 0) {
        Ok(path) => opened(row, table, &path),
        Err(fault) => row.failed(fault),
    }
}

fn opened(row: &Row<'_>, table: &Mounts, path: &Path) -> Line {
    match table.open_path(path) {
        Ok(mounted) => mounted_text(row.line(), &mounted),
        Err(_) => row.failed(RowFault::NoMemory),
    }
}

/// The mounts of a row: each is a word for its name, and one for its PID.
fn mounts_of(alloc: Global, row: &Row<'_>) -> Vec<Mount> {
    let mut mounts = Vec::new(alloc);
    for place in (0..row.len()).step_by(2) {
        put_mount(row, place, &mut mounts);
    }
    mounts
}

/// Puts the mount whose name the word at a place says behind the others.
fn put_mount(row: &Row<'_>, place: usize, mounts: &mut Vec<Mount>) {
    let name = row.octets(place);
    if name.len() > 255 {
        return row.fail(RowFault::BadRow);
    }
    let mount = Mount {
        name: Name::new(name),
        pid: row.short(place.saturating_add(1)),
    };
    row.push(mounts, mount);
}

/// The packet that the word at a place says.
fn packet_at(row: &Row<'_>, place: usize) -> [u8; PACKET_LENGTH] {
    match <[u8; PACKET_LENGTH]>::try_from(row.octets(place).as_slice()) {
        Ok(packet) => packet,
        Err(_) => {
            row.fail(RowFault::BadRow);
            [0; PACKET_LENGTH]
        }
    }
}

/// Puts the mounts in the table's order behind what stands.
fn table_text(alloc: Global, mut line: Line, table: &Mounts) -> Line {
    for i in 0..table.len() {
        line = mount_text(alloc, line.between(" "), table.mount(i));
    }
    line.or("no mounts")
}

/// Puts a mount behind what stands.
fn mount_text(alloc: Global, line: Line, mount: &Mount) -> Line {
    line.made("", print_name(alloc, mount.name.bytes()))
        .value("=", &mount.pid)
}

/// Puts what stands at a path behind what stands: the root, no mount, or a mount's PID with its carousel's answer.
fn mounted_text(line: Line, mounted: &Mounted) -> Line {
    match mounted {
        Mounted::Root => line.text("root"),
        Mounted::NoMount => line.text("no mount"),
        Mounted::At(pid, answer) => answer_text(line.value("PID ", pid).text(": "), answer),
    }
}
