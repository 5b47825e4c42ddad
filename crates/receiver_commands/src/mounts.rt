ghost use Rattle.std.specs.Prelude.{◌≡◌, [], Some, None, IfOk, IfErr, IfSome, OnOk};
ghost use Rattle.std.specs.List.{flat_map};
ghost use Rattle.oc_bytes.specs.Outcome.{Spells, MakesList};
ghost use Rattle.mount_table.specs.Mounts.{refusal_of, refusal_in, names_of, IsTableOf};
ghost use Rattle.mount_table.specs.Stands.{StandsFor, mounts_of};
ghost use Rattle.shell_streams.specs.Carriers.{all_packets};
ghost use Rattle.shell_streams.specs.Sending.{Puts, IsInTime, IsFlushed};
ghost use Rattle.shell_words.specs.Texts as texts;
ghost use Rattle.receiver_commands.specs.Over.{over, out_over};
ghost use Rattle.receiver_commands.specs.Open.{asks_paths, reply_by};
ghost use Rattle.receiver_commands.specs.Replies.{Replies};
ghost use Rattle.receiver_commands.specs.Mounts.{ServesMounts, mounts_in, mounted_answer};
ghost use Rattle.receiver_commands.specs.Inner.Mounts.{root_line, root_text};

use crate::answers::{Answerer, put_entry, put_name, write_answers};
use crate::open::status_of;
use crate::status::Status;
use carousel_profile::PACKET_LENGTH;
use mount_table::{Mount, Mounted, Mounts, TableFault};
use oc_bytes::{NoMemory, Source};
use path_resolver::Answer;
use path_tree::{Name, Path};
use shell_streams::{Output, OutputFault, PacketListener, hear_all_packets};
use std::alloc::Global;

#[derive(Drop)]
struct Mounting {
    mounts: Mounts,
}

impl PacketListener for Mounting {
    ghost use Rattle.std.specs.Prelude.{◌≡◌};
    ghost use Rattle.mount_table.specs.Stands.{StandsFor, mounts_of};

    ghost heard = { λ start now packets.
        (mounts_of now.mounts ≡ mounts_of start.mounts) × StandsFor now.mounts packets };

    fn hear(&mut self, packet: &[u8; PACKET_LENGTH]) -> Result<(), NoMemory> {
        self.mounts.feed(packet)
    }
}

impl Answerer for Mounts {
    ghost use Rattle.receiver_commands.specs.Mounts.{AreItsAnswers};

    ghost answers = { λ mounts answer. AreItsAnswers mounts answer };

    fn put_answer<O: Output>(
        &self,
        alloc: Global,
        path: &Path,
        out: &mut O,
    ) -> Result<bool, OutputFault> {
        let mounted = self.open_path(path)?;
        match mounted {
            Mounted::Root => {
                put_root(alloc, self, out)?;
                Ok(true)
            }
            Mounted::NoMount => put_entry(alloc, path, &Answer::NoSuch, out),
            Mounted::At(_, answer) => put_entry(alloc, path, &answer, out),
        }
    }
}

/// Writes the answers to the paths in a tree of several carousels. `entries` has their names, each
/// with its PID. A path's first name is a carousel's; `open` with that PID answers the rest. The
/// root is a folder of the names, in the order of their bytes.
///
/// `Words` comes if [`Mounts::new`] refuses the entries, before anything is read. Else the whole
/// input is read before anything is written.
pub fn mounts<S: Source, O: Output>(
    alloc: Global,
    entries: Vec<(Name, u16)>,
    paths: &[Path],
    source: &mut S,
    out: &mut O,
) -> Status
    requires { IsFlushed (O.state out.old) }
    ensures serves { ServesMounts entries.items paths.now result
        (over S.left S.faults source.old source.new) (out_over O.state out.old out.new) }
    ensures same { (O.state out.new).name ≡ (O.state out.old).name }
    ensures in_time { IsInTime (O.state out.old) (O.state out.new) }
{
    match table_of(alloc, entries) {
        Ok(table) => serve(alloc, table, paths, source, out),
        Err(fault) => Status::from(fault),
    }
}

fn table_of(alloc: Global, entries: Vec<(Name, u16)>) -> Result<Mounts, TableFault>
    ensures refused { IfErr result (λ fault.
        IfSome (refusal_in fault) (λ f. refusal_of (mounts_in entries.items) ≡ Some f)) }
    ensures accepted { OnOk result (refusal_of (mounts_in entries.items) ≡ None) }
    ensures table { IfOk result (λ m. IsTableOf (mounts_in entries.items) (mounts_of m)) }
    ensures stands { IfOk result (λ m. StandsFor m []) }
{
    let mounts = listed(alloc, entries)?;
    Mounts::new(alloc, mounts)
}

fn listed(alloc: Global, entries: Vec<(Name, u16)>) -> Result<Vec<Mount>, NoMemory>
    ensures { MakesList result (mounts_in entries.items) }
{
    let mut mounts = Vec::with_capacity(alloc, entries.len())?;
    for (name, pid) in entries {
        mounts.push(Mount { name, pid })?;
    }
    Ok(mounts)
}

fn serve<S: Source, O: Output>(
    alloc: Global,
    table: Mounts,
    paths: &[Path],
    source: &mut S,
    out: &mut O,
) -> Status
    requires pending { IsFlushed (O.state out.old) }
    requires stands { StandsFor table [] }
    ensures replies { Replies all_packets
        (reply_by (mounted_answer (mounts_of table)) (asks_paths paths.now)) result
        (over S.left S.faults source.old source.new) (out_over O.state out.old out.new) }
    ensures same { (O.state out.new).name ≡ (O.state out.old).name }
    ensures in_time { IsInTime (O.state out.old) (O.state out.new) }
{
    let mut mounting = Mounting { mounts: table };
    match hear_all_packets(alloc, source, &mut mounting) {
        Ok(()) => status_of(write_answers(alloc, &mounting.mounts, paths, out)),
        Err(fault) => Status::from(fault),
    }
}

fn put_root<O: Output>(alloc: Global, mounts: &Mounts, out: &mut O) -> Result<(), OutputFault>
    ensures { Puts result (O.state out.old) (O.state out.new) (root_text (mounts_of mounts.now)) }
{
    let line = root_line(alloc, mounts.len())?;
    out.put(line.as_bytes())?;
    put_mount_names(alloc, mounts, out)
}

fn root_line(alloc: Global, count: usize) -> Result<String, NoMemory>
    ensures { Spells result (root_line count) }
{
    format!(in alloc; "/ folder {count}\n")
}

fn put_mount_names<O: Output>(
    alloc: Global,
    mounts: &Mounts,
    out: &mut O,
) -> Result<(), OutputFault>
    ensures { Puts result (O.state out.old) (O.state out.new)
        (flat_map texts.name_line (names_of (mounts_of mounts.now))) }
{
    for i in 0..mounts.len() {
        put_name(alloc, mounts.mount(i).name.bytes(), out)?;
    }
    Ok(())
}
