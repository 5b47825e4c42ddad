ghost use Rattle.std.specs.Prelude.{◌≡◌, ◌+◌, ◌-◌, ◌≤◌, ◌<◌, length, IfOk};
ghost use Rattle.std.specs.Arc.{arc_value};
ghost use Rattle.shot_board.specs.Showers.{shown_by, most_by};

use biop_object::Module;
use dsi_dii::ModuleLine;
use ior_tap::{Key, Location};
use open_history::{OpenEntry, ReaderPass, cross_threads};
use path_resolver::{Answer, Gateway, Held, Shot};
use path_tree::Path;
use shot_board::{Shower, board};
use std::alloc::{AllocError, Global};
use std::sync::{Arc, Wait};
use std::test::Fail;

/// The bytes of a module: the gateway under key 1, with the file `f` of five bytes under key 2.
fn module_bytes(alloc: Global, content: &[u8]) -> Result<Vec<u8>, AllocError> {
    let mut bytes = Vec::new(alloc);
    bytes.extend_from_slice(
        b"BIOP\x01\x00\x00\x00\x00\x00\x00\x61\x04\x00\x00\x00\x01\x00\x00\x00\x04srg\x00",
    )?;
    bytes.extend_from_slice(
        b"\x00\x00\x00\x00\x00\x00\x4D\x00\x01\x01\x02f\x00\x04fil\x00\x01\x00\x00\x00\x04fil\x00",
    )?;
    bytes.extend_from_slice(
        b"\x00\x00\x00\x01\x49\x53\x4F\x06\x00\x00\x00\x2B\x00\x02\x49\x53\x4F\x50\x0D\x00\x00\x00\x01",
    )?;
    bytes.extend_from_slice(
        b"\x00\x01\x01\x00\x04\x00\x00\x00\x02\x49\x53\x4F\x40\x12\x01\x00\x00\x00\x16\x00\x01\x0A",
    )?;
    bytes.extend_from_slice(b"\x00\x01\x80\x00\x00\x02\xFF\xFF\xFF\xFF\x00\x00")?;
    bytes.extend_from_slice(
        b"BIOP\x01\x00\x00\x00\x00\x00\x00\x1D\x04\x00\x00\x00\x02\x00\x00\x00\x04fil\x00",
    )?;
    bytes.extend_from_slice(b"\x00\x00\x00\x00\x00\x00\x09\x00\x00\x00\x05")?;
    bytes.extend_from_slice(content)?;
    Ok(bytes)
}

/// The module 1 with that file, held whole.
fn held(alloc: Global, content: &[u8]) -> Result<Held, AllocError> {
    let line = ModuleLine {
        id: 1,
        size: 0,
        version: 0,
        compressed: false,
    };
    match Module::read(alloc, module_bytes(alloc, content)?) {
        Ok(module) => Ok(Held {
            identification: 1,
            line,
            module: Some(Arc::new(alloc, module)?),
        }),
        Err((error, _)) => Err(error),
    }
}

/// What is held of carousel 1, with that file.
fn shot_of(alloc: Global, number: u64, content: &[u8]) -> Result<Arc<Shot>, AllocError>
    ensures { IfOk result (λ shot. (arc_value shot).number ≡ number) }
{
    let mut table = Vec::new(alloc);
    table.push(held(alloc, content)?)?;
    let location = Location {
        carousel: 1,
        module: 1,
        key: Key::new(vec![in alloc; 0, 0, 0, 1]?),
    };
    let shot = Shot {
        number,
        draws: number,
        mark: 0,
        epoch: 0,
        label: Some(number),
        held: vec![in alloc; 1]?,
        gateway: Some(Gateway {
            location,
            delivery: None,
        }),
        table,
    };
    Ok(Arc::new(alloc, shot)?)
}

/// Opens the path of one name, which is this byte.
fn open_one(pass: &mut ReaderPass, alloc: Global, name: u8) -> Result<(), Fail>
    requires { length pass.old.opens < pass.old.room }
    ensures { IfOk result (λ _.
        (length pass.new.opens ≡ length pass.old.opens + 1) × (pass.new.room ≡ pass.old.room)) }
{
    let path = Path::parse(alloc, &[b'/', name])?;
    match pass.open_path(path) {
        Ok(_) => Ok(()),
        Err(_) => Err(Fail::from("no memory for an open")),
    }
}

/// Opens the paths of one name from `first` on and before `end`.
fn open_each(pass: &mut ReaderPass, alloc: Global, first: u8, end: u8) -> Result<(), Fail>
    requires { (first ≤ end) × (length pass.old.opens + (end - first) ≤ pass.old.room) }
    ensures { IfOk result (λ _.
        (length pass.new.opens ≡ length pass.old.opens + (end - first))
        × (pass.new.room ≡ pass.old.room)) }
{
    for name in first..end {
        open_one(pass, alloc, name)?;
    }
    Ok(())
}

/// Opens 65 paths twice on the first shot, and once on a second one. It answers how many answers are kept after the 130th
/// open, after the next one and at the end.
fn opened<R: Wait>(
    rt: &R,
    alloc: Global,
    shower: &mut Shower<Shot>,
    pass: &mut ReaderPass,
    second: Arc<Shot>,
) -> Result<(usize, usize, usize), Fail>
    requires shot { ((arc_value second).number ≡ length (shown_by shower.old))
        × ((arc_value second).number ≤ most_by shower.old) }
    requires room { length pass.old.opens + 195 ≤ pass.old.room }
{
    open_each(pass, alloc, 48, 113)?;
    open_each(pass, alloc, 48, 113)?;
    let first = pass.cached();
    if shower.show(rt, second).is_err() {
        return Err(Fail::from("no memory for a second shot"));
    }
    open_one(pass, alloc, 48)?;
    let next = pass.cached();
    open_each(pass, alloc, 49, 113)?;
    Ok((first, next, pass.cached()))
}

/// An open's shot, and the first byte of the file that it answered.
fn told(open: Option<&OpenEntry>) -> Option<(u64, u8)> {
    let open = open?;
    match &open.answer {
        Answer::File(file) => Some((open.shot, *file.bytes().first()?)),
        _ => None,
    }
}

#[test]
fn kept_answers_are_those_of_the_last_shot(rt: HostRuntime) -> Result<(), Fail> {
    let alloc = rt.alloc();
    cross_threads();
    let first = shot_of(alloc, 0, b"hello")?;
    let second = shot_of(alloc, 1, b"world")?;
    let (mut shower, mut viewers) = board(&rt, alloc, first, 1, 1)?;
    let Some(viewer) = viewers.pop() else {
        panic!(rt; "no viewer")
    };
    let Ok(mut pass) = ReaderPass::new(alloc, 7, viewer, 195) else {
        panic!(rt; "no memory for a pass")
    };
    let kept = opened(&rt, alloc, &mut shower, &mut pass, second);
    shower.close(&rt);
    assert_eq!(rt; kept?, (64, 1, 64));
    let opens = pass.opens();
    assert_eq!(rt; (pass.reader(), opens.len()), (7, 195));
    assert_eq!(rt; told(opens.get(54)), Some((0, b'h')));
    assert_eq!(rt; told(opens.get(119)), Some((0, b'h')));
    assert_eq!(rt; told(opens.get(184)), Some((1, b'w')));
    assert_eq!(rt; told(opens.get(183)), None);
    Ok(())
}

#[test]
fn a_pass_opens_on_where_its_board_is_closed(rt: HostRuntime) -> Result<(), Fail> {
    let alloc = rt.alloc();
    let first = shot_of(alloc, 0, b"hello")?;
    let (shower, mut viewers) = board(&rt, alloc, first, 1, 0)?;
    let Some(viewer) = viewers.pop() else {
        panic!(rt; "no viewer")
    };
    let Ok(mut pass) = ReaderPass::new(alloc, 7, viewer, 2) else {
        panic!(rt; "no memory for a pass")
    };
    shower.close(&rt);
    open_each(&mut pass, alloc, b'f', b'h')?;
    let opens = pass.opens();
    assert_eq!(rt; told(opens.get(0)), Some((0, b'h')));
    assert!(rt; matches!(opens[1].answer, Answer::NoSuch));
    Ok(())
}
