ghost use Rattle.std.specs.Prelude.{◌≡◌, [], Some, IsTrue, IfOk, OnErr, MatchResult};
ghost use Rattle.std.specs.Option.{option_map};
ghost use Rattle.std.specs.Arc.{arc_value};
ghost use Rattle.biop_object.specs.Objects.{view_binding};
ghost use Rattle.biop_object.specs.ObjectReading.{found_of};
ghost use Rattle.path_resolver.specs.Resolving as resolving;
ghost use Rattle.path_resolver.specs.Resolving.{answer_of, walk, module_of, is_shared};
ghost use Rattle.path_resolver.specs.Places as places;
ghost use Rattle.path_resolver.specs.Places.{last_target, module_at_end};
ghost use Rattle.path_resolver.specs.Shots.{held_of, view_listed, answers_of};
ghost use Rattle.path_resolver.specs.Inner.Targets.{view_target, BindingGoes, ObjectGoes, StepGoes, IsModuleAt, IsNoModule};

use crate::answer::{Answer, FileRef, FolderRef};
use crate::holding::{Holding, Listed};
use crate::shot::{Gateway, Shot};
use biop_object::{Binding, Found, Module};
use dsi_dii::TransactionId;
use ior_tap::{Location, biop_of, delivery_of};
use oc_bytes::NoMemory;
use path_tree::Path;
use std::sync::Arc;

/// A location, and the transactionId of the DII that delivers it.
#[derive(Drop)]
struct Target<'a> {
    location: &'a Location,
    delivery: Option<u32>,
}

#[derive(Drop)]
enum Step<'a> {
    On(Target<'a>),
    Ends(Answer),
}

fn is_elsewhere(carousel: u32, target: &Target) -> bool
    ensures { result ≡ resolving.is_elsewhere carousel (view_target target.now) }
{
    let other = target.location.carousel != carousel;
    match target.delivery {
        None => other,
        Some(transaction) => other || TransactionId(transaction).identification() == 0,
    }
}

fn sought<'a, H: Holding>(held: &'a H, target: &Target) -> Option<Listed<'a>>
    ensures { option_map view_listed result
        ≡ module_of (H.state held.now) (view_target target.now) }
{
    let id = target.location.module;
    match target.delivery {
        None => held.listed(id),
        Some(transaction) => held.delivered(TransactionId(transaction).identification(), id),
    }
}

fn unlisted<H: Holding>(held: &H, target: &Target) -> Answer
    ensures { result ≡ resolving.unlisted (H.state held.now) (view_target target.now) }
{
    let id = target.location.module;
    match target.delivery {
        None => Answer::NotYet(id),
        Some(transaction) => {
            if held.is_held(TransactionId(transaction).identification()) {
                Answer::Dangling(id)
            } else {
                Answer::NotYet(id)
            }
        }
    }
}

fn module_at<'a, H: Holding>(
    held: &'a H,
    carousel: u32,
    target: &Target,
) -> Result<&'a Arc<Module>, Answer>
    ensures { MatchResult result
        (λ m. IsModuleAt carousel (H.state held.now) (view_target target.now) (arc_value m.now))
        (λ a. IsNoModule carousel (H.state held.now) (view_target target.now) a) }
{
    let id = target.location.module;
    if is_elsewhere(carousel, target) {
        return Err(Answer::Elsewhere);
    }
    match sought(held, target) {
        None => Err(unlisted(held, target)),
        Some(listed) => {
            if listed.line.compressed {
                return Err(Answer::Compressed(id));
            }
            match listed.module {
                None => Err(Answer::NotYet(id)),
                Some(module) => Ok(module),
            }
        }
    }
}

fn object_answer(home: &Arc<Module>, location: &Location) -> Result<Answer, NoMemory>
    ensures answer { IfOk result (λ a.
        a ≡ resolving.answer_at_end location.now.module (arc_value home.now)
        (found_of (arc_value home.now) location.now.key)) }
    ensures memory { OnErr result
        (IsTrue
        (is_shared
        (resolving.answer_at_end location.now.module (arc_value home.now)
        (found_of (arc_value home.now) location.now.key)))) }
{
    let id = location.module;
    match home.find(location.key.bytes()) {
        Found::File(span) => Ok(Answer::File(FileRef::new(home, span)?)),
        Found::Folder(folder) => Ok(Answer::Folder(FolderRef::new(home, folder)?)),
        Found::Other => Ok(Answer::OtherKind(id)),
        Found::Bad(place) => Ok(Answer::Bad(id, place)),
        Found::Missing => Ok(Answer::Dangling(id)),
    }
}

fn end_of<H: Holding>(held: &H, carousel: u32, target: &Target) -> Result<Answer, NoMemory>
    ensures answer { IfOk result (λ a.
        a ≡ walk carousel (H.state held.now) [] (view_target target.now)) }
    ensures memory { OnErr result
        (IsTrue (is_shared (walk carousel (H.state held.now) [] (view_target target.now)))) }
{
    match module_at(held, carousel, target) {
        Ok(module) => object_answer(module, target.location),
        Err(answer) => Ok(answer),
    }
}

fn along(binding: Option<&Binding>) -> Step<'_>
    ensures { BindingGoes (option_map (λ b. view_binding b.now) binding.entry) result }
{
    match binding {
        None => Step::Ends(Answer::NoSuch),
        Some(binding) => match biop_of(&binding.target) {
            None => Step::Ends(Answer::Elsewhere),
            Some((location, binder)) => Step::On(Target {
                location,
                delivery: delivery_of(binder),
            }),
        },
    }
}

#[tactic(auto, using(crate::proofs::Finding::folder_goes))]
fn next_in<'a>(home: &'a Arc<Module>, location: &Location, name: &[u8]) -> Step<'a>
    ensures { ObjectGoes name.now location.now.module (arc_value home.now)
        (found_of (arc_value home.now) location.now.key) result }
{
    let id = location.module;
    match home.find(location.key.bytes()) {
        Found::File(_) => Step::Ends(Answer::NoSuch),
        Found::Folder(folder) => along(home.binding(folder, name)),
        Found::Other => Step::Ends(Answer::OtherKind(id)),
        Found::Bad(place) => Step::Ends(Answer::Bad(id, place)),
        Found::Missing => Step::Ends(Answer::Dangling(id)),
    }
}

fn leads<'a, H: Holding>(held: &'a H, carousel: u32, target: &Target, name: &[u8]) -> Step<'a>
    ensures { StepGoes carousel (H.state held.now) name.now (view_target target.now) result }
{
    match module_at(held, carousel, target) {
        Ok(module) => next_in(module, target.location, name),
        Err(answer) => Step::Ends(answer),
    }
}

fn walk_from<H: Holding>(held: &H, gateway: &Gateway, path: &Path) -> Result<Answer, NoMemory>
    ensures answer { IfOk result (λ a.
        a ≡ walk gateway.now.location.carousel (H.state held.now) path.now
        (gateway.now.location, gateway.now.delivery)) }
    ensures memory { OnErr result
        (IsTrue
        (is_shared
        (walk gateway.now.location.carousel (H.state held.now) path.now
        (gateway.now.location, gateway.now.delivery)))) }
{
    let carousel = gateway.location.carousel;
    let mut target = Target {
        location: &gateway.location,
        delivery: gateway.delivery,
    };
    for i in 0..path.len() {
        match leads(held, carousel, &target, path.name(i)) {
            Step::On(next) => target = next,
            Step::Ends(answer) => return Ok(answer),
        }
    }
    end_of(held, carousel, &target)
}

fn home_from<H: Holding>(held: &H, gateway: &Gateway, path: &Path) -> Option<u16>
    ensures { result ≡ module_at_end
        (last_target gateway.now.location.carousel (H.state held.now) path.now
        (Some (gateway.now.location, gateway.now.delivery))) }
{
    let carousel = gateway.location.carousel;
    let mut target = Target {
        location: &gateway.location,
        delivery: gateway.delivery,
    };
    for i in 0..path.len() {
        match leads(held, carousel, &target, path.name(i)) {
            Step::On(next) => target = next,
            Step::Ends(_) => return None,
        }
    }
    Some(target.location.module)
}

/// The id of the module that has, or will bring, a path's object: that of the walk's last location.
/// `None` if the walk ends earlier, or no gateway or DII is held.
pub fn home_of(shot: &Shot, path: &Path) -> Option<u16>
    ensures { result ≡ places.home_of (held_of shot.now) path.now }
{
    match (&shot.gateway, shot.label) {
        (Some(gateway), Some(_)) => home_from(shot, gateway, path),
        _ => None,
    }
}

/// The answer to the whole path on one shot (ETSI TR 101 202, 4.7.4 and 4.7.5).
///
/// `Err` is out of memory. The walk goes from the gateway along all names. Without a gateway or a
/// label the answer is `NoCarousel`. At each location the first of these that applies decides:
///
/// - `Elsewhere`: another carousel, or a known delivery of identification 0.
/// - `NotYet`: no DII of the known delivery is held; `Dangling`: that DII doesn't list the module.
/// - `NotYet`: the delivery isn't known, and no held DII lists the module.
/// - `Compressed`; `NotYet` if the module isn't whole.
/// - `Bad`, `Dangling` or `OtherKind`: the module has no file or folder of the key.
/// - `File` if no name is left, else `NoSuch`.
/// - `Folder` if no name is left. Else the first binding of the next name leads on: `NoSuch` if
///   there is none, `Elsewhere` if its IOR has no location.
pub fn resolve(shot: &Shot, path: &Path) -> Result<Answer, NoMemory>
    ensures answer { IfOk result (λ a. a ≡ answers_of shot.now path.now) }
    ensures memory { OnErr result (IsTrue (is_shared (answers_of shot.now path.now))) }
{
    answer_on(shot, path)
}

/// The answer by the rules of `resolve`, without a shot.
pub fn answer_on<H: Holding>(held: &H, path: &Path) -> Result<Answer, NoMemory>
    ensures answer { IfOk result (λ a. a ≡ answer_of (H.state held.now) path.now) }
    ensures memory { OnErr result (IsTrue (is_shared (answer_of (H.state held.now) path.now))) }
{
    match (held.gateway(), held.label()) {
        (Some(gateway), Some(_)) => walk_from(held, gateway, path),
        _ => Ok(Answer::NoCarousel),
    }
}
