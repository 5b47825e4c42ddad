//! Whether as many words stand after a keyword as its command takes. `clap` counts them.

ghost use Rattle.std.specs.Prelude.{◌≡◌, ◌-◌, ◌<◌, Err, false, length, IfOk, OnOk};
ghost use Rattle.std.specs.String.{string_bytes};
ghost use Rattle.std.specs.List.{list_any};
ghost use Rattle.clap.specs.Words.{app_of, rule_of};
ghost use Rattle.shell_words.specs.Words.{begins_with_dash};
ghost use Rattle.shell_words.specs.Inner.Counting as counting;
ghost use Rattle.shell_words.specs.Inner.Counting.{Fits, app_of_keyword, one, one_or_more};

use crate::keyword::Keyword;
use crate::words::WordsFault;
use clap::error::ErrorKind;
use clap::{Arg, ArgAction, Command};
use std::alloc::{AllocError, Global};

/// Refuses another number of words than the command takes. The first word is the keyword.
pub fn count<'a>(alloc: Global, keyword: Keyword, words: &'a [String]) -> Result<(), WordsFault>
    requires keyword { 0 < length words.now }
    requires plain { list_any (λ word. begins_with_dash (string_bytes word)) words.now ≡ false }
    ensures fits { OnOk result (Fits keyword (length words.now - 1)) }
    ensures misfits { result ≡ Err WordsFault.Words → Fits keyword (length words.now - 1) → ⊥ }
{
    let Ok(syntax) = syntax(alloc, keyword) else {
        return Err(WordsFault::NoMemory);
    };
    match syntax.try_get_matches_from(words) {
        Ok(_) => Ok(()),
        Err(error) => match error.kind() {
            ErrorKind::OutOfMemory => Err(WordsFault::NoMemory),
            _ => Err(WordsFault::Words),
        },
    }
}

/// The words of a keyword's command, each with its name.
fn syntax<'a>(alloc: Global, keyword: Keyword) -> Result<Command<'a>, AllocError>
    ensures { IfOk result (λ c. app_of c ≡ app_of_keyword keyword) }
{
    match keyword {
        Keyword::Assemble => four(alloc, "assemble"),
        Keyword::Open => open(alloc, "open"),
        Keyword::Record => single(alloc, "record"),
        Keyword::List => single(alloc, "list"),
        Keyword::Publish => publish(alloc, "publish"),
        Keyword::Rehearse => Ok(Command::new(alloc, "rehearse")),
        Keyword::Session => Ok(Command::new(alloc, "session")),
        Keyword::Big => single(alloc, "big"),
        Keyword::Find => single(alloc, "find"),
        Keyword::OpenId => open(alloc, "open-id"),
        Keyword::PublishPsi => publish(alloc, "publish-psi"),
        Keyword::PublishOn => four(alloc, "publish-on"),
        Keyword::Mounts => open(alloc, "mounts"),
        Keyword::Watch => open(alloc, "watch"),
        Keyword::Plan => publish(alloc, "plan"),
        Keyword::Inspect => single(alloc, "inspect"),
        Keyword::Extract => two(alloc, "extract"),
        Keyword::Air => four(alloc, "air"),
    }
}

fn four<'a>(alloc: Global, name: &'a str) -> Result<Command<'a>, AllocError>
    ensures { IfOk result (λ c. app_of c ≡ counting.four_app name.entry.now) }
{
    Command::new(alloc, name)
        .arg(one(alloc, "FIRST"))?
        .arg(one(alloc, "SECOND"))?
        .arg(one(alloc, "THIRD"))?
        .arg(one(alloc, "FOURTH"))
}

fn two<'a>(alloc: Global, name: &'a str) -> Result<Command<'a>, AllocError>
    ensures { IfOk result (λ c. app_of c ≡ counting.two_app name.entry.now) }
{
    Command::new(alloc, name)
        .arg(one(alloc, "PID"))?
        .arg(one(alloc, "FOLDER"))
}

fn single<'a>(alloc: Global, name: &'a str) -> Result<Command<'a>, AllocError>
    ensures { IfOk result (λ c. app_of c ≡ counting.single name.entry.now) }
{
    Command::new(alloc, name).arg(one(alloc, "VALUE"))
}

/// Where an object is sought, and paths.
fn open<'a>(alloc: Global, name: &'a str) -> Result<Command<'a>, AllocError>
    ensures { IfOk result (λ c. app_of c ≡ counting.open_app name.entry.now) }
{
    Command::new(alloc, name)
        .arg(one(alloc, "SOURCE"))?
        .arg(one_or_more(alloc, "PATH"))
}

/// What is sent, under which number, and how often.
fn publish<'a>(alloc: Global, name: &'a str) -> Result<Command<'a>, AllocError>
    ensures { IfOk result (λ c. app_of c ≡ counting.publish_app name.entry.now) }
{
    Command::new(alloc, name)
        .arg(one(alloc, "FOLDER"))?
        .arg(one(alloc, "CAROUSEL"))?
        .arg(one(alloc, "CYCLES"))
}

fn one<'a>(alloc: Global, name: &'a str) -> Arg<'a>
    ensures rule { rule_of result ≡ one name.entry.now }
    ensures local { result.global ≡ false }
{
    Arg::new(alloc, name).required(true)
}

fn one_or_more<'a>(alloc: Global, name: &'a str) -> Arg<'a>
    ensures rule { rule_of result ≡ one_or_more name.entry.now }
    ensures local { result.global ≡ false }
{
    Arg::new(alloc, name)
        .required(true)
        .action(ArgAction::Append)
}
