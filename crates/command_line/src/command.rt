//! The command that `clap` reads the words by.

ghost use Rattle.std.specs.Prelude.{◌≡◌, IfErr, IfOk, IsOkAnd, IsSome, codes, false, map};
ghost use Rattle.clap.specs.Words.{app_of, kind_of, new_app, rule_of, with_rule, with_subcommand};
ghost use Rattle.command_line.specs.internal.Command.{HasNoGlobals, app, bare_of, path_rule};
ghost use Rattle.command_line.specs.Form as spec;

use clap::error::ErrorKind;
use clap::{Arg, ArgAction, ArgMatches, Command, Error};
use std::alloc::{AllocError, Global};

/// Reads words of a form as the command. It can only want memory.
pub fn parse<'a>(alloc: Global, words: &'a [&'a str]) -> Result<ArgMatches<'a>, Error>
    requires { IsSome (spec.form_of (map (λ word. word.now) words.now)) }
    ensures { IfErr result (λ e. kind_of e ≡ ErrorKind.OutOfMemory) }
{
    let command = command(alloc)?;
    command.try_get_matches_from(words)
}

/// The command with its forms, without help and version. Nothing is kept over an early end: letting a command go is dear to prove.
fn command<'a>(alloc: Global) -> Result<Command<'a>, AllocError>
    ensures ok { IfOk result (λ command. app_of command ≡ app) }
{
    let with_run = with_form(bare(alloc), two_paths(alloc, "run", "ROOT", "SCRIPT"))?;
    let with_race = with_form(with_run, two_paths(alloc, "race", "ROOT", "SCRIPT"))?;
    let with_check = with_form(with_race, one_path(alloc, "check", "ROOT"))?;
    let with_soak = with_form(with_check, one_path(alloc, "soak", "N"))?;
    let with_wire = with_form(with_soak, two_paths(alloc, "wire", "ROOT", "MESSAGES"))?;
    let with_dispatch = with_form(with_wire, two_paths(alloc, "dispatch", "ROOT", "SCRIPT"))?;
    with_form(
        with_dispatch,
        three_paths(alloc, "audit", "ROOT", "SCRIPT", "TRACE"),
    )
}

/// The command without its forms.
fn bare<'a>(alloc: Global) -> Command<'a>
    ensures { app_of result ≡ bare_of (new_app (codes "initsim")) }
{
    Command::new(alloc, "initsim")
        .no_binary_name(true)
        .disable_help_flag(true)
        .disable_help_subcommand(true)
        .disable_version_flag(true)
        .subcommand_required(true)
}

/// Adds a form.
fn with_form<'a>(
    command: Command<'a>,
    form: Result<Command<'a>, AllocError>,
) -> Result<Command<'a>, AllocError>
    requires { IfOk form HasNoGlobals }
    ensures ok { IfOk result (λ whole. IsOkAnd form.entry (λ form. app_of whole ≡ with_subcommand
        (app_of command.entry) (app_of form).top)) }
{
    command.subcommand(form?)
}

/// A form of one path.
fn one_path<'a>(alloc: Global, name: &'a str, path: &'a str) -> Result<Command<'a>, AllocError>
    ensures ok { IfOk result (λ form. app_of form ≡ with_rule (new_app name.entry.now) (path_rule path.entry.now)) }
    ensures local { IfOk result HasNoGlobals }
{
    Command::new(alloc, name).arg(required(alloc, path))
}

/// A form of two paths.
fn two_paths<'a>(
    alloc: Global,
    name: &'a str,
    first: &'a str,
    second: &'a str,
) -> Result<Command<'a>, AllocError>
    ensures ok { IfOk result (λ form. app_of form
        ≡ with_rule (with_rule (new_app name.entry.now) (path_rule first.entry.now)) (path_rule second.entry.now)) }
    ensures local { IfOk result HasNoGlobals }
{
    one_path(alloc, name, first)?.arg(required(alloc, second))
}

/// A form of three paths.
fn three_paths<'a>(
    alloc: Global,
    name: &'a str,
    first: &'a str,
    second: &'a str,
    third: &'a str,
) -> Result<Command<'a>, AllocError>
    ensures ok { IfOk result (λ form. app_of form ≡ with_rule (with_rule (with_rule
        (new_app name.entry.now) (path_rule first.entry.now)) (path_rule second.entry.now)) (path_rule third.entry.now)) }
    ensures local { IfOk result HasNoGlobals }
{
    two_paths(alloc, name, first, second)?.arg(required(alloc, third))
}

/// A word that has to be given: a path, or a number.
fn required<'a>(alloc: Global, id: &'a str) -> Arg<'a>
    ensures rule { rule_of result ≡ path_rule id.entry.now }
    ensures local { result.global ≡ false }
{
    Arg::new(alloc, id).required(true).action(ArgAction::Set)
}
