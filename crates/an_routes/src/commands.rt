ghost use Rattle.std.specs.Prelude.{◌≡◌, ℕ, IfOk, IsTrue, List, Ok, Option};
ghost use Rattle.an_http.specs.declared.method.Method.{Method};
ghost use Rattle.std.specs.Result.{result_map_both};
ghost use Rattle.an_base.specs.Tree.{tree_of};
ghost use Rattle.an_routes.specs.Commands.{text_refusal, with_tree, command_of};
ghost use Rattle.an_routes.specs.Commands.{is_sendable_route, is_sendable_write};
ghost use Rattle.an_routes.specs.Routes.{route_of};
ghost use Rattle.an_routes.specs.declared.kinds.Route.{Route};
ghost use Rattle.an_routes.specs.declared.kinds.WriteRoute.{WriteRoute};
ghost use Rattle.an_state.specs.Commands.{is_sendable};
ghost use Rattle.an_state.specs.declared.command.Command.{Command};

use crate::kinds::WriteRoute;
use an_base::{Name, Shared, Tree, TreeError, read_tree};
use an_code::Code;
use an_policy::{Group, Inner};
use an_state::Command;
use std::alloc::{AllocError, Global};

/// A law: what a route writes has a number from 1 to 999,999,999, and a group that is one. So has
/// its command, which may be sent then.
#[tactic(auto, using(crate::proofs::SendableLemmas::sendable))]
pub fn routes_are_sendable()
    ensures routes { (method : Option Method) (target : List ℕ) (route : Route)
        → route_of method target ≡ Ok route → IsTrue (is_sendable_route route) }
    ensures commands { (write : WriteRoute) (text : List ℕ) (command : Command)
        → command_of write text ≡ Ok command → is_sendable command ≡ is_sendable_write write }
{}

/// The command of a write, with the tree that a text is, or the refusal of a text that is none. A
/// deletion has no tree.
pub fn command_of(
    alloc: Global,
    write: WriteRoute,
    text: &[u8],
) -> Result<Result<Command, Code>, AllocError>
    ensures command { IfOk result (λ command. command ≡ command_of write text.now) }
{
    match write {
        WriteRoute::PutReader { name, version } => put_reader(alloc, name, version, text),
        WriteRoute::DropReader { name, version } => {
            Ok(Ok(Command::DropReader { name, version }))
        }
        WriteRoute::PutManifest {
            name,
            version,
            group,
        } => put_manifest(alloc, name, version, group, text),
        WriteRoute::DropManifest { name, version } => {
            Ok(Ok(Command::DropManifest { name, version }))
        }
        WriteRoute::PutNote {
            owner,
            name,
            version,
            manifest,
            group,
        } => put_note(alloc, (owner, name), version, (manifest, group), text),
        WriteRoute::DropNote {
            owner,
            name,
            version,
        } => Ok(Ok(Command::DropNote {
            owner,
            name,
            version,
        })),
    }
}

fn put_reader(
    alloc: Global,
    name: Name,
    version: u32,
    text: &[u8],
) -> Result<Result<Command, Code>, AllocError>
    ensures { IfOk result
        (λ command. command ≡ with_tree (Command.PutReader name version) (tree_of text.now)) }
{
    match tree_in(alloc, text)? {
        Ok(tree) => Ok(Ok(Command::PutReader {
            name,
            version,
            tree,
        })),
        Err(refusal) => Ok(Err(refusal)),
    }
}

fn put_manifest(
    alloc: Global,
    name: Name,
    version: u32,
    group: Group,
    text: &[u8],
) -> Result<Result<Command, Code>, AllocError>
    ensures { IfOk result
        (λ command. command
        ≡ with_tree (Command.PutManifest name version group) (tree_of text.now)) }
{
    match tree_in(alloc, text)? {
        Ok(tree) => Ok(Ok(Command::PutManifest {
            name,
            version,
            group,
            tree,
        })),
        Err(refusal) => Ok(Err(refusal)),
    }
}

/// The path is the owner and the name, the home the manifest and the group on which it stands.
fn put_note(
    alloc: Global,
    path: (Name, Name),
    version: u32,
    home: (Name, Inner),
    text: &[u8],
) -> Result<Result<Command, Code>, AllocError>
    ensures { IfOk result (λ command. command
        ≡ with_tree (Command.PutNote path.0 path.1 version home.0 home.1) (tree_of text.now)) }
{
    let (owner, name) = path;
    let (manifest, group) = home;
    match tree_in(alloc, text)? {
        Ok(tree) => Ok(Ok(Command::PutNote {
            owner,
            name,
            version,
            manifest,
            group,
            tree,
        })),
        Err(refusal) => Ok(Err(refusal)),
    }
}

/// The tree that a text is, or the refusal of what it is instead.
fn tree_in(alloc: Global, text: &[u8]) -> Result<Result<Shared<Tree>, Code>, AllocError>
    ensures { IfOk result (λ tree. tree ≡ result_map_both
        (λ t. t) text_refusal (tree_of text.now)) }
{
    match read_tree(alloc, text) {
        Ok(tree) => {
            let tree = Shared::new(alloc, Tree::new(tree))?;
            Ok(Ok(tree))
        }
        Err(error) => if matches!(error, TreeError::Memory) {
            Err(AllocError)
        } else {
            Ok(Err(text_refusal(error)))
        },
    }
}

fn text_refusal(error: TreeError) -> Code
    ensures { result ≡ text_refusal error }
{
    match error {
        TreeError::Json => Code::Json,
        TreeError::NotWhole => Code::NotWhole,
        TreeError::Deep => Code::Deep,
        TreeError::Memory => Code::Json,
    }
}
