//! What calls ask of a node.

ghost use Rattle.std.specs.Prelude.{◌≡◌, IfOk};
ghost use Rattle.std.specs.Option.{option_copied};
ghost use Rattle.init_machine.specs.FileTree as spec;

use init_base::{NoMemory, Text};
use init_machine::Node;

/// The mode of a directory that is made as a parent.
pub const DIRECTORY_MODE: u16 = 0o755;

/// The mode of a file that is made.
const FILE_MODE: u16 = 0o600;

/// The bits by which others than the owner may write a file.
const WRITTEN_BY_OTHERS: u16 = 0o022;

pub fn is_there(node: Option<&Node>) -> bool
    ensures { result ≡ spec.is_there (option_copied node.entry) }
{
    node.is_some()
}

pub fn is_directory(node: Option<&Node>) -> bool
    ensures { result ≡ spec.is_directory (option_copied node.entry) }
{
    matches!(node, Some(Node::Directory { .. }))
}

/// Whether a file or a link is there.
pub fn is_other(node: Option<&Node>) -> bool
    ensures { result ≡ spec.is_other (option_copied node.entry) }
{
    is_there(node) && !is_directory(node)
}

/// Whether it is a link, or a file that others than its owner may write.
pub fn is_insecure(node: Option<&Node>) -> bool
    ensures { result ≡ spec.is_insecure (option_copied node.entry) }
{
    match node {
        Some(Node::File { mode, .. }) => *mode & WRITTEN_BY_OTHERS != 0,
        Some(Node::Link { .. }) => true,
        Some(Node::Directory { .. }) | None => false,
    }
}

/// The mode of the file that takes the node's place: a file that is replaced keeps its mode.
pub fn mode_for(node: Option<&Node>) -> u16
    ensures { result ≡ spec.mode_for (option_copied node.entry) }
{
    match node {
        Some(Node::File { mode, .. }) => *mode,
        Some(Node::Directory { .. } | Node::Link { .. }) | None => FILE_MODE,
    }
}

/// The content of a file.
pub fn content_of(node: Option<&Node>) -> Result<Text, NoMemory>
    ensures { IfOk result (λ content. content ≡ spec.content_of (option_copied node.entry)) }
{
    match node {
        Some(Node::File { content, .. }) => content.share(),
        Some(Node::Directory { .. } | Node::Link { .. }) | None => Ok(Text::empty()),
    }
}

/// Gives the node another mode.
pub fn set_mode(node: &mut Node, new: u16)
    ensures { node.new ≡ spec.with_mode new node.old }
{
    match node {
        Node::Directory { mode } => *mode = new,
        Node::File { mode, .. } => *mode = new,
        Node::Link { mode, .. } => *mode = new,
    }
}
