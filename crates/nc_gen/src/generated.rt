//! A generated network: its files and its session.

ghost use Rattle.std.specs.Prelude.{◌≡◌, ◌<◌, true, map, All, IfOk};
ghost use Rattle.nc_gen.specs.Tree.{is_size, links, routers};
ghost use Rattle.nc_gen.specs.Shape.{IsSmall, IsTree, router_at, router_count};
ghost use Rattle.nc_gen.specs.Files.{fat_tree, file_of, file_view, generated_view, session_lines, text_of};

use crate::config::{config_text, lan_start};
use crate::ports::ports_in;
use crate::text::{every_line, file_name, name_of, push_line, reach_line};
use crate::tree::{Link, Tree};
use nc_types::{Addr, Text};
use std::alloc::{AllocError, Global};

/// A generated file: the name of its router with `.cfg` behind it, and its bytes.
#[derive(Drop)]
pub struct GenFile {
    pub name: Text,
    pub bytes: Vec<u8>,
}

/// A generated network: the files of its routers, in order, and a session of tests.
#[derive(Drop)]
pub struct Generated {
    pub files: Vec<GenFile>,
    pub session: Vec<u8>,
}

/// Whether a fat tree of this size is generated: 2, 4, 6 or 8 (profile).
pub fn is_size(k: u32) -> bool
    ensures { result ≡ is_size k }
{
    matches!(k, 2 | 4 | 6 | 8)
}

// The file of the router of a number.
fn file_of(alloc: Global, tree: Tree, all: &[Link], number: u32) -> Result<GenFile, AllocError>
    requires tree { IsTree tree }
    requires number { number < router_count tree }
    requires links { all.now ≡ links tree }
    requires small { All IsSmall all.now }
    ensures { IfOk result (λ file. file_view file ≡ file_of tree (router_at tree number)) }
{
    let router = tree.router(number);
    let ports = ports_in(alloc, all, number)?;
    let name = name_of(alloc, router)?;
    let file_name = file_name(alloc, &name)?;
    Ok(GenFile {
        name: Text::new(alloc, file_name.as_bytes())?,
        bytes: config_text(alloc, tree, number, router, &name, &ports)?,
    })
}

// The session: whether the last local network is reached from the first edge router, by some path
// and by every one, and whether the one implies the other.
fn session_text(alloc: Global, tree: Tree) -> Result<Vec<u8>, AllocError>
    requires { IsTree tree }
    ensures { IfOk result (λ text. text.items ≡ text_of (session_lines tree)) }
{
    let asked = Addr(lan_start(tree, tree.pods, 0).0 - 256 + 9);
    let mut out = Vec::new(alloc);
    let reach = reach_line(alloc, asked)?;
    push_line(&mut out, reach.as_bytes())?;
    let every = every_line(alloc, asked)?;
    push_line(&mut out, every.as_bytes())?;
    push_line(&mut out, b"implies 2 1")?;
    push_line(&mut out, b"implies 1 2")?;
    Ok(out)
}

// The files of all routers.
fn files_of(alloc: Global, tree: Tree) -> Result<Vec<GenFile>, AllocError>
    requires { IsTree tree }
    ensures { IfOk result (λ files. map file_view files.items ≡ map (file_of tree) (routers tree)) }
{
    let links = tree.links(alloc)?;
    let mut files = Vec::new(alloc);
    'routers: for number in 0..tree.router_count() {
        files.push(file_of(alloc, tree, &links, number)?)?;
    }
    Ok(files)
}

/// The fat tree of a size: the files of its routers, the cores first and then pod by pod, and a
/// session of two tests and two questions about them.
///
/// # Errors
///
/// That memory is refused.
pub fn fat_tree(alloc: Global, k: u32) -> Result<Generated, AllocError>
    requires { is_size k ≡ true }
    ensures { IfOk result (λ generated. generated_view generated ≡ fat_tree k) }
{
    let tree = Tree::new(k);
    Ok(Generated {
        files: files_of(alloc, tree)?,
        session: session_text(alloc, tree)?,
    })
}
