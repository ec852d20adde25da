// Paths of load statements.
ghost use Rattle.std.specs.Prelude.{◌≡◌, IfOk};
ghost use Rattle.file_spec.specs.Names.{folder_part, is_loadable, named_below};
ghost use Rattle.world_spec.specs.Paths.{have_dots, is_dots, may_load, name_for, parts_of};

use std::alloc::Global;
use ytt_base::text::{Memory, Text};

/// Whether what is under a path may be loaded, by its ending: code, or YAML that gives no documents itself.
fn is_loadable(path: &[u8]) -> bool
    ensures { result ≡ is_loadable path.now }
{
    path.ends_with(b".star".as_slice())
        || path.ends_with(b".lib.yml".as_slice())
        || path.ends_with(b".lib.yaml".as_slice())
}

/// Whether a part of a path is `.` or `..`.
fn is_dots(part: &str) -> bool
    ensures { result ≡ is_dots part.now }
{
    part == "." || part == ".."
}

/// Whether a part of a path, between slashes, is `.` or `..`.
fn has_dots(path: &str) -> bool
    ensures { result ≡ have_dots (parts_of path.now) }
{
    let mut rest = path;
    while let Some((part, behind)) = rest.split_once('/') {
        if is_dots(part) {
            return true;
        }
        rest = behind;
    }
    is_dots(rest)
}

/// Whether a path may be loaded: it ends as the names of files do that others load, and has no part `.` or `..`.
pub fn may_load(path: &str) -> bool
    ensures { result ≡ may_load path.now }
{
    is_loadable(path.as_bytes()) && !has_dots(path)
}

/// What stands before the last slash of a name; nothing where there is none.
fn folder_part(name: &str) -> &str
    ensures { result.now ≡ folder_part name.now }
{
    match name.rfind('/') {
        Some(at) => &name[..at],
        None => "",
    }
}

/// A name in a folder, where the folder at the root has none.
fn named_below(alloc: Global, folder: &str, name: &str) -> Result<Text, Memory>
    ensures { IfOk result (λ t. t ≡ named_below folder.now name.now) }
{
    if folder.is_empty() {
        return Text::of(alloc, name);
    }
    let mut whole = String::from_str(alloc, folder)?;
    whole.push_str("/")?;
    whole.push_str(name)?;
    Ok(Text::of_string(whole))
}

/// The name of the file that a path stands for in the file of this name: below that file's folder, or below the root where the path
/// begins with a slash. An empty path stands for the empty name, which no file has.
pub fn name_for(alloc: Global, from: &str, path: &str) -> Result<Text, Memory>
    ensures { IfOk result (λ t. t ≡ name_for from.now path.now) }
{
    if path.is_empty() {
        return Ok(Text::new(alloc));
    }
    match path.strip_prefix('/') {
        Some(name) => Text::of(alloc, name),
        None => named_below(alloc, folder_part(from), path),
    }
}
