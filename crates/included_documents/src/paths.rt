//! Strings as paths, where a document is called by something that is no URL.
ghost use Rattle.std.specs.Prelude.{◌≡◌, IfOk};
ghost use Rattle.std.specs.String.{string_bytes};
ghost use Rattle.included_documents.specs.Meant.{folder, path_from};

use ls_base::Mem;
use std::alloc::Global;

/// What stands up to and with the last slash.
fn folder(uri: &str) -> &str
    ensures { result.now ≡ folder uri.now }
{
    match uri.rfind('/') {
        None => "",
        Some(at) => &uri[..at + 1],
    }
}

/// A path that begins with a slash, or else one from a document's folder.
pub fn path_from(alloc: Global, uri: &str, path: &str) -> Mem<String>
    ensures { IfOk result (λ there. string_bytes there ≡ path_from uri.now path.now) }
{
    if path.starts_with('/') {
        return Ok(String::from_str(alloc, path)?);
    }
    let mut there = String::from_str(alloc, folder(uri))?;
    there.push_str(path)?;
    Ok(there)
}
