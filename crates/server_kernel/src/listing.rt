ghost use Rattle.std.specs.Prelude.{◌≡◌, IfOk, OnOk, Some, map};
ghost use Rattle.std.specs.Map.{keys_of};
ghost use Rattle.server_names.specs.Names.{Answers, lines};
ghost use Rattle.server_kernel.specs.Listing.{keyed, list_by, list_in, listing, sorted_entries, with_sorted};

use crate::server::{Domain, Server};
use server_names::NameEnd;
use sprite_ids::{Bytes, Errno, NoMemory};
use sprite_paths::Path;
use std::alloc::Global;
use std::collections::BTreeMap;

impl Server {
    // The names of a directory's entries, each with a byte 10 behind it, in the order of their bytes.
    pub(crate) fn list(&self, alloc: Global, path: &Path) -> Result<Bytes, NameEnd>
        ensures { Answers result (list_in path.now self.now) }
    {
        match self.domain_of(path) {
            Some(domain) => list_domain(alloc, domain, path),
            None => Err(NameEnd::Errno(Errno::NoEntry)),
        }
    }
}

fn list_domain(alloc: Global, domain: &Domain, path: &Path) -> Result<Bytes, NameEnd>
    ensures { Answers result (list_by path.now (Some domain.now)) }
{
    match domain.names.names(path) {
        Ok(names) => Ok(listing(alloc, names.as_slice())?),
        Err(NameEnd::Errno(errno)) => Err(NameEnd::Errno(errno)),
        Err(NameEnd::Redirect(path)) => Err(NameEnd::Redirect(path)),
        Err(NameEnd::NoMemory) => Err(NameEnd::NoMemory),
    }
}

// The names, each with a byte 10 behind it, in the order of their bytes.
fn listing(alloc: Global, names: &[Vec<u8>]) -> Result<Bytes, NoMemory>
    ensures { IfOk result (λ text. text ≡ listing (map (λ name. name.items) names.now)) }
{
    let sorted = sorted_names(alloc, names)?;
    lines(alloc, &sorted)
}

// The names of the map, in its order, each with a byte 10 behind it.
fn lines(alloc: Global, sorted: &BTreeMap<Vec<u8>, ()>) -> Result<Bytes, NoMemory>
    ensures { IfOk result (λ text. text ≡ lines (map (λ name. name.items) (keys_of sorted.now.entries))) }
{
    let mut text = Bytes::new(alloc);
    for name in sorted.keys() {
        text.append(name.as_slice())?;
        text.push(b'\n')?;
    }
    Ok(text)
}

// A map that has the names in the order of their bytes.
fn sorted_names(alloc: Global, names: &[Vec<u8>]) -> Result<BTreeMap<Vec<u8>, ()>, NoMemory>
    ensures { IfOk result (λ sorted. keyed (λ name. name.items) sorted.entries ≡ sorted_entries (map (λ name. name.items) names.now)) }
{
    let mut sorted = BTreeMap::new(alloc);
    for name in names {
        put_name(&mut sorted, Vec::from_slice(alloc, name.as_slice())?)?;
    }
    Ok(sorted)
}

// One name more.
fn put_name(sorted: &mut BTreeMap<Vec<u8>, ()>, name: Vec<u8>) -> Result<(), NoMemory>
    ensures { OnOk result (keyed (λ name. name.items) sorted.new.entries ≡ with_sorted (keyed (λ name. name.items) sorted.old.entries) name.items) }
{
    sorted.insert(name, ())?;
    Ok(())
}
