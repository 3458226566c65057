ghost use Rattle.std.specs.Prelude.{◌≡◌, OnErr, OnOk, Some, option_map, slice_get};
ghost use Rattle.std.specs.List.{position};
ghost use Rattle.server_names.specs.Names.{Answers};
ghost use Rattle.server_kernel.specs.Directory.{has_path, domain_at, changed_at, found_in, count_in, make_by, make_in, made_domain, with_made, remove_by, remove_in, removed_domain, with_removed, rename_by, rename_in, renamed_domain, with_renamed, is_root, has_one, are_apart};

use crate::server::{Domain, Server};
use server_names::{NameEnd, Node};
use sprite_ids::{Errno, Items};
use sprite_paths::Path;

impl Server {
    // What the path names. A path that lies in no domain of this server names nothing.
    pub(crate) fn find(&self, path: &Path) -> Result<Node, NameEnd>
        ensures { Answers result (found_in path.now self.now) }
    {
        match self.domain_of(path) {
            Some(domain) => domain.names.find(path),
            None => Err(NameEnd::Errno(Errno::NoEntry)),
        }
    }

    // How many entries the directory has.
    pub(crate) fn count(&self, path: &Path) -> Result<usize, NameEnd>
        ensures { Answers result (count_in path.now self.now) }
    {
        match self.domain_of(path) {
            Some(domain) => domain.names.count(path),
            None => Err(NameEnd::Errno(Errno::NoEntry)),
        }
    }

    // Makes the name.
    pub(crate) fn make(&mut self, path: &Path, node: Node) -> Result<(), NameEnd>
        ensures answer { Answers result (make_in path.now self.old) }
        ensures ok { OnOk result (self.new ≡ with_made path.now node self.old) }
        ensures err { OnErr result (self.new ≡ self.old) }
    {
        match self.place_of(path) {
            Some(at) => make_at(&mut self.domains, at, path, node),
            None => Err(NameEnd::Errno(Errno::NoEntry)),
        }
    }

    // Takes the name away: with `directory` an empty directory, else a file or a device.
    pub(crate) fn remove(&mut self, path: &Path, directory: bool) -> Result<Node, NameEnd>
        ensures answer { Answers result (remove_in path.now directory self.old) }
        ensures ok { OnOk result (self.new ≡ with_removed path.now self.old) }
        ensures err { OnErr result (self.new ≡ self.old) }
    {
        match self.place_of(path) {
            Some(at) => remove_at(&mut self.domains, at, path, directory),
            None => Err(NameEnd::Errno(Errno::NoEntry)),
        }
    }

    // Gives a file or device another name in its domain.
    pub(crate) fn rename(&mut self, old: &Path, new: &Path) -> Result<(), NameEnd>
        ensures answer { Answers result (rename_in old.now new.now self.old) }
        ensures ok { OnOk result (self.new ≡ with_renamed old.now new.now self.old) }
        ensures err { OnErr result (self.new ≡ self.old) }
    {
        match self.place_of(old) {
            Some(at) => rename_at(&mut self.domains, at, old, new),
            None => Err(NameEnd::Errno(Errno::NoEntry)),
        }
    }

    // Whether a domain of this server hangs there.
    pub(crate) fn is_root(&self, path: &Path) -> bool
        ensures { result ≡ is_root path.now self.now }
    {
        self.domains
            .as_slice()
            .iter()
            .any(|domain| path.parts() == domain.root.parts())
    }

    // Whether the two paths lie in two domains of the cluster: a domain has one of them and not the other.
    pub(crate) fn are_apart(&self, path: &Path, other: &Path) -> bool
        ensures { result ≡ are_apart path.now other.now self.now }
    {
        self.roots
            .as_slice()
            .iter()
            .any(|root| has_one(root, path, other))
    }

    // The domain of this server in which the path lies: the longest, since longer ones stand first.
    pub(crate) fn domain_of(&self, path: &Path) -> Option<&Domain>
        ensures { option_map (λ domain. domain.now) result ≡ domain_at path.now self.now }
    {
        match self.place_of(path) {
            Some(at) => self.domains.as_slice().get(at),
            None => None,
        }
    }

    // Where that domain stands.
    pub(crate) fn place_of(&self, path: &Path) -> Option<usize>
        ensures { result ≡ position (has_path path.now) self.now.domains }
    {
        self.domains
            .as_slice()
            .iter()
            .position(|domain| path.starts_with(&domain.root))
    }
}

// Whether the domain that hangs there has one of the two paths and not the other.
fn has_one(root: &Path, path: &Path, other: &Path) -> bool
    ensures { result ≡ has_one root.now path.now other.now }
{
    if path.starts_with(root) {
        return !other.starts_with(root);
    }
    other.starts_with(root)
}

// Makes the name in the domain at that place.
fn make_at(domains: &mut Items<Domain>, at: usize, path: &Path, node: Node) -> Result<(), NameEnd>
    ensures answer { Answers result (make_by path.now (slice_get domains.old at)) }
    ensures ok { OnOk result (domains.new ≡ changed_at at (made_domain path.now node) domains.old) }
    ensures err { OnErr result (domains.new ≡ domains.old) }
{
    if at >= domains.len() {
        return Err(NameEnd::Errno(Errno::NoEntry));
    }
    make_name(domains.at_mut(at), path, node)
}

fn make_name(domain: &mut Domain, path: &Path, node: Node) -> Result<(), NameEnd>
    ensures answer { Answers result (make_by path.now (Some domain.old)) }
    ensures ok { OnOk result (domain.new ≡ made_domain path.now node domain.old) }
    ensures err { OnErr result (domain.new ≡ domain.old) }
{
    domain.names.make(path, node)
}

// Takes the name away in the domain at that place.
fn remove_at(
    domains: &mut Items<Domain>,
    at: usize,
    path: &Path,
    directory: bool,
) -> Result<Node, NameEnd>
    ensures answer { Answers result (remove_by path.now directory (slice_get domains.old at)) }
    ensures ok { OnOk result (domains.new ≡ changed_at at (removed_domain path.now) domains.old) }
    ensures err { OnErr result (domains.new ≡ domains.old) }
{
    if at >= domains.len() {
        return Err(NameEnd::Errno(Errno::NoEntry));
    }
    remove_name(domains.at_mut(at), path, directory)
}

fn remove_name(domain: &mut Domain, path: &Path, directory: bool) -> Result<Node, NameEnd>
    ensures answer { Answers result (remove_by path.now directory (Some domain.old)) }
    ensures ok { OnOk result (domain.new ≡ removed_domain path.now domain.old) }
    ensures err { OnErr result (domain.new ≡ domain.old) }
{
    domain.names.remove(path, directory)
}

// Gives another name in the domain at that place.
fn rename_at(domains: &mut Items<Domain>, at: usize, old: &Path, new: &Path) -> Result<(), NameEnd>
    ensures answer { Answers result (rename_by old.now new.now (slice_get domains.old at)) }
    ensures ok { OnOk result (domains.new ≡ changed_at at (renamed_domain old.now new.now) domains.old) }
    ensures err { OnErr result (domains.new ≡ domains.old) }
{
    if at >= domains.len() {
        return Err(NameEnd::Errno(Errno::NoEntry));
    }
    rename_name(domains.at_mut(at), old, new)
}

fn rename_name(domain: &mut Domain, old: &Path, new: &Path) -> Result<(), NameEnd>
    ensures answer { Answers result (rename_by old.now new.now (Some domain.old)) }
    ensures ok { OnOk result (domain.new ≡ renamed_domain old.now new.now domain.old) }
    ensures err { OnErr result (domain.new ≡ domain.old) }
{
    domain.names.rename(old, new)
}
