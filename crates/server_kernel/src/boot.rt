ghost use Rattle.std.specs.Prelude.{◌≡◌, ◌++◌, IfOk, OnOk, slice_get};
ghost use Rattle.unix_calls.specs.Boot.{limit_of};
ghost use Rattle.unix_calls.specs.Domains.{roots_of};
ghost use Rattle.server_kernel.specs.Boot.{Fits, bare, serves_of, is_below, is_longest, are_above, hangs_in, links_of, rooted, bare_names, names_of, hangs_one, hangs_all, all_hung, lies_here, booted_domain, boot_by, boots_name, appends_file, appends_line, makes_line, fills_line, fills, set_up, boots};

use crate::server::{Domain, Server};
use file_store::Store;
use kernel_steps::{Out, Queue};
use server_names::{NameEnd, Names, Node};
use shadow_streams::Shadows;
use sprite_ids::{Copying, FileId, Items, Kernel, NoMemory, TxNo};
use sprite_paths::Path;
use std::alloc::Global;
use swap_pages::Swap;
use unix_calls::{Description, FileLine, KernelLine};
use version_table::Versions;

impl Server {
    /// The server of that number when the cluster begins: with the domains that it serves, a remote link where another one hangs
    /// directly in one of them, and the files that lie in them. A file's number is the place of its line, from 1, and that of a
    /// file that is made later is greater than all of these (this project).
    ///
    /// None comes exactly where the paths don't fit together, so that a directory would have more than 256 entries, or a name
    /// would stand twice or below a file; those of a lawful description fit. The one error is want of memory.
    pub fn boot(
        alloc: Global,
        description: &Description,
        kernel: Kernel,
    ) -> Result<Option<Server>, NoMemory>
        ensures { IfOk result (λ server. server ≡ boots description.now kernel) }
    {
        let mut server = bare(alloc, description, kernel)?;
        if server.set_up(alloc, description)? {
            Ok(Some(server))
        } else {
            Ok(None)
        }
    }

    // Makes the server's domains and the files in them. False where the paths don't fit together.
    fn set_up(&mut self, alloc: Global, description: &Description) -> Result<bool, NoMemory>
        ensures { IfOk result (λ fits. Fits fits (set_up description.now self.old) self.new) }
    {
        let serves = serves_of(description.kernels.as_slice(), self.kernel);
        if !self.hang_domains(alloc, serves)? {
            return Ok(false);
        }
        self.fill(alloc, description.files.as_slice())
    }

    // Makes the domains, of which those with longer roots come first. False where the paths don't fit together.
    fn hang_domains(&mut self, alloc: Global, serves: &[Path]) -> Result<bool, NoMemory>
        ensures { IfOk result (λ fits. Fits fits (all_hung serves.now 17 self.old) self.new) }
    {
        for done in 0..17 {
            if !self.hang_all(alloc, 16 - done, serves)? {
                return Ok(false);
            }
        }
        Ok(true)
    }

    // Makes the domains whose roots have so many parts.
    fn hang_all(&mut self, alloc: Global, parts: usize, serves: &[Path]) -> Result<bool, NoMemory>
        ensures { IfOk result (λ fits. Fits fits (hangs_all parts serves.now self.old) self.new) }
    {
        for root in serves {
            if !self.hang_one(alloc, parts, root)? {
                return Ok(false);
            }
        }
        Ok(true)
    }

    // Makes the domain, where its root has so many parts.
    fn hang_one(&mut self, alloc: Global, parts: usize, root: &Path) -> Result<bool, NoMemory>
        ensures { IfOk result (λ fits. Fits fits (hangs_one parts root.now self.old) self.new) }
    {
        if root.len() != parts {
            return Ok(true);
        }
        match names_of(alloc, self.roots.as_slice(), root)? {
            Some(names) => {
                let root = root.copy(alloc)?;
                self.domains.push(Domain { root, names })?;
                Ok(true)
            }
            None => Ok(false),
        }
    }

    // Puts the lines' files into the domains. False where the paths don't fit together.
    fn fill(&mut self, alloc: Global, lines: &[FileLine]) -> Result<bool, NoMemory>
        ensures { IfOk result (λ fits. Fits fits (fills lines.now self.old) self.new) }
    {
        for line in lines {
            if !self.fill_line(alloc, line)? {
                return Ok(false);
            }
            self.count_file()?;
        }
        Ok(true)
    }

    // Puts the line's file into its domain, where that is one of this server's.
    fn fill_line(&mut self, alloc: Global, line: &FileLine) -> Result<bool, NoMemory>
        ensures { IfOk result (λ fits. Fits fits (fills_line line.now self.old) self.new) }
    {
        if !self.lies_here(&line.path) {
            return Ok(true);
        }
        if !line.append {
            return self.make_line(line);
        }
        self.append_line(line)?;
        Ok(true)
    }

    // Whether the longest domain of the path is one of this server's.
    fn lies_here(&self, path: &Path) -> bool
        ensures { result ≡ lies_here path.now self.now }
    {
        match self.domain_of(path) {
            Some(domain) => is_longest(self.roots.as_slice(), &domain.root, path),
            None => false,
        }
    }

    // Makes a file with the line's bytes, and the directories above it.
    fn make_line(&mut self, line: &FileLine) -> Result<bool, NoMemory>
        ensures { IfOk result (λ fits. Fits fits (makes_line line.now self.old) self.new) }
    {
        let file = self.new_file();
        if !self.boot_name(&line.path, &file)? {
            return Ok(false);
        }
        self.make_file(&file)?;
        self.write(&file, 0, line.bytes.as_slice())?;
        Ok(true)
    }

    // Puts the line's bytes to the end of the file of that path, which is there.
    fn append_line(&mut self, line: &FileLine) -> Result<(), NoMemory>
        ensures { OnOk result (self.new ≡ appends_line line.now self.old) }
    {
        match self.find(&line.path) {
            Ok(Node::File(file)) => self.append_file(&file, line.bytes.as_slice()),
            Ok(Node::Dir) => Ok(()),
            Ok(Node::Device(_)) => Ok(()),
            Err(NameEnd::Errno(_)) => Ok(()),
            Err(NameEnd::Redirect(_)) => Ok(()),
            Err(NameEnd::NoMemory) => Err(NoMemory),
        }
    }

    fn append_file(&mut self, file: &FileId, bytes: &[u8]) -> Result<(), NoMemory>
        ensures { OnOk result (self.new ≡ appends_file file.now bytes.now self.old) }
    {
        let size = self.size_of(file);
        self.write(file, size, bytes)
    }

    // Names the file, and makes the directories above it.
    fn boot_name(&mut self, path: &Path, file: &FileId) -> Result<bool, NoMemory>
        ensures { IfOk result (λ fits. Fits fits (boots_name path.now file.now self.old) self.new) }
    {
        match self.place_of(path) {
            Some(at) => boot_at(&mut self.domains, at, path, file),
            None => Ok(false),
        }
    }
}

// Names the file in the domain at that place.
fn boot_at(
    domains: &mut Items<Domain>,
    at: usize,
    path: &Path,
    file: &FileId,
) -> Result<bool, NoMemory>
    ensures { IfOk result (λ fits. Fits fits (boot_by at path.now file.now (slice_get domains.old at) domains.old) domains.new) }
{
    if at >= domains.len() {
        return Ok(false);
    }
    boot_in(domains.at_mut(at), path, file)
}

fn boot_in(domain: &mut Domain, path: &Path, file: &FileId) -> Result<bool, NoMemory>
    ensures { IfOk result (λ fits. Fits fits (booted_domain path.now file.now domain.old) domain.new) }
{
    match domain.names.boot(path, Node::File(*file)) {
        Ok(()) => Ok(true),
        Err(NameEnd::Errno(_)) => Ok(false),
        Err(NameEnd::Redirect(_)) => Ok(false),
        Err(NameEnd::NoMemory) => Err(NoMemory),
    }
}

// The server with no domain and no file.
fn bare(alloc: Global, description: &Description, kernel: Kernel) -> Result<Server, NoMemory>
    ensures { IfOk result (λ server. server ≡ bare description.now kernel) }
{
    let roots = roots_of(alloc, description.kernels.as_slice())?;
    Ok(Server {
        kernel,
        roots,
        domains: Items::new(alloc),
        store: Store::new(alloc, limit_of(description.version)),
        versions: Versions::new(alloc, description.cache > 0),
        shadows: Shadows::new(alloc),
        swap: Swap::new(alloc),
        next_file: 1,
        unlinked: Items::new(alloc),
        asking: Queue::new(alloc),
        waiting: Queue::new(alloc),
        callbacks: Queue::new(alloc),
        out: Out::new(alloc, TxNo(0)),
    })
}

// The most bytes that a file may have (this project).
fn limit_of(version: u8) -> u32
    ensures { result ≡ limit_of version }
{
    if version > 1 { 4_194_304 } else { 262_144 }
}

// Where the domains of the cluster hang.
fn roots_of(alloc: Global, lines: &[KernelLine]) -> Result<Items<Path>, NoMemory>
    ensures { IfOk result (λ roots. roots ≡ roots_of lines.now) }
{
    let mut roots = Items::new(alloc);
    for line in lines {
        add_roots(alloc, &mut roots, line.serves.as_slice())?;
    }
    Ok(roots)
}

fn add_roots(alloc: Global, roots: &mut Items<Path>, more: &[Path]) -> Result<(), NoMemory>
    ensures { OnOk result (roots.new ≡ roots.old ++ more.now) }
{
    for root in more {
        roots.push(root.copy(alloc)?)?;
    }
    Ok(())
}

// Where the kernel's own domains hang.
fn serves_of(lines: &[KernelLine], kernel: Kernel) -> &[Path]
    ensures { result.now ≡ serves_of lines.now kernel }
{
    match lines.get(usize::from(kernel.number() - 1)) {
        Some(line) => line.serves.as_slice(),
        None => &[],
    }
}

// The names of the domain that hangs there: a remote link where another one hangs directly in it. None where they don't fit
// together.
fn names_of(alloc: Global, roots: &[Path], root: &Path) -> Result<Option<Names>, NoMemory>
    ensures { IfOk result (λ names. names ≡ names_of roots.now root.now) }
{
    let links = links_of(alloc, roots, root)?;
    if links.len() == 0 {
        return bare_names(alloc, root);
    }
    match Names::new(alloc, links.as_slice()) {
        Ok(names) => Ok(Some(names)),
        Err(NameEnd::Errno(_)) => Ok(None),
        Err(NameEnd::Redirect(_)) => Ok(None),
        Err(NameEnd::NoMemory) => Err(NoMemory),
    }
}

// The names of a domain in which no other hangs: its root, and the directories above it.
fn bare_names(alloc: Global, root: &Path) -> Result<Option<Names>, NoMemory>
    ensures { IfOk result (λ names. names ≡ bare_names root.now) }
{
    match Names::new(alloc, &[]) {
        Ok(names) => rooted(names, root),
        Err(NameEnd::Errno(_)) => Ok(None),
        Err(NameEnd::Redirect(_)) => Ok(None),
        Err(NameEnd::NoMemory) => Err(NoMemory),
    }
}

// The names with the root of the domain and the directories above it.
fn rooted(names: Names, root: &Path) -> Result<Option<Names>, NoMemory>
    ensures { IfOk result (λ made. made ≡ rooted root.now names) }
{
    if root.len() == 0 {
        return Ok(Some(names));
    }
    let mut names = names;
    match names.boot(root, Node::Dir) {
        Ok(()) => Ok(Some(names)),
        Err(NameEnd::Errno(_)) => Ok(None),
        Err(NameEnd::Redirect(_)) => Ok(None),
        Err(NameEnd::NoMemory) => Err(NoMemory),
    }
}

// Where other domains hang directly in the one that hangs there.
fn links_of(alloc: Global, roots: &[Path], root: &Path) -> Result<Items<Path>, NoMemory>
    ensures { IfOk result (λ links. links ≡ links_of roots.now root.now) }
{
    let mut links = Items::new(alloc);
    for link in roots {
        if hangs_in(roots, root, link) {
            links.push(link.copy(alloc)?)?;
        }
    }
    Ok(links)
}

// Whether the domain `link` hangs directly in the domain `root`.
fn hangs_in(roots: &[Path], root: &Path, link: &Path) -> bool
    ensures { result ≡ hangs_in roots.now root.now link.now }
{
    if !is_below(root, link) {
        return false;
    }
    are_above(roots, root, link)
}

// Whether each domain that has the link below its root has the root too, so that none lies between the two.
fn are_above(roots: &[Path], root: &Path, link: &Path) -> bool
    ensures { result ≡ are_above roots.now root.now link.now }
{
    roots
        .iter()
        .all(|other| !is_below(other, link) || root.starts_with(other))
}

// Whether the path lies below the root of that domain.
fn is_below(root: &Path, path: &Path) -> bool
    ensures { result ≡ is_below root.now path.now }
{
    path.starts_with(root) && path.len() > root.len()
}

// Whether no longer domain than that one has the path.
fn is_longest(roots: &[Path], root: &Path, path: &Path) -> bool
    ensures { result ≡ is_longest roots.now root.now path.now }
{
    roots.iter().all(|other| !path.starts_with(other) || root.starts_with(other))
}
