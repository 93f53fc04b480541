//! The walk over a tree: the files below some paths, each once, in the order of the paths' bytes.
//!
//! A name that vanishes from its directory during the walk is no fault, since nothing is lost. A
//! missing path of the command line is one.

ghost use Rattle.std.specs.Prelude.{◌≡◌, ◌↔◌, ◌⊎◌, ◌+◌, ◌<◌, ◌^◌, ◌++◌, [], IfOk, OnErr};
ghost use Rattle.std.specs.Prelude.{OnOk, true, false, length, map, replicate, string_bytes};
ghost use Rattle.std.specs.List.{All, AllPairs, Contains};
ghost use Rattle.ud_tree.specs.Choices.{LeavesOut};
ghost use Rattle.ud_tree.specs.Scopes.{IsBelow, IsRooted};
ghost use Rattle.ud_tree.specs.Walks.{ArePicked, IsBefore, IsFileList, IsKept};
ghost use Rattle.ud_tree.specs.WalkSteps.{AddsFile, AreRooted, at, Awaits, FindsFile, given, inside};
ghost use Rattle.ud_tree.specs.WalkSteps.{Listing, Look, Loses, Meets, MeetsGiven, named, nowhere};
ghost use Rattle.ud_tree.specs.WalkSteps.{scope_of, Steps, Stops, topped};

use crate::paths::{below, directory_path, escaped};
use crate::patterns::marks::mark;
use crate::patterns::{chooses, is_versioned, leaves_directory};
use crate::report::Report;
use crate::tree::Tree;
use std::alloc::{AllocError, Global};
use std::collections::BTreeSet;
use std::io::Write;
use ud_replace::{FileId, Lookup, Node, NodeKind};

/// The fault of a file that can't be opened.
const NOT_UTF8: &[u8] = b"Its name isn't UTF-8";

/// A file that was found. Files are in the order of their paths.
#[derive(PartialEq, Eq, PartialOrd, Ord, Drop)]
pub(crate) struct Found {
    /// The file's path.
    pub path: String,
    /// The file's identity.
    pub id: FileId,
}

/// A file of the run.
#[derive(Clone, Copy)]
pub(crate) struct FileAt<'a> {
    /// Its path.
    pub name: &'a [u8],
    /// The identity of the file that the walk met there.
    pub id: FileId,
}

/// A directory that waits to be listed.
#[derive(Drop)]
pub(crate) struct Waiting {
    /// Its path, which ends in a slash.
    path: String,
    /// The length of the path of the command line, with its slash, with which that begins.
    root: usize,
}

/// A walk: the files found, and the directories not listed yet.
#[derive(Drop)]
pub(crate) struct Walk<'w> {
    alloc: Global,
    /// The paths of the command line.
    paths: &'w [String],
    patterns: &'w [String],
    found: Vec<Found>,
    directories: Vec<Waiting>,
    /// For each pattern, true if its rule applies to something that the walk met.
    marks: Vec<bool>,
}

impl<'w> Walk<'w> {
    /// Returns a walk before its first path.
    ///
    /// # Errors
    /// Fails if memory runs out.
    pub(crate) fn new(
        alloc: Global,
        paths: &'w [String],
        patterns: &'w [String],
    ) -> Result<Walk<'w>, AllocError>
        ensures found { IfOk result (λ w. w.found.items ≡ []) }
        ensures directories { IfOk result (λ w. w.directories.items ≡ []) }
        ensures paths { IfOk result (λ w. w.paths.now ≡ paths.now) }
        ensures patterns { IfOk result (λ w. w.patterns.now ≡ patterns.now) }
        ensures marks { IfOk result (λ w. w.marks.items ≡ replicate (length patterns.now) false) }
    {
        let mut marks = Vec::new(alloc);
        marks.resize(patterns.len(), false)?;
        Ok(Walk {
            alloc,
            paths,
            patterns,
            found: Vec::new(alloc),
            directories: Vec::new(alloc),
            marks,
        })
    }

    /// Returns the paths of the command line.
    pub(crate) fn paths(&self) -> &'w [String]
        ensures { result.now ≡ self.now.paths.now }
    {
        self.paths
    }

    /// Begins at a path of the command line. A file is taken whatever its name. A link may name a
    /// directory.
    ///
    /// # Errors
    /// Fails if memory runs out.
    #[tactic(auto, using(crate::proofs::NamedLemmas::starts))]
    pub(crate) fn start<T: Tree, E: Write>(
        &mut self,
        tree: &mut T,
        report: &mut Report<E>,
        path: &str,
    ) -> Result<(), AllocError>
        requires { Contains (map string_bytes self.old.paths.now) path.now }
        ensures look { OnOk result (Look (named path.now)
            (at (scope_of self.old) (T.history tree.old) self.old report.old)
            (at (scope_of self.new) (T.history tree.new) self.new report.new)) }
        ensures loses { OnErr result
            (Loses (T.history tree.old) (T.history tree.new) report.old report.new) }
    {
        let node = match tree.node(path) {
            Lookup::Present(node) => node,
            Lookup::Absent => {
                report.missing(path.as_bytes());
                return Ok(());
            }
            Lookup::Unknown => {
                report.unknown(path.as_bytes(), tree.reason());
                return Ok(());
            }
        };
        match node.kind {
            NodeKind::Directory => self.start_directory(path),
            NodeKind::Link if tree.leads_to_directory(path) => self.start_directory(path),
            NodeKind::Link => {
                report.fault(path.as_bytes(), b"Is a symbolic link");
                Ok(())
            }
            NodeKind::File => self.push_file(path, node.id),
            NodeKind::Other => {
                report.fault(path.as_bytes(), b"Is no regular file");
                Ok(())
            }
        }
    }

    /// Adds a file of the input, whatever its name. Directories and links are left out.
    ///
    /// # Errors
    /// Fails if memory runs out.
    pub(crate) fn add<T: Tree, E: Write>(
        &mut self,
        tree: &mut T,
        report: &mut Report<E>,
        name: &[u8],
    ) -> Result<(), AllocError>
        ensures look { OnOk result (Look (given name.now)
            (at nowhere (T.history tree.old) self.old report.old)
            (at nowhere (T.history tree.new) self.new report.new)) }
        ensures loses { OnErr result
            (Loses (T.history tree.old) (T.history tree.new) report.old report.new) }
    {
        let Ok(path) = std::str::from_utf8(name) else {
            report.fault(escaped(self.alloc, name)?.as_slice(), NOT_UTF8);
            return Ok(());
        };
        match tree.node(path) {
            Lookup::Present(node) => self.add_given(report, path, node),
            Lookup::Absent => {
                report.missing(name);
                Ok(())
            }
            Lookup::Unknown => {
                report.unknown(name, tree.reason());
                Ok(())
            }
        }
    }

    /// Adds a node of the input, if it is a file.
    #[tactic(auto, using(crate::proofs::NamedLemmas::gives))]
    fn add_given<E: Write>(
        &mut self,
        report: &mut Report<E>,
        name: &str,
        node: Node,
    ) -> Result<(), AllocError>
        ensures meets { OnOk result
            (MeetsGiven name.now node self.old self.new report.old report.new) }
        ensures same { OnErr result (report.new ≡ report.old) }
    {
        match node.kind {
            NodeKind::File => self.push_file(name, node.id),
            NodeKind::Directory | NodeKind::Link => Ok(()),
            NodeKind::Other => {
                report.fault(name.as_bytes(), b"Is no regular file");
                Ok(())
            }
        }
    }

    /// Adds a directory of the command line.
    fn start_directory(&mut self, path: &str) -> Result<(), AllocError>
        requires { Contains (map string_bytes self.old.paths.now) path.now }
        ensures { OnOk result (Awaits path.now self.old self.new) }
    {
        let path = directory_path(self.alloc, path)?;
        let root = path.len();
        self.directories.push(Waiting { path, root })?;
        Ok(())
    }

    /// Adds a directory below one of the command line, whose path has `root` bytes.
    fn add_directory(&mut self, path: &str, root: usize) -> Result<(), AllocError>
        requires { IsRooted (map string_bytes self.old.paths.now) path.now root }
        ensures { OnOk result (Awaits path.now self.old self.new) }
    {
        let path = directory_path(self.alloc, path)?;
        self.directories.push(Waiting { path, root })?;
        Ok(())
    }

    /// Adds a file, if its path below one of the command line is chosen.
    fn add_file(&mut self, path: &str, below: &[u8], id: FileId) -> Result<(), AllocError>
        requires { IsBelow (map string_bytes self.old.paths.now) path.now below.now }
        ensures { OnOk result (AddsFile path.now id self.old self.new) }
    {
        if chooses(self.patterns, below) {
            self.push_file(path, id)
        } else {
            Ok(())
        }
    }

    /// Adds a file.
    fn push_file(&mut self, path: &str, id: FileId) -> Result<(), AllocError>
        ensures { OnOk result (FindsFile path.now id self.old self.new) }
    {
        let path = String::from_str(self.alloc, path)?;
        self.found.push(Found { path, id })?;
        Ok(())
    }

    /// Adds what a name in a directory leads to. A name that vanished since the directory was
    /// listed is left out.
    #[tactic(auto, using(crate::proofs::NamedLemmas::unmet))]
    fn visit<T: Tree, E: Write>(
        &mut self,
        tree: &mut T,
        report: &mut Report<E>,
        directory: &Waiting,
        name: &[u8],
    ) -> Result<(), AllocError>
        requires { IsRooted (map string_bytes self.old.paths.now)
            (string_bytes directory.now.path) directory.now.root }
        ensures look { OnOk result (Look
            (inside (string_bytes directory.now.path ++ name.now) name.now)
            (at (scope_of self.old) (T.history tree.old) self.old report.old)
            (at (scope_of self.new) (T.history tree.new) self.new report.new)) }
        ensures loses { OnErr result
            (Loses (T.history tree.old) (T.history tree.new) report.old report.new) }
    {
        let mut path = String::from_str(self.alloc, directory.path.as_str())?;
        let Ok(text) = std::str::from_utf8(name) else {
            let name = escaped(self.alloc, name)?;
            report.fault_in(path.as_bytes(), name.as_slice(), NOT_UTF8);
            return Ok(());
        };
        path.push_str(text)?;
        let whole = path.as_str();
        match tree.node(whole) {
            Lookup::Present(node) => self.add_node(whole, directory.root, name, node),
            Lookup::Absent => Ok(()),
            Lookup::Unknown => {
                report.unknown(whole.as_bytes(), tree.reason());
                Ok(())
            }
        }
    }

    /// Returns whether to leave out a directory, with all below, by its path below one of the
    /// command line.
    fn skips(&self, below: &[u8], name: &[u8]) -> bool
        ensures { (result ≡ true) ↔
            LeavesOut (map string_bytes self.now.patterns.now) below.now name.now }
    {
        is_versioned(name) || leaves_directory(self.patterns, below)
    }

    /// Adds a file or a directory below one of the command line, whose path has `root` bytes.
    /// Others are left out.
    fn add_node(
        &mut self,
        path: &str,
        root: usize,
        name: &[u8],
        node: Node,
    ) -> Result<(), AllocError>
        requires { IsRooted (map string_bytes self.old.paths.now) path.now root }
        ensures { OnOk result
            (Meets (scope_of self.old) (inside path.now name.now) node [] self.old self.new) }
    {
        let below = below(path.as_bytes(), root);
        mark(&mut self.marks, self.patterns, node.kind, below);
        match node.kind {
            NodeKind::File => self.add_file(path, below, node.id),
            NodeKind::Directory if !self.skips(below, name) => self.add_directory(path, root),
            NodeKind::Directory | NodeKind::Link | NodeKind::Other => Ok(()),
        }
    }

    /// Lists a directory, and adds its contents.
    fn enter<T: Tree, E: Write>(
        &mut self,
        tree: &mut T,
        report: &mut Report<E>,
        directory: &Waiting,
    ) -> Result<(), AllocError>
        requires { IsRooted (map string_bytes self.old.paths.now)
            (string_bytes directory.now.path) directory.now.root }
        ensures steps { OnOk result (Steps []
            (topped directory.now (at (scope_of self.old) (T.history tree.old) self.old report.old))
            [] (at (scope_of self.new) (T.history tree.new) self.new report.new)) }
        ensures called { OnOk result (length (T.history tree.old) < length (T.history tree.new)) }
        ensures stops { OnErr result (Stops []
            (topped directory.now (at (scope_of self.old) (T.history tree.old) self.old report.old))
            (T.history tree.new) report.new) }
    {
        let names = self.list_directory(tree, report, directory.path.as_str());
        for name in names.as_slice() {
            self.visit(tree, report, directory, name.as_slice())?;
        }
        Ok(())
    }

    /// Returns the names in a directory. After a fault, which was reported, some may be missing.
    #[tactic(auto, using(crate::proofs::NamedLemmas::listed_whole))]
    fn list_directory<T: Tree, E: Write>(
        &self,
        tree: &mut T,
        report: &mut Report<E>,
        directory: &str,
    ) -> Vec<Vec<u8>>
        ensures { Listing directory.now (map (λ n. n.items) result.items) (T.history tree.old)
            (T.history tree.new) report.old report.new }
    {
        let mut names = Vec::new(self.alloc);
        let listed = tree.list(directory, &mut names);
        if listed {
            return names;
        }
        report.failure(directory.as_bytes(), b"Cannot be read", tree.reason());
        names
    }

    /// Lists all directories, and the directories in them.
    ///
    /// # Errors
    /// Fails if memory runs out.
    pub(crate) fn go<T: Tree, E: Write>(
        &mut self,
        tree: &mut T,
        report: &mut Report<E>,
    ) -> Result<(), AllocError>
        requires { AreRooted self.old }
        ensures steps { OnOk result (Steps []
            (at (scope_of self.old) (T.history tree.old) self.old report.old)
            [] (at (scope_of self.new) (T.history tree.new) self.new report.new)) }
        ensures all { OnOk result
            (length (T.history tree.new) + 1 < length (T.history tree.old) + 2 ^ 64 →
            self.new.directories.items ≡ []) }
        ensures stops { OnErr result (Stops []
            (at (scope_of self.old) (T.history tree.old) self.old report.old)
            (T.history tree.new) report.new) }
    {
        'directories: for _entered in 0..u64::MAX {
            let Some(directory) = self.directories.pop() else {
                break;
            };
            self.enter(tree, report, &directory)?;
        }
        Ok(())
    }

    /// Returns for each pattern whether its rule applies to something that the walk met.
    pub(crate) fn marks(&self) -> &[bool]
        ensures { result.now ≡ self.now.marks.items }
    {
        self.marks.as_slice()
    }

    /// Returns the files found, each once, by the first of its paths.
    ///
    /// # Errors
    /// Fails if memory runs out.
    pub(crate) fn finish(self) -> Result<Vec<Found>, AllocError>
        ensures { IfOk result (λ files. IsFileList self.entry.found.items files.items) }
    {
        let mut walk = self;
        walk.found.sort()?;
        let mut seen = BTreeSet::new(walk.alloc);
        let mut files = Vec::new(walk.alloc);
        for found in walk.found {
            pick(&mut files, &mut seen, found)?;
        }
        Ok(files)
    }
}

/// Adds a file, if its path comes after the paths of all files, and none of them is the same file.
/// No path of theirs comes after it. `seen` has the keys of the files.
fn pick(
    files: &mut Vec<Found>,
    seen: &mut BTreeSet<(u64, u64, u64)>,
    found: Found,
) -> Result<(), AllocError>
    requires picked { ArePicked seen.old files.old.items }
    requires sorted { All (λ f. ¬ (IsBefore found f)) files.old.items }
    ensures picked { OnOk result (ArePicked seen.new files.new.items) }
    ensures others { OnOk result (All (Contains files.new.items) files.old.items) }
    ensures kept { OnOk result (IsKept files.new.items found) }
    ensures from { All (λ f. Contains files.old.items f ⊎ (f ≡ found)) files.new.items }
{
    if !comes_after(files.as_slice(), &found) {
        return Ok(());
    }
    let key = (found.id.device, found.id.inode, found.id.born);
    let is_new = seen.insert(key)?;
    if is_new {
        files.push(found)?;
    }
    Ok(())
}

/// Returns whether a file's path comes after the paths of all these files, which ascend.
fn comes_after(files: &[Found], found: &Found) -> bool
    requires { AllPairs IsBefore files.now }
    ensures after { result ≡ true → All (λ f. IsBefore f found.now) files.now }
    ensures before { result ≡ false →
        (last : Found) × Contains files.now last × (¬ (IsBefore last found.now)) }
{
    match files.last() {
        None => true,
        Some(last) => last.path < found.path,
    }
}
