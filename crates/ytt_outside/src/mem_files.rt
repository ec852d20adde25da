// Files in memory.
ghost use Rattle.std.specs.Prelude.{◌≡◌, ◌≢◌, ◌↔◌, [], ◌∷◌, ◌++◌, IfOk, IfSome, IsTrue, List, OnErr, OnOk, Err, IsErrOf, IfErr, Some, is_err, false, map, string_bytes, true, if◌then◌else◌};
ghost use Rattle.std.specs.BTreeSet.{keys};
ghost use Rattle.std.specs.List.{list_any};
ghost use Rattle.std.specs.Option.{option_map};
ghost use Rattle.ytt_outside.specs.Counts.{raised};
ghost use Rattle.ytt_outside.specs.Files.{FilesCounts, IsWithin, count_after, got_of, has_bytes, kind_of, names_of};
ghost use Rattle.ytt_outside.specs.MemFiles.{bytes_at, calls_in, entries_in, fails_in, faults_in, is_below, is_below_none, is_free, is_listed, name_below, names_below, standing_in};
ghost use Rattle.ytt_outside.specs.Names.{AreSorted};
ghost use Rattle.ytt_outside.specs.Standing.{file};

use crate::files::{Bytes, Files, FilesStop, Got, PathKind};
use crate::names::texts_of;
use sqlite_items::Items;
use std::alloc::{AllocError, Global};
use std::collections::BTreeSet;
use ytt_base::text::{Memory, Names, Text};

/// Numbers of calls.
pub type Numbers = Items<u64>;

/// Files in memory. It tells its tree: the files that were added, and as a folder every path before
/// a `/` of one of them.
///
/// A call of `kind`, `list` or `read` fails exactly where its number is listed. They are counted
/// together, from 1.
#[derive(Drop)]
pub struct MemFiles {
    entries: Items<(Text, Bytes)>,
    fails: Numbers,
    calls: u64,
    faults: u64,
}

impl MemFiles {
    /// No files, whose calls of these numbers are to fail.
    pub fn new(alloc: Global, fails: Numbers) -> MemFiles
        ensures entries { entries_in result ≡ [] }
        ensures fails { fails_in result ≡ fails }
        ensures calls { calls_in result ≡ 0 }
        ensures faults { faults_in result ≡ 0 }
    {
        MemFiles {
            entries: Items::new(alloc),
            fails,
            calls: 0,
            faults: 0,
        }
    }

    /// Whether a file may be added at the path: nothing stands there yet, and none of the folders that
    /// it lies in is a file. It takes no memory.
    pub fn is_free(&self, path: &str) -> bool
        ensures { result ≡ is_free (entries_in self.now) path.now }
    {
        let entries = self.entries.as_slice();
        matches!(kind_at(entries, path), PathKind::Missing) && is_below_none(entries, path)
    }

    /// Adds a file with these bytes. After want of memory the files are as before.
    ///
    /// Nothing stands at the path yet, and none of the folders that it lies in is a file.
    pub fn add(&mut self, alloc: Global, path: &str, bytes: &[u8]) -> Result<(), Memory>
        requires { is_free (entries_in self.old) path.now ≡ true }
        ensures ok { OnOk result (entries_in self.new ≡ entries_in self.old ++ (path.now, bytes.now) ∷ []) }
        ensures err { OnErr result (entries_in self.new ≡ entries_in self.old) }
        ensures fails { fails_in self.new ≡ fails_in self.old }
        ensures calls { calls_in self.new ≡ calls_in self.old }
        ensures faults { faults_in self.new ≡ faults_in self.old }
    {
        let name = Text::of(alloc, path)?;
        let bytes = Vec::from_slice(alloc, bytes)?;
        self.entries.push((name, Items::from_vec(bytes)))?;
        Ok(())
    }

    /// Counts a call, and its failure where it is listed. It says whether it is.
    fn is_failing(&mut self) -> bool
        ensures listed { result ≡ is_listed (fails_in self.old) (raised (calls_in self.old)) }
        ensures calls { calls_in self.new ≡ raised (calls_in self.old) }
        ensures faults { faults_in self.new ≡ (if result then raised (faults_in self.old) else faults_in self.old) }
        ensures fails { fails_in self.new ≡ fails_in self.old }
        ensures entries { entries_in self.new ≡ entries_in self.old }
    {
        self.calls = self.calls.saturating_add(1);
        let is_listed = is_listed(self.fails.as_slice(), self.calls);
        if is_listed {
            self.faults = self.faults.saturating_add(1);
        }
        is_listed
    }
}

fn is_listed(numbers: &[u64], call: u64) -> bool
    ensures { result ≡ is_listed numbers.now call }
{
    for number in numbers {
        if *number == call {
            return true;
        }
    }
    false
}

fn bytes_at<'a>(entries: &'a [(Text, Bytes)], path: &str) -> Option<&'a Bytes>
    ensures { option_map (λ b. b.now) result ≡ bytes_at entries.now path.now }
{
    for (name, bytes) in entries {
        if name.as_str() == path {
            return Some(bytes);
        }
    }
    None
}

fn is_below(folder: &[u8], path: &[u8]) -> bool
    ensures { result ≡ is_below folder.now path.now }
{
    path.starts_with(folder) && path.len() > folder.len() && path[folder.len()] == b'/'
}

fn is_folder(entries: &[(Text, Bytes)], path: &str) -> bool
    ensures { result ≡ list_any (λ e. is_below path.now e.0) entries.now }
{
    for (name, _) in entries {
        if is_below(path.as_bytes(), name.as_str().as_bytes()) {
            return true;
        }
    }
    false
}

fn is_below_none(entries: &[(Text, Bytes)], path: &str) -> bool
    ensures { result ≡ is_below_none entries.now path.now }
{
    for (name, _) in entries {
        if is_below(name.as_str().as_bytes(), path.as_bytes()) {
            return false;
        }
    }
    true
}

fn kind_at(entries: &[(Text, Bytes)], path: &str) -> PathKind
    ensures { result ≡ kind_of (standing_in entries.now path.now) }
{
    if bytes_at(entries, path).is_some() {
        return PathKind::File;
    }
    if is_folder(entries, path) {
        return PathKind::Folder;
    }
    PathKind::Missing
}

/// The name under which a path stands in the folder that it lies below.
fn name_below<'a>(folder: &str, path: &'a str) -> &'a str
    requires { is_below folder.now path.now ≡ true }
    ensures { result.now ≡ name_below folder.now path.now }
{
    let rest = &path[folder.len() + 1..];
    match rest.split_once('/') {
        None => rest,
        Some((name, _)) => name,
    }
}

/// The names in the folder, each once.
fn names_below(
    alloc: Global,
    entries: &[(Text, Bytes)],
    folder: &str,
) -> Result<BTreeSet<String>, AllocError>
    ensures { IfOk result (λ names. map string_bytes (keys names) ≡ names_below folder.now entries.now) }
{
    let mut names = BTreeSet::new(alloc);
    let mut left = entries.len();
    while left > 0 {
        left -= 1;
        let path = entries[left].0.as_str();
        if is_below(folder.as_bytes(), path.as_bytes()) {
            names.insert(String::from_str(alloc, name_below(folder, path))?)?;
        }
    }
    Ok(names)
}

fn names_at(alloc: Global, entries: &[(Text, Bytes)], path: &str) -> Result<Names, Memory>
    ensures told { IfOk result (λ names. names ≡ names_of (standing_in entries.now path.now)) }
    ensures sorted { IfOk result AreSorted }
{
    if bytes_at(entries, path).is_some() {
        return Ok(Items::new(alloc));
    }
    texts_of(alloc, names_below(alloc, entries, path)?)
}

impl Files for MemFiles {
    ghost tree = { λ m. Some (standing_in (entries_in m)) };

    ghost faults = { faults_in };

    fn kind(&mut self, path: &str) -> Result<PathKind, FilesStop>
        ensures told { IfOk result (λ k. k ≡ kind_of (standing_in (entries_in self.old) path.now)) }
        ensures keeps { entries_in self.new ≡ entries_in self.old }
        ensures cause { FilesCounts (faults_in self.old) (faults_in self.new) result }
        ensures counts { faults_in self.new ≡ count_after result (faults_in self.old) }
        ensures takes_no_memory { result ≢ Err FilesStop.Memory }
        ensures listed { is_listed (fails_in self.old) (raised (calls_in self.old)) ≡ is_err result }
        ensures calls { calls_in self.new ≡ raised (calls_in self.old) }
        ensures fails { fails_in self.new ≡ fails_in self.old }
    {
        if self.is_failing() {
            return Err(FilesStop::Failed);
        }
        Ok(kind_at(self.entries.as_slice(), path))
    }

    fn list(&mut self, alloc: Global, path: &str) -> Result<Names, FilesStop>
        ensures told { IfOk result (λ names. names ≡ names_of (standing_in (entries_in self.old) path.now)) }
        ensures sorted { IfOk result AreSorted }
        ensures keeps { entries_in self.new ≡ entries_in self.old }
        ensures cause { FilesCounts (faults_in self.old) (faults_in self.new) result }
        ensures counts { faults_in self.new ≡ count_after result (faults_in self.old) }
        ensures listed { IsErrOf result FilesStop.Failed ↔ IsTrue (is_listed (fails_in self.old) (raised (calls_in self.old))) }
        ensures calls { calls_in self.new ≡ raised (calls_in self.old) }
        ensures fails { fails_in self.new ≡ fails_in self.old }
    {
        if self.is_failing() {
            return Err(FilesStop::Failed);
        }
        match names_at(alloc, self.entries.as_slice(), path) {
            Ok(names) => Ok(names),
            Err(_) => Err(FilesStop::Memory),
        }
    }

    fn read(&mut self, alloc: Global, path: &str, limit: u64) -> Result<Got, FilesStop>
        ensures told { IfOk result (λ got. got ≡ got_of limit (standing_in (entries_in self.old) path.now)) }
        ensures bound { IfOk result (λ got. IsWithin limit got) }
        ensures keeps { entries_in self.new ≡ entries_in self.old }
        ensures cause { FilesCounts (faults_in self.old) (faults_in self.new) result }
        ensures counts { faults_in self.new ≡ count_after result (faults_in self.old) }
        ensures memory { has_bytes (got_of limit (standing_in (entries_in self.old) path.now)) ≡ false → result ≢ Err FilesStop.Memory }
        ensures listed { IsErrOf result FilesStop.Failed ↔ IsTrue (is_listed (fails_in self.old) (raised (calls_in self.old))) }
        ensures calls { calls_in self.new ≡ raised (calls_in self.old) }
        ensures fails { fails_in self.new ≡ fails_in self.old }
    {
        if self.is_failing() {
            return Err(FilesStop::Failed);
        }
        match bytes_at(self.entries.as_slice(), path) {
            None => Ok(Got::Missing),
            Some(bytes) => copy_within(alloc, bytes.as_slice(), limit),
        }
    }
}

fn copy_within(alloc: Global, bytes: &[u8], limit: u64) -> Result<Got, FilesStop>
    ensures told { IfOk result (λ got. got ≡ got_of limit (file bytes.now)) }
    ensures bound { IfOk result (λ got. IsWithin limit got) }
    ensures memory { IfErr result (λ e. e ≡ FilesStop.Memory) }
    ensures needed { has_bytes (got_of limit (file bytes.now)) ≡ false → result ≢ Err FilesStop.Memory }
{
    if bytes.len() as u64 > limit {
        return Ok(Got::TooLarge);
    }
    match Vec::from_slice(alloc, bytes) {
        Ok(copy) => Ok(Got::Bytes(Items::from_vec(copy))),
        Err(_) => Err(FilesStop::Memory),
    }
}
