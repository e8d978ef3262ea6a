ghost use Rattle.std.specs.Prelude.{◌≡◌, [], ◌++◌, length, bytes_eq, option_map, position, ◌<◌, IfSome, IfOk, OnOk, OnErr};
ghost use Rattle.plc_io.specs.NamedFiles.{EachNameOnce, bytes_of_file, with_file};

use crate::faults::NoMemory;
use std::alloc::Global;
use std::marker::Model;

/// A file in memory. A contract sees its name and its bytes as a pair of lists.
#[derive(Drop)]
pub struct NamedFile {
    name: String,
    bytes: Vec<u8>,
}

impl Model for NamedFile {
    ghost use Rattle.std.specs.Prelude.{List, ℕ, string_bytes};

    ghost Value = { List ℕ × List ℕ };

    ghost view = { λ f. (string_bytes f.name, f.bytes.items) };
}

impl NamedFile {
    pub fn new(alloc: Global, name: &str, bytes: &[u8]) -> Result<NamedFile, NoMemory>
        ensures { IfOk result (λ f. f ≡ (name.now, bytes.now)) }
    {
        let name = String::from_str(alloc, name)?;
        let bytes = Vec::from_slice(alloc, bytes)?;
        Ok(NamedFile { name, bytes })
    }

    pub fn name(&self) -> &str
        ensures { result.now ≡ self.now.0 }
    {
        self.name.as_str()
    }

    pub fn bytes(&self) -> &[u8]
        ensures { result.now ≡ self.now.1 }
    {
        self.bytes.as_slice()
    }

    /// Puts other bytes into the file.
    fn replace(&mut self, bytes: Vec<u8>)
        ensures { self.new ≡ (self.old.0, bytes.items) }
    {
        self.bytes = bytes;
    }
}

/// Files in memory, no two of one name. A contract sees the list of names with their bytes.
#[derive(Drop)]
pub struct NamedFiles {
    files: Vec<NamedFile>,
}

impl Model for NamedFiles {
    ghost use Rattle.std.specs.Prelude.{List, ℕ};
    ghost use Rattle.plc_io.specs.NamedFiles.{EachNameOnce};

    ghost Value = { List (List ℕ × List ℕ) };

    ghost view = { λ a. a.files.items };

    ghost invariant = { λ a. EachNameOnce a.files.items };
}

impl NamedFiles {
    /// No files. This takes no memory.
    pub fn new(alloc: Global) -> Self
        ensures { result ≡ [] }
    {
        NamedFiles {
            files: Vec::new(alloc),
        }
    }

    /// The files of a list in which no name stands twice.
    pub fn from_vec(files: Vec<NamedFile>) -> Self
        requires { EachNameOnce files.items }
        ensures { result ≡ files.items }
    {
        NamedFiles { files }
    }

    pub fn into_vec(self) -> Vec<NamedFile>
        ensures files { result.items ≡ self }
        ensures once { EachNameOnce self }
    {
        let NamedFiles { files } = self;
        files
    }

    /// The bytes of the file of this name.
    pub fn get(&self, name: &str) -> Option<&[u8]>
        ensures bytes { option_map (λ r. r.now) result ≡ bytes_of_file self.now name.now }
        ensures once { EachNameOnce self.now }
    {
        self.files
            .iter()
            .find(|file| file.name() == name)
            .map(|file| file.bytes())
    }

    /// The files in the order in which their names were put.
    pub fn as_slice(&self) -> &[NamedFile]
        ensures { result.now ≡ self.now }
    {
        self.files.as_slice()
    }

    /// Puts `bytes` under `name`, in place of those that stand there. Without memory nothing
    /// changes.
    pub fn put(&mut self, name: &str, bytes: &[u8]) -> Result<(), NoMemory>
        ensures ok { OnOk result (self.new ≡ with_file self.old name.now bytes.now) }
        ensures err { OnErr result (self.new ≡ self.old) }
    {
        put_file(&mut self.files, name, bytes)
    }
}

fn put_file(files: &mut Vec<NamedFile>, name: &str, bytes: &[u8]) -> Result<(), NoMemory>
    ensures ok { OnOk result (files.new.items ≡ with_file files.old.items name.now bytes.now) }
    ensures err { OnErr result (files.new.items ≡ files.old.items) }
{
    let alloc = *files.allocator();
    match position_of(files.as_slice(), name) {
        Some(at) => {
            let contents = Vec::from_slice(alloc, bytes)?;
            files[at].replace(contents);
        }
        None => files.push(NamedFile::new(alloc, name, bytes)?)?,
    }
    Ok(())
}

/// The place of the file of this name.
fn position_of(files: &[NamedFile], name: &str) -> Option<usize>
    ensures at { result ≡ position (λ f. bytes_eq f.0 name.now) files.now }
    ensures within { IfSome result (λ i. i < length files.now) }
{
    files.iter().position(|file| file.name() == name)
}

/// Bytes in memory, which a contract sees as a list.
#[derive(Drop)]
pub struct Bytes {
    items: Vec<u8>,
}

impl Model for Bytes {
    ghost use Rattle.std.specs.Prelude.{List, ℕ};

    ghost Value = { List ℕ };

    ghost view = { λ a. a.items.items };
}

impl Bytes {
    /// No bytes. This takes no memory.
    pub fn new(alloc: Global) -> Self
        ensures { result ≡ [] }
    {
        Bytes {
            items: Vec::new(alloc),
        }
    }

    pub fn from_vec(items: Vec<u8>) -> Self
        ensures { result ≡ items.items }
    {
        Bytes { items }
    }

    pub fn into_vec(self) -> Vec<u8>
        ensures { result.items ≡ self }
    {
        let Bytes { items } = self;
        items
    }

    pub fn as_slice(&self) -> &[u8]
        ensures { result.now ≡ self.now }
    {
        self.items.as_slice()
    }

    /// Puts `bytes` behind those that are there. Without memory nothing changes.
    pub fn append(&mut self, bytes: &[u8]) -> Result<(), NoMemory>
        ensures ok { OnOk result (self.new ≡ self.old ++ bytes.now) }
        ensures err { OnErr result (self.new ≡ self.old) }
    {
        self.items.extend_from_slice(bytes)
    }
}
