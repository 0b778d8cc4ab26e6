// A file that a desk in memory keeps.
ghost use Rattle.std.specs.Prelude.{◌≡◌, [], ◌++◌, string_bytes, IfOk, OnOk, OnErr};
ghost use Rattle.std.specs.Option.{option_copied, option_map};
ghost use Rattle.std.specs.Str.{bytes_eq};
ghost use Rattle.mps_desk.specs.Desk.{file_named, with_file, with_more, with_logged};
ghost use Rattle.mps_desk.specs.MemDesk.{index_of_file};

use std::alloc::{AllocError, Global};
use std::marker::Model;

/// A name and the bytes under it.
#[derive(Drop)]
pub struct StoredFile {
    name: String,
    bytes: Vec<u8>,
}

impl Model for StoredFile {
    ghost use Rattle.std.specs.Prelude.{string_bytes};
    ghost use Rattle.mps_desk.specs.Desk.{File};

    ghost Value = { File };

    ghost view = { λ f. record { name = string_bytes f.name; bytes = f.bytes.items } };
}

impl StoredFile {
    pub fn new(alloc: Global, name: &str, bytes: &[u8]) -> Result<StoredFile, AllocError>
        ensures { IfOk result (λ f. f ≡ record { name = name.now; bytes = bytes.now }) }
    {
        Ok(StoredFile {
            name: String::from_str(alloc, name)?,
            bytes: Vec::from_slice(alloc, bytes)?,
        })
    }

    pub fn is_named(&self, name: &str) -> bool
        ensures { result ≡ bytes_eq self.now.name name.now }
    {
        self.name.as_str() == name
    }

    pub fn bytes(&self) -> &[u8]
        ensures { result.now ≡ self.now.bytes }
    {
        &self.bytes
    }

    pub fn extend(&mut self, bytes: &[u8]) -> Result<(), AllocError>
        ensures ok { OnOk result (self.new ≡ record self.old { bytes = self.old.bytes ++ bytes.now }) }
        ensures unchanged { OnErr result (self.new ≡ self.old) }
    {
        self.bytes.extend_from_slice(bytes)
    }

    pub fn replace(&mut self, bytes: Vec<u8>)
        ensures { self.new ≡ record self.old { bytes = bytes.items } }
    {
        self.bytes = bytes;
    }
}

/// The index of the first file of this name, or after the last where there is none.
pub fn index_of(files: &[StoredFile], name: &str) -> usize
    ensures { result ≡ index_of_file files.now name.now }
{
    for (index, file) in files.iter().enumerate() {
        if file.is_named(name) {
            return index;
        }
    }
    files.len()
}

/// The bytes of the file of this name, where there is one.
#[tactic(auto, using(crate::proofs::Files::at_index))]
pub fn bytes_of_file<'a>(files: &'a [StoredFile], name: &str) -> Option<&'a [u8]>
    ensures { option_copied result ≡ file_named files.now name.now }
{
    let index = index_of(files, name);
    if index >= files.len() {
        return None;
    }
    let file = &files[index];
    Some(file.bytes())
}

/// Makes these the bytes of the file of this name.
#[tactic(auto, using(crate::proofs::Files::at_index))]
pub fn put_file(
    alloc: Global,
    files: &mut Vec<StoredFile>,
    name: &str,
    bytes: &[u8],
) -> Result<(), AllocError>
    ensures put { OnOk result (files.new.items ≡ with_file files.old.items name.now bytes.now) }
    ensures unchanged { OnErr result (files.new.items ≡ files.old.items) }
{
    let index = index_of(files, name);
    if index < files.len() {
        let bytes = Vec::from_slice(alloc, bytes)?;
        let file = &mut files[index];
        file.replace(bytes);
    } else {
        files.push(StoredFile::new(alloc, name, bytes)?)?;
    }
    Ok(())
}

/// Makes the file of this name empty, and answers a copy of the name.
pub fn make_file(
    alloc: Global,
    files: &mut Vec<StoredFile>,
    name: &str,
) -> Result<String, AllocError>
    ensures name { IfOk result (λ copy. string_bytes copy ≡ name.now) }
    ensures made { OnOk result (files.new.items ≡ with_file files.old.items name.now []) }
    ensures unchanged { OnErr result (files.new.items ≡ files.old.items) }
{
    let copy = String::from_str(alloc, name)?;
    put_file(alloc, files, name, &[])?;
    Ok(copy)
}

/// Adds the bytes to all that was logged, and to the log's file where there is one.
#[tactic(auto, using(crate::proofs::Files::at_index))]
pub fn add_to_log(
    logged: &mut Vec<u8>,
    files: &mut Vec<StoredFile>,
    log_file: Option<&String>,
    bytes: &[u8],
) -> Result<(), AllocError>
    ensures logged { OnOk result (logged.new.items ≡ logged.old.items ++ bytes.now) }
    ensures filed { OnOk result (files.new.items
        ≡ with_logged files.old.items (option_map string_bytes (option_copied log_file.entry)) bytes.now) }
    ensures unchanged { OnErr result (logged.new.items ≡ logged.old.items) }
    ensures files_unchanged { OnErr result (files.new.items ≡ files.old.items) }
{
    let before = logged.len();
    logged.extend_from_slice(bytes)?;
    match log_file {
        Some(name) => {
            let extended = extend_file(files, name, bytes);
            if extended.is_err() {
                logged.truncate(before);
            }
            extended
        }
        None => Ok(()),
    }
}

/// Adds the bytes to those of the file of this name, where there is one.
#[tactic(auto, using(crate::proofs::Files::at_index))]
fn extend_file(files: &mut Vec<StoredFile>, name: &str, bytes: &[u8]) -> Result<(), AllocError>
    ensures ok { OnOk result (files.new.items ≡ with_more files.old.items name.now bytes.now) }
    ensures unchanged { OnErr result (files.new.items ≡ files.old.items) }
{
    let index = index_of(files, name);
    if index >= files.len() {
        return Ok(());
    }
    let file = &mut files[index];
    file.extend(bytes)
}
