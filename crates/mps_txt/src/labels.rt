// The names that a text interns, and the labels of its addresses.

ghost use Rattle.std.specs.Prelude.{◌≡◌, ◌++◌, ◌≢◌, ◌<◌, ◌≤◌, true, Some, None, is_some, length, OnOk, OnErr};
ghost use Rattle.std.specs.Option.{option_map};
ghost use Rattle.mps_base.specs.Record.{number_bytes};
ghost use Rattle.mps_event.specs.Name.{name_in, interned_bytes};
ghost use Rattle.mps_txt.specs.Labels.{no_names, id_at, label_at, after_event, takes_memory, with_name, with_label, without_label, moved};

use crate::record_line::RecordLine;
use mps_address_map::AddressMap;
use mps_event::Event;
use std::alloc::Global;
use std::marker::Model;

/// Why the record of a line could not be applied.
#[derive(Clone, Copy, Debug, PartialEq, Eq)]
pub(crate) enum LabelFault {
    /// It has no meaning after the records before it.
    BadLine,
    /// There is no memory.
    OutOfMemory,
}

/// The interned names, each filled up with zeros, in the order of their ids, and the id of each labelled address.
#[derive(Drop)]
pub(crate) struct Labels {
    names: Vec<[u8; 16]>,
    at: AddressMap<u64>,
}

impl Model for Labels {
    ghost use Rattle.std.specs.Prelude.{map};
    ghost use Rattle.mps_event.specs.Name.{name_in};
    ghost use Rattle.mps_txt.specs.LabelEntries.{labels_of};
    ghost use Rattle.mps_txt.specs.Labels.{Naming};

    ghost Value = { Naming };

    ghost view = { λ l. record { names = map name_in l.names.items; labels = labels_of l.at } };
}

impl Labels {
    /// No names and no labels.
    pub(crate) fn new(alloc: Global, secret: u64) -> Labels
        ensures { result ≡ no_names }
    {
        Labels {
            names: Vec::new(alloc),
            at: AddressMap::new(alloc, secret),
        }
    }

    /// The name that labels an address.
    pub(crate) fn name_at(&self, address: u64) -> Option<[u8; 16]>
        ensures { option_map name_in result ≡ label_at self.now address }
    {
        let id = self.id_at(address)?;
        self.names.get(id as usize).copied()
    }

    /// The id of the name that labels an address.
    fn id_at(&self, address: u64) -> Option<u64>
        ensures { result ≡ id_at self.now address }
    {
        self.at.get(address)
    }

    /// Applies a record to the names and the labels.
    pub(crate) fn apply(&mut self, entry: &RecordLine) -> Result<(), LabelFault>
        ensures state { OnOk result (after_event entry.now.event entry.now.fields self.old ≡ Some self.new) }
        ensures refused { result ≡ Err LabelFault.BadLine → after_event entry.now.event entry.now.fields self.old ≡ None }
        ensures memory { result ≡ Err LabelFault.OutOfMemory → takes_memory entry.now.event entry.now.fields self.old ≡ true }
    {
        let first = entry.fields[0];
        let second = entry.fields[1];
        match entry.event {
            Event::Intern => self.intern(first, name_of(second, entry.fields[2])),
            Event::Label => self.label(first, second),
            Event::Commit | Event::Alloc | Event::Free => {
                self.unlabel(first);
                Ok(())
            }
            Event::Move => self.relocate(first, second),
            _ => Ok(()),
        }
    }

    /// Gives the next id to a name.
    fn intern(&mut self, id: u64, name: [u8; 16]) -> Result<(), LabelFault>
        ensures state { OnOk result ((id ≡ length self.old.names) × (self.new ≡ with_name self.old (name_in name))) }
        ensures refused { result ≡ Err LabelFault.BadLine → id ≢ length self.old.names }
        ensures memory { result ≡ Err LabelFault.OutOfMemory → id ≡ length self.old.names }
    {
        if id != self.names.len() as u64 {
            return Err(LabelFault::BadLine);
        }
        self.names.push(name).map_err(|_| LabelFault::OutOfMemory)
    }

    /// Labels an address with the name of this id.
    fn label(&mut self, at: u64, id: u64) -> Result<(), LabelFault>
        ensures state { OnOk result ((id < length self.old.names) × (self.new ≡ with_label self.old at id)) }
        ensures refused { result ≡ Err LabelFault.BadLine → length self.old.names ≤ id }
        ensures memory { result ≡ Err LabelFault.OutOfMemory → id < length self.old.names }
    {
        if id >= self.names.len() as u64 {
            return Err(LabelFault::BadLine);
        }
        self.put(at, id)
    }

    /// Sets the label of an address.
    fn put(&mut self, at: u64, id: u64) -> Result<(), LabelFault>
        ensures state { OnOk result (self.new ≡ with_label self.old at id) }
        ensures fault { OnErr result (result ≡ Err LabelFault.OutOfMemory) }
    {
        match self.at.insert(at, id) {
            Ok(_) => Ok(()),
            Err(_) => Err(LabelFault::OutOfMemory),
        }
    }

    /// Takes the label of an address away.
    fn unlabel(&mut self, at: u64)
        ensures { self.new ≡ without_label self.old at }
    {
        let _ = self.at.remove(at);
    }

    /// Moves the label of an address to another.
    fn relocate(&mut self, from: u64, to: u64) -> Result<(), LabelFault>
        ensures state { OnOk result (self.new ≡ moved self.old from to) }
        ensures fault { OnErr result (result ≡ Err LabelFault.OutOfMemory) }
        ensures memory { OnErr result (is_some (id_at self.old from) ≡ true) }
    {
        match self.id_at(from) {
            Some(id) => self.put(to, id)?,
            None => self.unlabel(to),
        }
        self.unlabel(from);
        Ok(())
    }
}

/// The 16 bytes of a name: those of two numbers, the lowest first.
pub(crate) fn name_of(low: u64, high: u64) -> [u8; 16]
    ensures { result ≡ number_bytes 8 low ++ number_bytes 8 high }
{
    let mut name = [0u8; 16];
    name[..8].copy_from_slice(&low.to_le_bytes());
    name[8..].copy_from_slice(&high.to_le_bytes());
    name
}
