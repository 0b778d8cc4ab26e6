// What a desk in memory was asked for by name.
ghost use Rattle.std.specs.Prelude.{◌≡◌, [], ◌∷◌, ◌++◌, Some, OnOk};
ghost use Rattle.mps_desk.specs.Desk.{AreNext};

use std::alloc::{AllocError, Global};
use std::marker::Model;

/// A name, and whether a file of it was to be made for the log.
#[derive(Drop)]
struct StoredRequest {
    name: String,
    for_log: bool,
}

impl Model for StoredRequest {
    ghost use Rattle.std.specs.Prelude.{string_bytes};
    ghost use Rattle.mps_desk.specs.Desk.{Request};

    ghost Value = { Request };

    ghost view = { λ r. record { name = string_bytes r.name; for_log = r.for_log } };
}

/// What a desk was asked for by name, in order, while there is memory to remember it.
#[derive(Drop)]
pub struct Requests {
    known: Option<Vec<StoredRequest>>,
}

impl Model for Requests {
    ghost use Rattle.std.specs.Prelude.{Option, List, vec_items};
    ghost use Rattle.std.specs.Option.{option_map};
    ghost use Rattle.mps_desk.specs.Desk.{Request};

    ghost Value = { Option (List Request) };

    ghost view = { λ r. option_map (λ v. v.items) r.known };
}

impl Requests {
    pub fn new(alloc: Global) -> Requests
        ensures { result ≡ Some [] }
    {
        Requests {
            known: Some(Vec::new(alloc)),
        }
    }

    /// Remembers one more. Where there is no memory for it, all are forgotten.
    pub fn note(&mut self, alloc: Global, name: &str, for_log: bool)
        ensures { AreNext self.old (record { name = name.now; for_log = for_log } ∷ []) self.new }
    {
        let noted = match &mut self.known {
            Some(all) => push_request(alloc, all, name, for_log).is_ok(),
            None => false,
        };
        if !noted {
            self.known = None;
        }
    }
}

fn push_request(
    alloc: Global,
    all: &mut Vec<StoredRequest>,
    name: &str,
    for_log: bool,
) -> Result<(), AllocError>
    ensures { OnOk result (all.new.items ≡ all.old.items ++ record { name = name.now; for_log = for_log } ∷ []) }
{
    let name = String::from_str(alloc, name)?;
    all.push(StoredRequest { name, for_log })?;
    Ok(())
}
