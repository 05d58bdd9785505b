//! The keys of a workload, by number.
ghost use Rattle.std.specs.Prelude.{◌≡◌, ◌≤◌, ℕ, List, [], length, map, IfOk};
ghost use Rattle.std.specs.List.{flat_map};
ghost use Rattle.workload.specs.Draft.{keys_of, all_keys, distinct_count};
ghost use Rattle.workload.specs.Keys.{with_name, with_names, keys_in, number_in, key_number, key_name, call_number, numbers_in};
ghost use Rattle.workload.specs.declared.limits.TheConstants.{MAX_KEYS};

use crate::draft::call_key;
use name_table::NameTable;
use script_calls::Call;
use std::alloc::{AllocError, Global};
use std::marker::Model;
use sync_types::{Name, Seq};

/// Names, each with a number: its place among them, from 0. No two of them are the same.
#[derive(Drop)]
pub struct Keys {
    names: Seq<Name>,
    numbers: NameTable<u32>,
}

impl Model for Keys {
    ghost use Rattle.std.specs.Prelude.{◌≡◌, ℕ, List};
    ghost use Rattle.std.specs.FinMap.{get};
    ghost use Rattle.workload.specs.Keys.{number_in};

    ghost Value = { List (List ℕ) };

    ghost view = { λ k. k.names };

    ghost invariant = { λ k. (name : List ℕ) → get k.numbers name ≡ number_in k.names name };
}

impl Keys {
    /// No names.
    fn new(alloc: Global) -> Result<Self, AllocError>
        ensures { IfOk result (λ keys. keys ≡ []) }
    {
        Ok(Keys {
            names: Seq::new(alloc),
            numbers: NameTable::new(alloc)?,
        })
    }

    /// Adds a name at the end, unless it is there, and answers its number, which stays however many names come after it.
    fn insert(self, alloc: Global, name: &Name) -> Result<(Self, u32), AllocError>
        requires { length self ≤ MAX_KEYS }
        ensures keys { IfOk result (λ made. made.0 ≡ with_name self name.now) }
        ensures number { IfOk result (λ made. (later : List (List ℕ)) → made.1 ≡ key_number (with_names (with_name self name.now) later) name.now) }
    {
        let name = name.as_bytes();
        if let Some(number) = self.numbers.get(name) {
            return Ok((self, number));
        }
        let Keys {
            mut names,
            mut numbers,
        } = self;
        let number = names.len() as u32;
        numbers.insert(alloc, name, number)?;
        names.push(Name::from_bytes(alloc, name)?)?;
        Ok((Keys { names, numbers }, number))
    }

    /// Adds the key of a call, if it has one, and answers its number, or 0 for a call without a key.
    fn insert_call(self, alloc: Global, call: &Call) -> Result<(Self, u32), AllocError>
        requires { length self ≤ MAX_KEYS }
        ensures keys { IfOk result (λ made. made.0 ≡ with_names self (keys_of call.now)) }
        ensures number { IfOk result (λ made. (later : List (List ℕ)) → made.1 ≡ call_number (with_names (with_names self (keys_of call.now)) later) call.now) }
    {
        match call_key(call) {
            None => Ok((self, 0)),
            Some(key) => self.insert(alloc, key),
        }
    }

    /// Adds the keys of a script's calls, and answers each call's number.
    fn insert_script(self, alloc: Global, script: &[Call]) -> Result<(Self, Seq<u32>), AllocError>
        requires { length (with_names self (flat_map keys_of script.now)) ≤ MAX_KEYS }
        ensures keys { IfOk result (λ made. made.0 ≡ with_names self (flat_map keys_of script.now)) }
        ensures numbers { IfOk result (λ made. (later : List (List ℕ)) → made.1 ≡ map (call_number (with_names (with_names self (flat_map keys_of script.now)) later)) script.now) }
    {
        let mut keys = self;
        let mut numbers = Seq::new(alloc);
        for call in script {
            let (more, number) = keys.insert_call(alloc, call)?;
            keys = more;
            numbers.push(number)?;
        }
        Ok((keys, numbers))
    }

    /// The keys of the calls of some scripts, by first appearance, script by script, and for each script the numbers of its calls.
    pub(crate) fn of_scripts(
        alloc: Global,
        scripts: &[Seq<Call>],
    ) -> Result<(Self, Seq<Seq<u32>>), AllocError>
        requires { distinct_count (all_keys scripts.now) ≤ MAX_KEYS }
        ensures keys { IfOk result (λ made. made.0 ≡ keys_in scripts.now) }
        ensures numbers { IfOk result (λ made. made.1 ≡ numbers_in scripts.now) }
    {
        let mut keys = Keys::new(alloc)?;
        let mut numbers = Seq::new(alloc);
        for script in scripts {
            let (more, row) = keys.insert_script(alloc, script.as_slice())?;
            keys = more;
            numbers.push(row)?;
        }
        Ok((keys, numbers))
    }

    /// The names in the order of their numbers.
    pub fn names(&self) -> &[Name]
        ensures { result.now ≡ self.now }
    {
        self.names.as_slice()
    }

    /// The number of a name, if it is one of them.
    pub fn number(&self, name: &[u8]) -> Option<u32>
        ensures { result ≡ number_in self.now name.now }
    {
        self.numbers.get(name)
    }
}

/// The name of a number, or nothing where no name has it.
pub fn key_name(names: &[Name], number: u32) -> &[u8]
    ensures name { result.now ≡ key_name names.now number }
    ensures short { length result.now ≤ 32 }
{
    match names.get(number as usize) {
        None => &[],
        Some(name) => name.as_bytes(),
    }
}
