//! Numbers for channels. What is handed on through a channel that is set gets a new one, so what was there is never taken in again.
ghost use Rattle.std.specs.Prelude.{◌≡◌, [], ◌++◌, true, IfOk, OnOk};
ghost use Rattle.std.specs.Option.{option_to_list};
ghost use Rattle.race_clocks.specs.Numbering.{is_replacing, number_at, numbers_of, IsGiven, kept_number, IsNumbered, HandedOn, no_numbers};

use crate::channel::Channel;
use crate::tables::Tables;
use std::alloc::{AllocError, Global};
use sync_types::Seq;

/// The numbers of all channels, and the next one that is free.
#[derive(Drop)]
pub(crate) struct Numbers {
    tables: Tables,
    next: u32,
}

/// Whether what is handed on through a channel takes the place of what was there.
fn is_replacing(channel: &Channel) -> bool
    ensures { result ≡ is_replacing channel.now }
{
    match channel {
        Channel::Atomic(_) | Channel::MapKey { .. } | Channel::EachKey(_) => true,
        Channel::MutexUnlock(_)
        | Channel::WriterUnlock(_)
        | Channel::ReaderUnlock(_)
        | Channel::Notice { .. }
        | Channel::Lowering(_)
        | Channel::FunctionEnd(_)
        | Channel::PutItem { .. }
        | Channel::Start(_) => false,
    }
}

/// The number that a channel keeps when something is handed on through it.
fn kept_number(tables: &Tables, channel: &Channel) -> Option<u32>
    ensures { result ≡ kept_number tables.now channel.now }
{
    if is_replacing(channel) {
        None
    } else {
        tables.number(channel)
    }
}

/// Adds a number, if there is one.
fn push_some(numbers: &mut Vec<u32>, number: Option<u32>) -> Result<(), AllocError>
    ensures { OnOk result (numbers.new.items ≡ numbers.old.items ++ option_to_list number) }
{
    match number {
        Some(number) => {
            numbers.push(number)?;
            Ok(())
        }
        None => Ok(()),
    }
}

impl Numbers {
    /// No channel has a number.
    pub(crate) fn new(alloc: Global) -> Self
        ensures { result ≡ no_numbers }
    {
        Numbers {
            tables: Tables::new(alloc),
            next: 0,
        }
    }

    /// How many numbers there are.
    pub(crate) fn count(&self) -> usize
        ensures { result ≡ self.now.next }
    {
        self.next as usize
    }

    /// The numbers of the channels from which a turn takes in: of those that have one.
    pub(crate) fn take(&self, alloc: Global, channels: &[Channel]) -> Result<Vec<u32>, AllocError>
        ensures { IfOk result (λ numbers. numbers.items ≡ numbers_of self.now.tables channels.now) }
    {
        let mut numbers = Vec::new(alloc);
        for channel in channels {
            push_some(&mut numbers, self.tables.number(channel))?;
        }
        Ok(numbers)
    }

    /// The number by which a turn hands on through a channel. There are fewer than 2^32, for which no memory would do.
    fn give(&mut self, alloc: Global, channel: &Channel) -> Result<u32, AllocError>
        ensures { IfOk result (λ number. IsGiven channel.now number self.old self.new) }
    {
        match kept_number(&self.tables, channel) {
            Some(number) => Ok(number),
            None => {
                let number = self.next;
                let Some(next) = number.checked_add(1) else {
                    return Err(AllocError);
                };
                self.tables.set(alloc, channel, number)?;
                self.next = next;
                Ok(number)
            }
        }
    }

    /// The numbers by which a turn hands on through these channels.
    pub(crate) fn give_all(
        &mut self,
        alloc: Global,
        channels: &[Channel],
    ) -> Result<Vec<u32>, AllocError>
        requires { IsNumbered self.old }
        ensures { IfOk result (λ numbers. HandedOn self.old self.new numbers.items channels.now) }
    {
        let mut numbers = Vec::new(alloc);
        for channel in channels {
            numbers.push(self.give(alloc, channel)?)?;
        }
        Ok(numbers)
    }
}
