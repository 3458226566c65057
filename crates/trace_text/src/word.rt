ghost use Rattle.std.specs.Prelude.{◌≡◌};
ghost use Rattle.trace_text.specs.Fields.{of_word, truth_word, truths, truth, fate_word, fates, is_fault, fate_format, cache_word, cache_modes, cache_format, mode_word, modes, mode_format, callback_word, callbacks, callback_format, cause_word, causes, cause_format};

use crate::field::TraceField;
use field_reader::{FieldEnd, Reader};
use link_plan::Fate;
use sprite_ids::{CacheMode, CallKind, Mode, NoMemory};
use std::alloc::Global;
use unix_calls::DropCause;

impl TraceField for bool {
    ghost format = { truth };

    fn put_field(&self, _alloc: Global, out: &mut Vec<u8>) -> Result<(), NoMemory> {
        out.push(if *self { b'1' } else { b'0' })?;
        Ok(())
    }

    fn read_field(_alloc: Global, from: &mut Reader) -> Result<bool, FieldEnd> {
        truth_of(from.word()).ok_or(FieldEnd::NotSpelled)
    }
}

// What is or is not.
fn truth_of(word: &[u8]) -> Option<bool>
    ensures { result ≡ of_word truth_word truths word.now }
{
    if word == b"1".as_slice() {
        Some(true)
    } else if word == b"0".as_slice() {
        Some(false)
    } else {
        None
    }
}

/// The fate of one copy is printed, and such a print isn't read: a packet that met it met no fault.
impl TraceField for Fate {
    ghost format = { fate_format };

    fn put_field(&self, _alloc: Global, out: &mut Vec<u8>) -> Result<(), NoMemory> {
        match self {
            Fate::Once => Ok(out.extend_from_slice(b"once")?),
            Fate::Lost => Ok(out.extend_from_slice(b"lost")?),
            Fate::Twice => Ok(out.extend_from_slice(b"twice")?),
            Fate::Late => Ok(out.extend_from_slice(b"late")?),
        }
    }

    fn read_field(_alloc: Global, from: &mut Reader) -> Result<Fate, FieldEnd> {
        let fate = fate_of(from.word()).ok_or(FieldEnd::NotSpelled)?;
        if is_fault(fate) {
            Ok(fate)
        } else {
            Err(FieldEnd::NotSpelled)
        }
    }
}

// The fate of that word.
fn fate_of(word: &[u8]) -> Option<Fate>
    ensures { result ≡ of_word fate_word fates word.now }
{
    if word == b"once".as_slice() {
        Some(Fate::Once)
    } else if word == b"lost".as_slice() {
        Some(Fate::Lost)
    } else if word == b"twice".as_slice() {
        Some(Fate::Twice)
    } else if word == b"late".as_slice() {
        Some(Fate::Late)
    } else {
        None
    }
}

// Whether a packet of that fate met a fault.
fn is_fault(fate: Fate) -> bool
    ensures { result ≡ is_fault fate }
{
    match fate {
        Fate::Once => false,
        Fate::Lost | Fate::Twice | Fate::Late => true,
    }
}

impl TraceField for CacheMode {
    ghost format = { cache_format };

    fn put_field(&self, _alloc: Global, out: &mut Vec<u8>) -> Result<(), NoMemory> {
        match self {
            CacheMode::On => Ok(out.extend_from_slice(b"on")?),
            CacheMode::Off => Ok(out.extend_from_slice(b"off")?),
            CacheMode::None => Ok(out.extend_from_slice(b"none")?),
        }
    }

    fn read_field(_alloc: Global, from: &mut Reader) -> Result<CacheMode, FieldEnd> {
        cache_mode_of(from.word()).ok_or(FieldEnd::NotSpelled)
    }
}

// The cache mode of that word.
fn cache_mode_of(word: &[u8]) -> Option<CacheMode>
    ensures { result ≡ of_word cache_word cache_modes word.now }
{
    if word == b"on".as_slice() {
        Some(CacheMode::On)
    } else if word == b"off".as_slice() {
        Some(CacheMode::Off)
    } else if word == b"none".as_slice() {
        Some(CacheMode::None)
    } else {
        None
    }
}

impl TraceField for Mode {
    ghost format = { mode_format };

    fn put_field(&self, _alloc: Global, out: &mut Vec<u8>) -> Result<(), NoMemory> {
        match self {
            Mode::Read => Ok(out.extend_from_slice(b"read")?),
            Mode::Write => Ok(out.extend_from_slice(b"write")?),
            Mode::Both => Ok(out.extend_from_slice(b"both")?),
        }
    }

    fn read_field(_alloc: Global, from: &mut Reader) -> Result<Mode, FieldEnd> {
        mode_of(from.word()).ok_or(FieldEnd::NotSpelled)
    }
}

// The open mode of that word.
fn mode_of(word: &[u8]) -> Option<Mode>
    ensures { result ≡ of_word mode_word modes word.now }
{
    if word == b"read".as_slice() {
        Some(Mode::Read)
    } else if word == b"write".as_slice() {
        Some(Mode::Write)
    } else if word == b"both".as_slice() {
        Some(Mode::Both)
    } else {
        None
    }
}

impl TraceField for CallKind {
    ghost format = { callback_format };

    fn put_field(&self, _alloc: Global, out: &mut Vec<u8>) -> Result<(), NoMemory> {
        match self {
            CallKind::Recall => Ok(out.extend_from_slice(b"recall")?),
            CallKind::Stop => Ok(out.extend_from_slice(b"stop")?),
        }
    }

    fn read_field(_alloc: Global, from: &mut Reader) -> Result<CallKind, FieldEnd> {
        callback_of(from.word()).ok_or(FieldEnd::NotSpelled)
    }
}

// What a callback of that word asks.
fn callback_of(word: &[u8]) -> Option<CallKind>
    ensures { result ≡ of_word callback_word callbacks word.now }
{
    if word == b"recall".as_slice() {
        Some(CallKind::Recall)
    } else if word == b"stop".as_slice() {
        Some(CallKind::Stop)
    } else {
        None
    }
}

impl TraceField for DropCause {
    ghost format = { cause_format };

    fn put_field(&self, _alloc: Global, out: &mut Vec<u8>) -> Result<(), NoMemory> {
        match self {
            DropCause::Full => Ok(out.extend_from_slice(b"full")?),
            DropCause::Stop => Ok(out.extend_from_slice(b"stop")?),
            DropCause::Version => Ok(out.extend_from_slice(b"version")?),
        }
    }

    fn read_field(_alloc: Global, from: &mut Reader) -> Result<DropCause, FieldEnd> {
        cause_of(from.word()).ok_or(FieldEnd::NotSpelled)
    }
}

// The cause of that word.
fn cause_of(word: &[u8]) -> Option<DropCause>
    ensures { result ≡ of_word cause_word causes word.now }
{
    if word == b"full".as_slice() {
        Some(DropCause::Full)
    } else if word == b"stop".as_slice() {
        Some(DropCause::Stop)
    } else if word == b"version".as_slice() {
        Some(DropCause::Version)
    } else {
        None
    }
}
