ghost use Rattle.std.specs.Prelude.{◌≡◌, ◌≤◌, IfOk, IfErr, IfSome, Ok, length};
ghost use Rattle.std.specs.List.{AllByRecursion};
ghost use Rattle.text_lines.specs.Lines.{lines_of};
ghost use Rattle.wire_format.specs.Packets.{reading};
ghost use Rattle.text_rows.specs.Rows.{IsBadAt};
ghost use Rattle.frames_text.specs.Parcels.{IsParcel, ends_of, parcel_at, parcel_of, parcels_read};

use crate::digits::bytes_of;
use crate::parcel::Parcel;
use sprite_bytes::Message;
use sprite_ids::{Kernel, NoMemory};
use std::alloc::Global;
use text_lines::first_line;
use text_rows::LineError;
use wire_format::Packet;

/// How many packets a text may have.
const MOST_PACKETS: usize = 65_535;

/// The packets of a text, one a line, each spelled in lower-case hexadecimal and between different kernels of the first so many
/// (this project). `Line` tells the first line, counted from 1, that isn't of this form, or is the 65,536th.
pub fn read_parcels(alloc: Global, kernels: usize, text: &[u8]) -> Result<Vec<Parcel>, LineError>
    requires { length text.now ≤ 67108864 }
    ensures ok { IfOk result (λ parcels. parcels_read kernels 1 (lines_of text.now) ≡ Ok parcels.items) }
    ensures parcels { IfOk result (λ parcels. AllByRecursion IsParcel parcels.items) }
    ensures few { IfOk result (λ parcels. length parcels.items ≤ 65535) }
    ensures err { IfErr result (IsBadAt (parcels_read kernels 1 (lines_of text.now))) }
{
    let mut parcels = Vec::new(alloc);
    let mut rest = text;
    let mut number = 1;
    while !rest.is_empty() {
        let (line, behind) = first_line(rest);
        let Some(parcel) = parcel_at(alloc, kernels, number, line)? else {
            return Err(LineError::Line(number));
        };
        parcels.push(parcel)?;
        number += 1;
        rest = behind;
    }
    Ok(parcels)
}

// The packet of the line of that number; None where it is none's.
fn parcel_at(
    alloc: Global,
    kernels: usize,
    number: usize,
    line: &[u8],
) -> Result<Option<Parcel>, NoMemory>
    requires { length line.now ≤ 67108864 }
    ensures parcel { IfOk result (λ parcel. parcel ≡ parcel_at kernels number line.now) }
    ensures ends { IfOk result (λ parcel. IfSome parcel IsParcel) }
    ensures few { IfOk result (λ parcel. IfSome parcel (λ _. number ≤ 65535)) }
{
    if number > MOST_PACKETS {
        return Ok(None);
    }
    parcel_of(alloc, kernels, line)
}

// The packet that the line spells; None where it spells none that goes between different kernels of the first so many.
fn parcel_of(alloc: Global, kernels: usize, line: &[u8]) -> Result<Option<Parcel>, NoMemory>
    requires { length line.now ≤ 67108864 }
    ensures parcel { IfOk result (λ parcel. parcel ≡ parcel_of kernels line.now) }
    ensures ends { IfOk result (λ parcel. IfSome parcel IsParcel) }
{
    let Some(bytes) = bytes_of(alloc, line)? else {
        return Ok(None);
    };
    let Some((from, to)) = ends_of(alloc, bytes.as_slice())? else {
        return Ok(None);
    };
    if from == to || usize::from(from.number()) > kernels || usize::from(to.number()) > kernels {
        return Ok(None);
    }
    Ok(Some(Parcel { from, to, bytes }))
}

// The ends of the packet that the bytes spell; None where they spell none.
fn ends_of(alloc: Global, bytes: &[u8]) -> Result<Option<(Kernel, Kernel)>, NoMemory>
    ensures { IfOk result (λ ends. ends ≡ ends_of (reading bytes.now)) }
{
    match Packet::read(alloc, bytes)? {
        Some(packet) => Ok(Some((packet.from, packet.to))),
        None => Ok(None),
    }
}
