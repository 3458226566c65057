ghost use Rattle.std.specs.Prelude.{◌≡◌, ◌<◌};
ghost use Rattle.process_machine.specs.Replies.{given, answered, answer_address};

use crate::arguments::Arguments;
use crate::call::Reply;
use crate::image::Image;
use crate::instruction::{Instruction, SyscallName};
use crate::program::Program;

/// Puts the answer of the call at which the image stands into it, and goes on to the next instruction. An image that
/// stands at no call stays as it is. It takes no memory.
///
/// A value sets register 0 to 0, registers 1 and 2 to its two values, and puts its bytes, all of them, from the address
/// on at which the call wants them: `Read`, `Host`, `List`, `PdGet` and `Ioctl` name one, and for any other call it is 0.
/// A lawful answer has no more bytes than such a call's length or room, and none for any other call; bytes outside the
/// pages or in a page that is away are left out. A refusal sets register 0 to its number and registers 1 and 2 to 0.
pub fn give(program: &Program, image: &mut Image, reply: &Reply)
    ensures { image.new ≡ given program.now image.old reply.now }
{
    let code = program.code.as_slice();
    let place = image.counter() as usize;
    if place < code.len() {
        if let Instruction::Sys { name, operands } = &code[place] {
            let arguments = image.arguments(operands);
            answer(image, answer_address(*name, arguments), reply);
        }
    }
}

// The answer, whose bytes go to that address.
fn answer(image: &mut Image, address: u64, reply: &Reply)
    requires { image.old.counter < 65535 }
    ensures { image.new ≡ answered address image.old reply.now }
{
    match reply {
        Reply::Value {
            first,
            second,
            bytes,
        } => image.answer([0, *first, *second], address, bytes.as_slice()),
        Reply::Error(errno) => image.answer([errno.number() as u64, 0, 0], address, &[]),
    }
}

// Where a call wants its answer's bytes; 0 where it wants none.
fn answer_address(name: SyscallName, arguments: Arguments) -> u64
    ensures { result ≡ answer_address name arguments }
{
    match name {
        SyscallName::Host => arguments.first,
        SyscallName::Read => arguments.second,
        SyscallName::List => arguments.third,
        SyscallName::PdGet => arguments.second,
        SyscallName::Ioctl => arguments.third,
        _ => 0,
    }
}
