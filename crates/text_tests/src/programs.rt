mod tables;

use process_machine::{Instruction, Operand, Program, Register, SyscallName};
use program_text::{AsmEnd, assemble};
use std::alloc::Global;
use std::string::String;
use std::test::Fail;
use tables::{BAD, CALLS, COUNTED, Counted, FIRST_BAD, LAWFUL, WORKED, Worked};

// The first bad line of the text, or 0 where it is a program.
fn first_bad_line(alloc: Global, version: u8, text: &str) -> Result<u32, Fail> {
    match assemble(alloc, text, version) {
        Ok(_) => Ok(0),
        Err(AsmEnd::Line(line)) => Ok(line),
        Err(AsmEnd::NoMemory) => Err("no memory".into()),
    }
}

// The place of the first of these texts whose first bad line isn't that one.
fn first_wrong(alloc: Global, texts: &[&str], bad: u32) -> Result<Option<usize>, Fail> {
    for (place, text) in texts.iter().enumerate() {
        if first_bad_line(alloc, 1, text)? != bad {
            return Ok(Some(place));
        }
    }
    Ok(None)
}

#[test]
fn single_lines(rt: HostRuntime) -> Result<(), Fail> {
    assert_eq!(rt; first_wrong(rt.alloc(), &LAWFUL, 0)?, None);
    assert_eq!(rt; first_wrong(rt.alloc(), &BAD, 1)?, None);
    Ok(())
}

// The place of the first row whose first bad line isn't the row's.
fn first_wrong_text(alloc: Global, rows: &[(u8, &str, u32)]) -> Result<Option<usize>, Fail> {
    for (place, (version, text, bad)) in rows.iter().enumerate() {
        if first_bad_line(alloc, *version, text)? != *bad {
            return Ok(Some(place));
        }
    }
    Ok(None)
}

#[test]
fn first_bad_lines(rt: HostRuntime) -> Result<(), Fail> {
    assert_eq!(rt; first_wrong_text(rt.alloc(), &FIRST_BAD)?, None);
    Ok(())
}

// So many copies of a line, with another text before and behind.
fn repeated(
    alloc: Global,
    before: &str,
    line: &str,
    count: usize,
    behind: &str,
) -> Result<String, Fail> {
    let mut text = String::from_str(alloc, before)?;
    for _ in 0..count {
        text.push_str(line)?;
    }
    text.push_str(behind)?;
    Ok(text)
}

// Whether the row's first bad line is that of its text.
fn counts_right(alloc: Global, row: &Counted) -> Result<bool, Fail> {
    let text = repeated(alloc, row.before, row.line, row.count, row.behind)?;
    Ok(first_bad_line(alloc, 1, text.as_str())? == row.bad)
}

fn first_miscounted(alloc: Global, rows: &[Counted]) -> Result<Option<usize>, Fail> {
    for (place, row) in rows.iter().enumerate() {
        if !counts_right(alloc, row)? {
            return Ok(Some(place));
        }
    }
    Ok(None)
}

#[test]
fn many_lines(rt: HostRuntime) -> Result<(), Fail> {
    assert_eq!(rt; first_miscounted(rt.alloc(), &COUNTED)?, None);
    Ok(())
}

fn register(number: u8) -> Result<Register, Fail> {
    Ok(Register::new(number).ok_or("a register")?)
}

// Whether the program of a text of that version begins with the instruction.
fn begins(alloc: Global, version: u8, text: &str, instruction: Instruction) -> Result<bool, Fail> {
    match assemble(alloc, text, version) {
        Ok(program) => Ok(program.code.as_slice().first() == Some(&instruction)),
        Err(_) => Ok(false),
    }
}

fn first_other(alloc: Global, rows: &[(&str, Instruction)]) -> Result<Option<usize>, Fail> {
    for (place, (text, instruction)) in rows.iter().enumerate() {
        if !begins(alloc, 1, text, *instruction)? {
            return Ok(Some(place));
        }
    }
    Ok(None)
}

#[test]
fn instructions(rt: HostRuntime) -> Result<(), Fail> {
    let [r1, r2, r3] = [register(1)?, register(2)?, register(3)?];
    let rows = [
        ("set r1 7", Instruction::Set(r1, 7)),
        (
            "set r1 18446744073709551615",
            Instruction::Set(r1, u64::MAX),
        ),
        ("mov r1 r2", Instruction::Mov(r1, r2)),
        ("mov r2 r1", Instruction::Mov(r2, r1)),
        ("add r2 r1", Instruction::Add(r2, r1)),
        ("sub r1 r2", Instruction::Sub(r1, r2)),
        ("mul r1 r2", Instruction::Mul(r1, r2)),
        ("addi r3 010", Instruction::Addi(r3, 10)),
        ("div r1 r2", Instruction::Div(r1, r2)),
        ("mod r1 r2", Instruction::Mod(r1, r2)),
        ("ldb r1 r2", Instruction::Ldb(r1, r2)),
        ("stb r1 r2", Instruction::Stb(r1, r2)),
        ("ldw r1 r2", Instruction::Ldw(r1, r2)),
        ("stw r1 r2", Instruction::Stw(r1, r2)),
        ("jmp a\na:", Instruction::Jmp(1)),
        ("a: \njmp a", Instruction::Jmp(0)),
        (
            "jeq r1 r2 a\nsys tick\na:\nsys tick\nb:",
            Instruction::Jeq(r1, r2, 2),
        ),
        (
            "jne r2 r1 b\nsys tick\na:\nsys tick\nb:",
            Instruction::Jne(r2, r1, 3),
        ),
        (
            "jlt r1 r3 r9\ntext 0 \"a\"\nr9:\n#\nb:",
            Instruction::Jlt(r1, r3, 1),
        ),
    ];
    assert_eq!(rt; first_other(rt.alloc(), &rows)?, None);
    Ok(())
}

// Whether the line of that call's word, with two operands, is that call.
fn calls(alloc: Global, word: &str, name: SyscallName) -> Result<bool, Fail> {
    let text = repeated(alloc, "sys ", word, 1, " r3 5")?;
    let operands = [
        Some(Operand::Register(register(3)?)),
        Some(Operand::Number(5)),
        None,
        None,
    ];
    begins(alloc, 2, text.as_str(), Instruction::Sys { name, operands })
}

fn first_miscalled(alloc: Global, rows: &[(&str, SyscallName)]) -> Result<Option<usize>, Fail> {
    for (place, (word, name)) in rows.iter().enumerate() {
        if !calls(alloc, word, *name)? {
            return Ok(Some(place));
        }
    }
    Ok(None)
}

#[test]
fn names_of_calls(rt: HostRuntime) -> Result<(), Fail> {
    assert_eq!(rt; first_miscalled(rt.alloc(), &CALLS)?, None);
    Ok(())
}

// Whether the program has that text at that place.
fn has_text(program: &Program, at: usize, address: u64, bytes: &[u8]) -> bool {
    match program.texts.as_slice().get(at) {
        Some(text) => text.address == address && text.bytes.as_slice() == bytes,
        None => false,
    }
}

// Whether it is the program of the test below.
fn has_its_parts(program: &Program) -> bool {
    program.number == 1
        && program.pages.count() == 3
        && program.texts.len() == 2
        && has_text(program, 0, 8, b"a\\\"\n".as_slice())
        && has_text(program, 1, 9, b" ~".as_slice())
        && program.code.as_slice().last() == Some(&Instruction::Jmp(1))
}

#[test]
fn parts_of_a_program(rt: HostRuntime) -> Result<(), Fail> {
    let text = "pages 3\ntext 8 \"a\\\\\\\"\\n\"\nsys tick\ntext 9 \" ~\"\nend:\njmp end\n";
    let program = assemble(rt.alloc(), text, 1).map_err(|_| "a program")?;
    assert!(rt; has_its_parts(&program));
    Ok(())
}

// Whether the program of the row's text has the row's pages, texts and instructions.
fn is_so_large(alloc: Global, row: &Worked) -> bool {
    match assemble(alloc, row.text, row.version) {
        Ok(program) => {
            program.pages.count() == row.pages
                && program.texts.len() == row.texts
                && program.code.len() == row.steps
        }
        Err(_) => false,
    }
}

fn first_otherwise(alloc: Global, rows: &[Worked]) -> Option<usize> {
    for (place, row) in rows.iter().enumerate() {
        if !is_so_large(alloc, row) {
            return Some(place);
        }
    }
    None
}

#[test]
fn whole_programs(rt: HostRuntime) -> Result<(), Fail> {
    assert_eq!(rt; first_otherwise(rt.alloc(), &WORKED), None);
    Ok(())
}

#[test]
fn errors_are_printed(rt: HostRuntime) -> Result<(), Fail> {
    let alloc = rt.alloc();
    let line = format!(in alloc; "{}", AsmEnd::Line(7))?;
    assert!(rt; line.as_str() == "line 7 is bad");
    let memory = format!(in alloc; "{}", AsmEnd::NoMemory)?;
    assert!(rt; memory.as_str() == "out of memory");
    Ok(())
}
