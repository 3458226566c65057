use super::{Lying, MAX, are_filled, bytes, has_text, image, is_filled, is_none};
use process_machine::{Code, Image, Instruction, PageCount, Program, Register, Text};
use sprite_ids::{Bytes, Copying, Items, NoMemory};
use std::alloc::Global;

// How many instructions, and whether they are a program's code.
static LENGTHS: [(usize, bool); 3] = [(0, true), (512, true), (513, false)];

// Whether the instructions are a program's code, or are none.
fn is_so_code(alloc: Global, jumps: &[Instruction], fits: bool) -> bool {
    match Vec::from_slice(alloc, jumps) {
        Ok(code) => Code::of_vec(code).is_some() == fits,
        Err(_) => false,
    }
}

fn codes_have_at_most_512(alloc: Global) -> bool {
    let jumps = [Instruction::Jmp(0); 513];
    for (length, fits) in LENGTHS.iter() {
        let Some(jumps) = jumps.get(..*length) else {
            return false;
        };
        if !is_so_code(alloc, jumps, *fits) {
            return false;
        }
    }
    true
}

fn registers_are_0_to_7() -> bool {
    Register::new(0).is_some()
        && Register::new(7).is_some()
        && Register::new(8).is_none()
        && Register::new(255).is_none()
}

fn page_counts_are_1_to_8() -> bool {
    PageCount::new(1).is_some()
        && PageCount::new(8).is_some()
        && PageCount::new(0).is_none()
        && PageCount::new(9).is_none()
}

#[test]
fn numbers_have_their_ranges(rt: HostRuntime) {
    let are_so = registers_are_0_to_7() && page_counts_are_1_to_8();
    assert!(rt; are_so && codes_have_at_most_512(rt.alloc()));
}

static ZEROS: [u8; 4097] = [0; 4097];

// That many pages of these bytes.
fn pages_of(alloc: Global, count: u8, text: &[u8]) -> Result<Vec<Option<Bytes>>, NoMemory> {
    let mut pages = Vec::new(alloc);
    for _ in 0..count {
        pages.push(Some(bytes(alloc, text)?))?;
    }
    Ok(pages)
}

// Whether that many pages of these bytes are an image, or are none.
fn is_so_image(alloc: Global, count: u8, text: &[u8], fits: bool) -> bool {
    match pages_of(alloc, count, text) {
        Ok(pages) => Image::of_parts(9, 65535, [1; 8], pages).is_some() == fits,
        Err(_) => false,
    }
}

// How many pages of which length, and whether they are an image's.
static SIZES: [(u8, usize, bool); 6] = [
    (1, 4096, true),
    (8, 4096, true),
    (0, 4096, false),
    (9, 4096, false),
    (1, 4095, false),
    (1, 4097, false),
];

fn first_other_size(alloc: Global) -> Option<usize> {
    for (place, (count, length, fits)) in SIZES.iter().enumerate() {
        let Some(text) = ZEROS.get(..*length) else {
            return Some(place);
        };
        if !is_so_image(alloc, *count, text, *fits) {
            return Some(place);
        }
    }
    None
}

#[test]
fn images_have_1_to_8_whole_pages(rt: HostRuntime) {
    is_none(&rt, first_other_size(rt.alloc()));
}

fn has_its_parts(image: &Image) -> bool {
    image.program_number() == 1
        && image.counter() == 0
        && image.page_count() == 3
        && image.registers() == [1, 2, 3, 4, 5, 6, 7, 8]
        && is_filled(image, 0, b'a')
        && image.page(1).is_none()
        && is_filled(image, 2, b'c')
        && image.page(3).is_none()
        && image.page(255).is_none()
}

// Puts a page where none was.
fn takes_a_page(alloc: Global, image: &mut Image) -> bool {
    if image.page_count() != 3 {
        return false;
    }
    let Ok(page) = Bytes::of_slice(alloc, &[b'b'; 4096]) else {
        return false;
    };
    let before = image.set_page(1, Some(page));
    before.is_none() && is_filled(image, 1, b'b')
}

fn is_page(page: &Option<Bytes>, letter: u8) -> bool {
    match page {
        Some(bytes) => are_filled(bytes.as_slice(), 0, letter, Lying(0, b"")),
        None => false,
    }
}

// Takes the first page away.
fn gives_a_page(image: &mut Image) -> bool {
    if image.page_count() != 3 {
        return false;
    }
    let before = image.set_page(0, None);
    is_page(&before, b'a') && image.page(0).is_none() && is_filled(image, 1, b'b')
}

// Whether a copy stays what it is when pages of the image change.
fn change_apart(alloc: Global, image: &mut Image, copy: &Image) -> bool {
    if *copy != *image || !has_its_parts(copy) {
        return false;
    }
    let is_changed = takes_a_page(alloc, image) && gives_a_page(image);
    is_changed && *copy != *image && has_its_parts(copy)
}

fn is_copied(alloc: Global, image: &mut Image) -> bool {
    match image.copy(alloc) {
        Ok(copy) => change_apart(alloc, image, &copy),
        Err(_) => false,
    }
}

fn three_pages_are_copied(alloc: Global) -> bool {
    match image(alloc, [1, 2, 3, 4, 5, 6, 7, 8], b"a-c") {
        Ok(mut image) => is_copied(alloc, &mut image),
        Err(_) => false,
    }
}

#[test]
fn images_have_their_parts(rt: HostRuntime) {
    assert!(rt; three_pages_are_copied(rt.alloc()));
}

// Texts, each with its address.
type Texts = &'static [(u64, &'static [u8])];

fn texts(alloc: Global, rows: Texts) -> Result<Items<Text>, NoMemory> {
    let mut texts = Items::new(alloc);
    for (address, text) in rows {
        texts.push(Text {
            address: *address,
            bytes: bytes(alloc, *text)?,
        })?;
    }
    Ok(texts)
}

// A program of that many pages without code.
fn program(alloc: Global, count: u8, rows: Texts) -> Result<Program, NoMemory> {
    let Some(pages) = PageCount::new(count) else {
        return Err(NoMemory);
    };
    Ok(Program {
        number: 3,
        pages,
        texts: texts(alloc, rows)?,
        code: Code::new(alloc),
    })
}

fn fresh(alloc: Global, count: u8, rows: Texts, arg: u64) -> Result<Image, NoMemory> {
    let program = program(alloc, count, rows)?;
    Image::fresh(alloc, &program, arg)
}

fn is_fresh(image: &Image) -> bool {
    image.program_number() == 3
        && image.counter() == 0
        && image.page_count() == 2
        && image.registers() == [0, MAX, 0, 0, 0, 0, 0, 0]
}

// The second text lies over the first one, which goes on into the second page.
const OVER: Texts = &[(4094, b"abcd"), (4097, b"X")];

fn has_its_texts(alloc: Global) -> bool {
    match fresh(alloc, 2, OVER, MAX) {
        Ok(fresh) => is_fresh(&fresh) && has_text(&fresh, [0, 0], Lying(4094, b"abcX")),
        Err(_) => false,
    }
}

fn is_same_copied(alloc: Global, program: &Program) -> bool {
    match program.copy(alloc) {
        Ok(copy) => copy == *program,
        Err(_) => false,
    }
}

fn program_is_copied(alloc: Global) -> bool {
    match program(alloc, 2, OVER) {
        Ok(program) => is_same_copied(alloc, &program),
        Err(_) => false,
    }
}

#[test]
fn a_fresh_image_has_its_texts(rt: HostRuntime) {
    assert!(rt; has_its_texts(rt.alloc()) && program_is_copied(rt.alloc()));
}

const OUTSIDE: Texts = &[(4096, b"ab"), (MAX - 1, b"abcd")];

fn is_left_empty(alloc: Global) -> bool {
    match fresh(alloc, 1, OUTSIDE, 0) {
        Ok(fresh) => is_filled(&fresh, 0, 0) && fresh.page_count() == 1,
        Err(_) => false,
    }
}

#[test]
fn texts_outside_the_pages_are_left_out(rt: HostRuntime) {
    assert!(rt; is_left_empty(rt.alloc()));
}
