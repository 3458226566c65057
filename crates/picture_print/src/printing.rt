ghost use Rattle.std.specs.Prelude.{codes, ◌≡◌, ◌++◌, [], IfOk, OnOk};
ghost use Rattle.std.specs.List.{flat_map};
ghost use Rattle.picture_print.specs.WellFormed.{IsDocument};
ghost use Rattle.picture_print.specs.Svg.{all_marks, attribute_text, class_of, closed, colour_of, element_text, escape_of, escaped, figure_attributes, figure_text, group_name, group_opening, group_text, head_text, hint_text, mark_link, mark_name, mark_steps, mark_text, marks_text, number_text, opened, outline_attributes, outline_words, subject_attributes, svg_attributes, svg_text, tag_of};

use crate::drawing::{Drawing, Figure, Group, Mark, Outline, Role, Subject};
use sprite_ids::NoMemory;
use std::alloc::Global;

/// The marks, each of which the picture tells once.
const MARKS: [Mark; 14] = [
    Mark::Burst,
    Mark::Issue,
    Mark::Return,
    Mark::Pause,
    Mark::Entry,
    Mark::Cross,
    Mark::HeadRight,
    Mark::HeadLeft,
    Mark::Request,
    Mark::Reply,
    Mark::Repeat,
    Mark::Band,
    Mark::Dot,
    Mark::Stripe,
];

/// The drawing as an SVG (this project). Each byte of a text is escaped, and the whole is well-formed: each element that is opened is
/// closed by its name, its attributes have names of their own and stand in quotes, and no sign of the language stands bare in a text or a
/// value. The one error is want of memory.
pub fn svg(alloc: Global, drawing: &Drawing) -> Result<Vec<u8>, NoMemory>
    ensures printed { IfOk result (λ text. text.items ≡ svg_text drawing.now) }
    ensures document { IfOk result (λ text. IsDocument text.items) }
{
    let text = print(alloc, drawing)?;
    Ok(text)
}

fn print(alloc: Global, drawing: &Drawing) -> Result<Vec<u8>, NoMemory>
    ensures { IfOk result (λ text. text.items ≡ svg_text drawing.now) }
{
    let mut out = Vec::new(alloc);
    put_svg(alloc, &mut out, drawing)?;
    put_head(&mut out, drawing.style.as_slice())?;
    put_figures(alloc, &mut out, drawing.figures.as_slice())?;
    put_groups(alloc, &mut out, drawing.groups.as_slice())?;
    out.extend_from_slice(b"</svg>\n")?;
    Ok(out)
}

// Puts the opening of the picture's element.
fn put_svg(alloc: Global, out: &mut Vec<u8>, drawing: &Drawing) -> Result<(), NoMemory>
    ensures { OnOk result (out.new.items ≡ out.old.items ++ opened (codes "svg") (svg_attributes drawing.now)) }
{
    out.extend_from_slice(b"<svg")?;
    put_attribute(out, b"xmlns", b"http://www.w3.org/2000/svg")?;
    put_attribute(out, b"fill", b"none")?;
    put_number(alloc, out, b"width", drawing.width)?;
    put_number(alloc, out, b"height", drawing.height)?;
    out.push(b'>')?;
    Ok(())
}

// Puts the style sheet and the marks.
fn put_head(out: &mut Vec<u8>, style: &[u8]) -> Result<(), NoMemory>
    ensures { OnOk result (out.new.items ≡ out.old.items ++ head_text style.now) }
{
    out.extend_from_slice(b"<style>")?;
    put_escaped(out, style)?;
    out.extend_from_slice(b"</style>")?;
    put_marks(out)?;
    out.push(b'\n')?;
    Ok(())
}

// Puts what marks are.
fn put_marks(out: &mut Vec<u8>) -> Result<(), NoMemory>
    ensures { OnOk result (out.new.items ≡ out.old.items ++ marks_text) }
{
    out.extend_from_slice(b"<defs>")?;
    put_each_mark(out, &MARKS)?;
    out.extend_from_slice(b"</defs>")?;
    Ok(())
}

fn put_each_mark(out: &mut Vec<u8>, marks: &[Mark]) -> Result<(), NoMemory>
    ensures { OnOk result (out.new.items ≡ out.old.items ++ flat_map mark_text marks.now) }
{
    for mark in marks {
        put_mark(out, *mark)?;
    }
    Ok(())
}

fn put_mark(out: &mut Vec<u8>, mark: Mark) -> Result<(), NoMemory>
    ensures { OnOk result (out.new.items ≡ out.old.items ++ mark_text mark) }
{
    out.extend_from_slice(b"<path")?;
    put_attribute(out, b"id", mark_name(mark))?;
    put_attribute(out, b"d", mark_steps(mark))?;
    out.extend_from_slice(b"></path>")?;
    Ok(())
}

// Puts the records' groups, in their order.
fn put_groups(alloc: Global, out: &mut Vec<u8>, groups: &[Group]) -> Result<(), NoMemory>
    ensures { OnOk result (out.new.items ≡ out.old.items ++ flat_map group_text groups.now) }
{
    for group in groups {
        put_group(alloc, out, group)?;
    }
    Ok(())
}

// Puts a record's group: its number, its hint and its figures.
#[tactic(auto, unfolding(crate::specs::Svg::group_text))]
fn put_group(alloc: Global, out: &mut Vec<u8>, group: &Group) -> Result<(), NoMemory>
    ensures { OnOk result (out.new.items ≡ out.old.items ++ group_text group.now) }
{
    put_group_opening(alloc, out, group)?;
    put_hint(out, group.hint.as_slice())?;
    put_figures(alloc, out, group.figures.as_slice())?;
    out.extend_from_slice(b"</g>\n")?;
    Ok(())
}

// Puts the opening of a group's element.
#[tactic(auto, unfolding(crate::specs::Svg::group_opening))]
fn put_group_opening(alloc: Global, out: &mut Vec<u8>, group: &Group) -> Result<(), NoMemory>
    ensures { OnOk result (out.new.items ≡ out.old.items ++ group_opening group.now) }
{
    let name = name_of(alloc, group.number)?;
    out.extend_from_slice(b"<g")?;
    put_attribute(out, b"class", b"rec")?;
    put_attribute(out, b"id", name.as_slice())?;
    out.push(b'>')?;
    Ok(())
}

// The name of a record's group.
#[tactic(auto, unfolding(crate::specs::Svg::group_name))]
fn name_of(alloc: Global, number: u64) -> Result<Vec<u8>, NoMemory>
    ensures { IfOk result (λ name. name.items ≡ group_name number) }
{
    let name = format!(in alloc; "r{number}")?;
    Ok(name.into_bytes())
}

// Puts figures, in their order.
fn put_figures(alloc: Global, out: &mut Vec<u8>, figures: &[Figure]) -> Result<(), NoMemory>
    ensures { OnOk result (out.new.items ≡ out.old.items ++ flat_map figure_text figures.now) }
{
    for figure in figures {
        put_figure(alloc, out, figure)?;
    }
    Ok(())
}

// Puts a figure: one element, with its hint and its words inside.
fn put_figure(alloc: Global, out: &mut Vec<u8>, figure: &Figure) -> Result<(), NoMemory>
    ensures { OnOk result (out.new.items ≡ out.old.items ++ figure_text figure.now) }
{
    put_figure_opening(alloc, out, figure)?;
    put_hint(out, figure.hint.as_slice())?;
    put_escaped(out, words_of(&figure.outline))?;
    put_closing(out, tag_of(&figure.outline))
}

// Puts the opening of a figure's element.
fn put_figure_opening(alloc: Global, out: &mut Vec<u8>, figure: &Figure) -> Result<(), NoMemory>
    ensures { OnOk result (out.new.items ≡ out.old.items ++ opened (tag_of figure.now.outline) (figure_attributes figure.now)) }
{
    out.push(b'<')?;
    out.extend_from_slice(tag_of(&figure.outline))?;
    put_attribute(out, b"class", class_of(figure.role))?;
    put_attribute(out, b"color", colour_of(figure.colour))?;
    put_subject(alloc, out, figure.subject)?;
    put_outline(alloc, out, &figure.outline)?;
    out.push(b'>')?;
    Ok(())
}

// Puts the end of an element of that name.
fn put_closing(out: &mut Vec<u8>, tag: &[u8]) -> Result<(), NoMemory>
    ensures { OnOk result (out.new.items ≡ out.old.items ++ closed tag.now) }
{
    out.extend_from_slice(b"</")?;
    out.extend_from_slice(tag)?;
    out.push(b'>')?;
    Ok(())
}

// Puts a hint, where there is one.
fn put_hint(out: &mut Vec<u8>, hint: &[u8]) -> Result<(), NoMemory>
    ensures { OnOk result (out.new.items ≡ out.old.items ++ hint_text hint.now) }
{
    match hint {
        [] => Ok(()),
        [..] => {
            out.extend_from_slice(b"<title>")?;
            put_escaped(out, hint)?;
            out.extend_from_slice(b"</title>")?;
            Ok(())
        }
    }
}

// Puts what a figure is of.
fn put_subject(alloc: Global, out: &mut Vec<u8>, subject: Subject) -> Result<(), NoMemory>
    ensures { OnOk result (out.new.items ≡ out.old.items ++ subject_attributes subject) }
{
    match subject {
        Subject::Nothing => Ok(()),
        Subject::Kernel(number) => put_number(alloc, out, b"data-kernel", number),
        Subject::Between {
            first,
            last,
            repeated,
        } => {
            put_number(alloc, out, b"data-from", first)?;
            put_number(alloc, out, b"data-to", last)?;
            put_attribute(out, b"data-repeated", if repeated { b"1" } else { b"0" })
        }
    }
}

// Puts where a figure's outline is.
fn put_outline(alloc: Global, out: &mut Vec<u8>, outline: &Outline) -> Result<(), NoMemory>
    ensures { OnOk result (out.new.items ≡ out.old.items ++ outline_attributes outline.now) }
{
    match outline {
        Outline::Box {
            x,
            y,
            width,
            height,
        } => {
            put_number(alloc, out, b"x", *x)?;
            put_number(alloc, out, b"y", *y)?;
            put_number(alloc, out, b"width", *width)?;
            put_number(alloc, out, b"height", *height)
        }
        Outline::Dot { x, y, radius } => {
            put_number(alloc, out, b"cx", *x)?;
            put_number(alloc, out, b"cy", *y)?;
            put_number(alloc, out, b"r", *radius)
        }
        Outline::Line { steps } => put_attribute(out, b"d", steps.as_slice()),
        Outline::Mark { mark, x, y } => {
            put_attribute(out, b"href", mark_link(*mark))?;
            put_number(alloc, out, b"x", *x)?;
            put_number(alloc, out, b"y", *y)
        }
        Outline::Text { x, y, .. } => {
            put_number(alloc, out, b"x", *x)?;
            put_number(alloc, out, b"y", *y)
        }
    }
}

// Puts an attribute with a number.
fn put_number(alloc: Global, out: &mut Vec<u8>, name: &[u8], number: u64) -> Result<(), NoMemory>
    ensures { OnOk result (out.new.items ≡ out.old.items ++ number_text name.now number) }
{
    let digits = format!(in alloc; "{number}")?;
    put_attribute(out, name, digits.as_bytes())
}

// Puts an attribute with a text, whose bytes are escaped.
fn put_attribute(out: &mut Vec<u8>, name: &[u8], value: &[u8]) -> Result<(), NoMemory>
    ensures { OnOk result (out.new.items ≡ out.old.items ++ attribute_text name.now (escaped value.now)) }
{
    out.push(b' ')?;
    out.extend_from_slice(name)?;
    out.extend_from_slice(b"=\"")?;
    put_escaped(out, value)?;
    out.push(b'"')?;
    Ok(())
}

// Puts bytes, each escaped.
fn put_escaped(out: &mut Vec<u8>, bytes: &[u8]) -> Result<(), NoMemory>
    ensures { OnOk result (out.new.items ≡ out.old.items ++ escaped bytes.now) }
{
    for byte in bytes {
        put_byte(out, *byte)?;
    }
    Ok(())
}

// Puts a byte as it stands in a text: `&`, `<`, `>` and `"` by their entities, `?` for a byte that isn't printed.
fn put_byte(out: &mut Vec<u8>, byte: u8) -> Result<(), NoMemory>
    ensures { OnOk result (out.new.items ≡ out.old.items ++ escape_of byte) }
{
    if byte < 32 || 126 < byte {
        out.push(b'?')?;
    } else if byte == b'&' {
        out.extend_from_slice(b"&amp;")?;
    } else if byte == b'<' {
        out.extend_from_slice(b"&lt;")?;
    } else if byte == b'>' {
        out.extend_from_slice(b"&gt;")?;
    } else if byte == b'"' {
        out.extend_from_slice(b"&quot;")?;
    } else {
        out.push(byte)?;
    }
    Ok(())
}

// The element that draws an outline.
fn tag_of(outline: &Outline) -> &'static [u8]
    ensures { result.now ≡ tag_of outline.now }
{
    match outline {
        Outline::Box { .. } => b"rect",
        Outline::Dot { .. } => b"circle",
        Outline::Line { .. } => b"path",
        Outline::Mark { .. } => b"use",
        Outline::Text { .. } => b"text",
    }
}

// The words of an outline; none where it is no text.
fn words_of(outline: &Outline) -> &[u8]
    ensures { result.now ≡ outline_words outline.now }
{
    match outline {
        Outline::Text { words, .. } => words.as_slice(),
        Outline::Box { .. } | Outline::Dot { .. } => &[],
        Outline::Line { .. } | Outline::Mark { .. } => &[],
    }
}

// The class of a role, by which the style sheet knows it.
fn class_of(role: Role) -> &'static [u8]
    ensures { result.now ≡ class_of role }
{
    match role {
        Role::Lane => b"lane",
        Role::Spine => b"spine",
        Role::Rule => b"rule",
        Role::Header => b"header",
        Role::CachingOn => b"on",
        Role::CachingOff => b"off",
        Role::Stay => b"stay",
        Role::Call => b"call",
        Role::Move => b"move",
        Role::Arrow => b"arrow",
        Role::Lost => b"lost",
        Role::Tie => b"tie",
        Role::Filled => b"filled",
        Role::Hollow => b"hollow",
        Role::Alarm => b"alarm",
        Role::Number => b"number",
        Role::Label => b"label",
        Role::Followed => b"label bold",
        Role::Entry => b"entry",
        Role::Bold => b"bold",
        Role::Plain => b"plain",
    }
}

// A process's colour, by its place; seven that differ also for those who are colour-blind, and one for none.
fn colour_of(place: u8) -> &'static [u8]
    ensures { result.now ≡ colour_of place }
{
    match place {
        0 => b"#0072B2",
        1 => b"#D55E00",
        2 => b"#009E73",
        3 => b"#CC79A7",
        4 => b"#332288",
        5 => b"#56B4E9",
        6 => b"#882255",
        _ => b"#222222",
    }
}

// How a figure names a mark.
fn mark_link(mark: Mark) -> &'static [u8]
    ensures { result.now ≡ mark_link mark }
{
    match mark {
        Mark::Burst => b"#burst",
        Mark::Issue => b"#issue",
        Mark::Return => b"#return",
        Mark::Pause => b"#pause",
        Mark::Entry => b"#entry",
        Mark::Cross => b"#cross",
        Mark::HeadRight => b"#right",
        Mark::HeadLeft => b"#left",
        Mark::Request => b"#request",
        Mark::Reply => b"#reply",
        Mark::Repeat => b"#repeat",
        Mark::Band => b"#band",
        Mark::Dot => b"#dot",
        Mark::Stripe => b"#stripe",
    }
}

// The name of a mark.
fn mark_name(mark: Mark) -> &'static [u8]
    ensures { result.now ≡ mark_name mark }
{
    match mark {
        Mark::Burst => b"burst",
        Mark::Issue => b"issue",
        Mark::Return => b"return",
        Mark::Pause => b"pause",
        Mark::Entry => b"entry",
        Mark::Cross => b"cross",
        Mark::HeadRight => b"right",
        Mark::HeadLeft => b"left",
        Mark::Request => b"request",
        Mark::Reply => b"reply",
        Mark::Repeat => b"repeat",
        Mark::Band => b"band",
        Mark::Dot => b"dot",
        Mark::Stripe => b"stripe",
    }
}

// How a mark is drawn about its place.
fn mark_steps(mark: Mark) -> &'static [u8]
    ensures { result.now ≡ mark_steps mark }
{
    match mark {
        Mark::Burst => b"M0 -5h8v10h-8z",
        Mark::Issue => b"M0 -5h8l-4 8z",
        Mark::Return => b"M0 5h8l-4 -8z",
        Mark::Pause => b"M0 -4h8v8h-8z",
        Mark::Entry => b"M8 -6l6 6l-6 6l-6 -6z",
        Mark::Cross => b"M-4 -4l8 8m-8 0l8 -8",
        Mark::HeadRight => b"M0 0l-7 -4v8z",
        Mark::HeadLeft => b"M0 0l7 -4v8z",
        Mark::Request => b"M0 0h18l-7 -4v8l7 -4",
        Mark::Reply => b"M0 0h11v-4l7 4l-7 4v-4",
        Mark::Repeat => b"M0 0h5m3 0h5m3 0h5",
        Mark::Band => b"M0 0h18",
        Mark::Dot => b"M1 0a3 3 0 1 0 6 0a3 3 0 1 0 -6 0",
        Mark::Stripe => b"M4 -7v14",
    }
}
