use picture_drawing::{Wanted, picture};
use sprite_ids::{Bytes, FileId, Kernel, NoMemory};
use std::alloc::Global;
use std::process::Abort;
use std::test::*;
use trace_text::read_trace;
use unix_calls::Rec;

/// A trace, which of its records are shown, with file 2:3 followed, and what stands in the picture so many times.
struct Row {
    trace: &'static [u8],
    first: usize,
    count: u16,
    parts: &'static [(&'static [u8], usize)],
}

// With one lane the legend has two columns, and with one process fifteen items, so eight rows: the first record's row begins at
// 60 + 18 * 8 = 204, its middle is 211, and texts stand 4 below it. With two lanes it has three columns and, without a process, five rows:
// the rows' middles are 157, 171, 185 and 199. The first lane's right edge is 616, the second's left edge 652.
static ROWS: [Row; 7] = [
    // Each record has its number, its mark and its words in its row.
    Row {
        trace: b"1 Burst 1001 10000\n1 Issue 1001 1 getpid\n",
        first: 1,
        count: 2,
        parts: &[
            (b"<g class=\"rec\" id=", 2),
            (b"<rect class=\"lane\"", 1),
            (
                b"<title>1: 1 Burst 1001 10000</title><text class=\"number\" color=\"#222222\" x=\"2\" y=\"215\">1</text>",
                1,
            ),
            (
                b"<use class=\"filled\" color=\"#0072B2\" href=\"#burst\" x=\"352\" y=\"211\"></use>",
                1,
            ),
            (
                b"<text class=\"label\" color=\"#222222\" x=\"428\" y=\"215\">1001 runs 10000</text></g>\n",
                1,
            ),
            (
                b"<text class=\"label\" color=\"#222222\" x=\"428\" y=\"229\">1001.1 getpid</text></g>\n</svg>\n",
                1,
            ),
            (b">kernel 1 c1</text>", 1),
        ],
    },
    // A request comes, and a second one is lost, 20 outside its lane.
    Row {
        trace: b"1 Send 1 2 - other\n2 Deliver 1 1 0 -\n1 Send 2 2 - other\n1 Fault 1 2 lost\n",
        first: 1,
        count: 4,
        parts: &[
            (b"<g class=\"rec\" id=", 4),
            (b"<rect class=\"lane\"", 2),
            (
                b"data-from=\"1\" data-to=\"2\" data-repeated=\"0\" d=\"M616 157L640 171H652\">",
                1,
            ),
            (b"href=\"#right\" x=\"652\" y=\"171\"></use>", 1),
            (
                b"data-from=\"3\" data-to=\"4\" data-repeated=\"0\" d=\"M616 185L636 199\">",
                1,
            ),
            (b" x=\"428\" y=\"203\">lost to 2</text>", 1),
            (b">kernel 2 s1</text>", 1),
        ],
    },
    // What is delivered twice is dashed the second time, and a reply leaves behind the entry for which it waited.
    Row {
        trace: b"1 Send 1 2 - other\n2 Deliver 1 1 0 -\n2 Deliver 1 1 0 -\n2 Mode 2:3 5 off\n1 Deliver 1 2 1 -\n",
        first: 1,
        count: 5,
        parts: &[
            (b"<path class=\"arrow\"", 3),
            (b"data-from=\"1\" data-to=\"2\" data-repeated=\"0\"", 1),
            (b"data-from=\"1\" data-to=\"3\" data-repeated=\"1\"", 1),
            (b"data-from=\"4\" data-to=\"5\" data-repeated=\"0\"", 1),
            (b"<path class=\"off\"", 1),
            (b"href=\"#left\"", 1),
            (b"<path class=\"on\"", 0),
        ],
    },
    // A process moves inside its call: a band from its slot to its slot, a stay on each kernel, and a part of the call on each. The legend
    // has six rows, so the rows' middles are 175, 189 and 203.
    Row {
        trace: b"1 Issue 1001 1 getpid\n1 Freeze 1001\n2 Thaw 1001\n",
        first: 1,
        count: 3,
        parts: &[
            (b"<path class=\"move\"", 1),
            (b"data-from=\"2\" data-to=\"3\"", 1),
            (b"<path class=\"stay\"", 2),
            (b"<path class=\"call\"", 2),
            (b"href=\"#pause\"", 2),
            (b">1001 freezes</text>", 1),
            (
                b" d=\"M616 189L640 203H652M356 189H616M666 203H652\"></path>",
                1,
            ),
        ],
    },
    // Each sign of the language is escaped, in the hint and in what the record says.
    Row {
        trace: b"1 Learned \"/<a>&\\22\" 2\n",
        first: 1,
        count: 1,
        parts: &[
            (
                b"<title>1: 1 Learned &quot;/&lt;a&gt;&amp;\\22&quot; 2</title>",
                1,
            ),
            (b">learned &quot;/&lt;a&gt;&amp;\\22&quot; at 2</text>", 1),
            (b"<a>", 0),
            (b">records 1 to 1 of 1, following 2:3</text>", 1),
            (b">the run ended</text>", 1),
            (b"<path class=\"arrow\"", 0),
            (b"&quot;", 4),
        ],
    },
    // Only the range is drawn.
    Row {
        trace: b"1 Burst 1001 1\n1 Mode 2:3 5 on\n1 Burst 1001 2\n",
        first: 2,
        count: 1,
        parts: &[
            (b">records 2 to 2 of 3, following 2:3</text>", 1),
            (
                b"<g class=\"rec\" id=\"r2\"><title>2: 1 Mode 2:3 5 on</title>",
                1,
            ),
            (b"<g class=\"rec\" id=", 1),
            (b"<text class=\"label bold\" color=\"#222222\" x=\"428\"", 1),
            (b"<path class=\"on\"", 1),
            (b">cut behind record 2</text>", 1),
            (b"<path class=\"rule\"", 0),
        ],
    },
    // What a record says is cut behind 24 characters where it has more than 26, and an entry behind 34 where it has more than 36.
    Row {
        trace: b"1 Enter 1001 1 whole print \"abcdefghijkl\" -> ok 12 0 \"\"\n1 Issue 1001 2 print \"abcdefghijklmnopq\"\n",
        first: 1,
        count: 2,
        parts: &[
            (b">enters 1001.1</text></g>\n", 1),
            (
                b" x=\"66\" y=\"215\">1 1001 print &quot;abcdefghijkl&quot; -&gt; ok ..</text>",
                1,
            ),
            (b">1001.2 print &quot;abcdefghij..</text></g>\n", 1),
            (
                b"<circle class=\"filled\" color=\"#0072B2\" cx=\"54\" cy=\"211\" r=\"4\">",
                1,
            ),
            (b"d=\"M324 211H414\"", 1),
            (b"href=\"#entry\" x=\"412\" y=\"211\"", 1),
            (b"<path class=\"stay\"", 1),
        ],
    },
];

// How often a part stands in a text.
fn count_of(text: &[u8], part: &[u8]) -> usize {
    let mut count = 0usize;
    for at in 0..text.len() {
        if part.first() == text.get(at) && text[at..].starts_with(part) {
            count = count.saturating_add(1);
        }
    }
    count
}

fn names(alloc: Global) -> Result<Vec<Bytes>, NoMemory> {
    let mut names = Vec::with_capacity(alloc, 2)?;
    names.push(Bytes::of_vec(Vec::from_slice(alloc, b"c1")?))?;
    names.push(Bytes::of_vec(Vec::from_slice(alloc, b"s1")?))?;
    Ok(names)
}

fn file() -> Option<FileId> {
    Some(FileId {
        server: Kernel::new(2)?,
        number: 3,
    })
}

// The picture of a row's records.
fn drawn(alloc: Global, records: &[Rec], row: &Row) -> Result<Vec<u8>, NoMemory> {
    let length = records.len();
    if row.first < 1 || length < row.first || length + 1 - row.first < usize::from(row.count) {
        return Ok(Vec::new(alloc));
    }
    let names = names(alloc)?;
    let wanted = Wanted {
        first: row.first,
        count: row.count,
        file: file(),
        names: names.as_slice(),
        stop: b"",
    };
    picture(alloc, records, &wanted)
}

fn parts_stand(text: &[u8], row: &Row) -> bool {
    for (part, count) in row.parts.iter() {
        if count_of(text, part) != *count {
            return false;
        }
    }
    true
}

// Whether all parts of a row stand in its picture; want of memory fails it.
fn is_so(alloc: Global, row: &Row) -> bool {
    let Ok(trace) = read_trace(alloc, row.trace) else {
        return false;
    };
    let text = drawn(alloc, trace.records(), row);
    drop(trace);
    let Ok(text) = text else {
        return false;
    };
    parts_stand(text.as_slice(), row)
}

// The place of the first row that isn't so.
fn first_other(alloc: Global) -> Option<usize> {
    for (place, row) in ROWS.iter().enumerate() {
        if !is_so(alloc, row) {
            return Some(place);
        }
    }
    None
}

#[test]
fn pictures_are_so(rt: HostRuntime) {
    let other = first_other(rt.alloc());
    assert_eq!(rt; other, None);
}
