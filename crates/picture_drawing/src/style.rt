use sprite_ids::NoMemory;
use std::alloc::Global;

/// How the figures look, by their classes: the picture's style sheet.
const RULES: [&[u8]; 19] = [
    b"text{font:11px 'DejaVu Sans Mono',Menlo,Consolas,monospace;fill:#222222}",
    b".number{fill:#666666}",
    b".bold{font-weight:bold}",
    b".label{paint-order:stroke;stroke:#F7F7F7;stroke-width:3px}",
    b".lane{fill:#F7F7F7;stroke:#DDDDDD}",
    b".spine{stroke:#222222;stroke-width:2}",
    b".rule{stroke:#EAEAEA}",
    b".header{fill:#FFFFFF;fill-opacity:0.9}",
    b".on{stroke:#F0C808;stroke-width:6}",
    b".off{stroke:#444444;stroke-width:6;stroke-dasharray:2 2}",
    b".stay{stroke:currentColor}",
    b".call{stroke:currentColor;stroke-width:8;stroke-opacity:0.4}",
    b".move{stroke:currentColor;stroke-width:10;stroke-opacity:0.3;fill:none}",
    b".arrow,.lost{stroke:currentColor;fill:none}",
    b".arrow[data-repeated='1']{stroke-dasharray:5 3}",
    b".tie{stroke:#999999;stroke-dasharray:1 3}",
    b".filled{fill:currentColor;stroke:#222222}",
    b".hollow{fill:#FFFFFF;stroke:currentColor}",
    b".alarm{fill:#FFFFFF;stroke:#B00000}",
];

/// The style sheet of a picture. The one error is want of memory.
pub(crate) fn style(alloc: Global) -> Result<Vec<u8>, NoMemory> {
    let mut out = Vec::new(alloc);
    for rule in RULES {
        out.extend_from_slice(rule)?;
    }
    Ok(out)
}
