//! How shapes look.

/// The rest of the opening word of a picture, the colours and strokes of each class of shapes, and the legend.
///
/// The colours of fates, and those of lines of one form, stay apart for readers with any of the three kinds of colour blindness (`checks/pictures`
/// computes how they see them); the borders of fates differ too.
pub fn style() -> &'static [u8] {
    b"xmlns='http://www.w3.org/2000/svg' font-family='DejaVu Sans,Verdana,sans-serif' font-size='12'>
<defs>
<pattern id='hatch' width='6' height='6' patternUnits='userSpaceOnUse' patternTransform='rotate(45)'><path d='M0 0V6' stroke='#000' stroke-width='3'/></pattern>
<marker id='tip' viewBox='0 0 8 8' refX='8' refY='4' markerWidth='9' markerHeight='9' markerUnits='userSpaceOnUse' orient='auto'><path d='M0 0L8 4L0 8Z' fill='#0072b2'/></marker>
<marker id='end' viewBox='0 0 8 8' refX='8' refY='4' markerWidth='9' markerHeight='9' markerUnits='userSpaceOnUse' orient='auto'><path d='M0 0L8 4L0 8Z' fill='#7a2e00'/></marker>
</defs>
<style>
svg{background:#fff}
.lane path{fill:#f2f2f2}.lane text{font-weight:bold}
.phase path{stroke:#666;stroke-dasharray:2 4}.phase text{fill:#444}
.answered path{fill:#8fd9c4;stroke:#00604a}
.unanswered path{fill:#b5def7;stroke:#0072b2;stroke-width:2;stroke-dasharray:7 3}
.refused path{fill:#f3ad6c;stroke:#7a2e00;stroke-width:2.5}
.stopped path{fill:#a0a0a0;stroke:#222;stroke-dasharray:2 2}
.wait path{fill:url(#hatch);opacity:.4}
.rung path{stroke:#444;stroke-width:1.3;stroke-dasharray:1 3}
.event path{stroke:#222}
.page path{stroke:#0072b2;stroke-width:1.5;marker-end:url(#tip)}
.failure path{stroke:#d40000;stroke-width:3}.failure text{fill:#b00000;font-weight:bold}
.mended path{stroke:#0072b2;stroke-width:2}.mended text{fill:#00507d}
.cause path{stroke:#7a2e00;stroke-width:2;stroke-dasharray:6 3;marker-end:url(#end)}
</style>
<rect width='100%' height='100%' fill='#fff'/>
<g id='legend'>
<g class='answered'><path d='M14 12H38V28H14Z'/></g><text x='44' y='25'>committed</text>
<g class='unanswered'><path d='M140 12H164V28H140Z'/></g><text x='170' y='25'>committed, its answer lost</text>
<g class='refused'><path d='M370 12H394V28H370Z'/></g><text x='400' y='25'>refused</text>
<g class='stopped'><path d='M480 12H504V28H480Z'/></g><text x='510' y='25'>stopped</text>
<g class='wait'><path d='M592 12H616V28H592Z'/></g><text x='622' y='25'>waits</text>
<g class='rung'><path d='M684 20L708 20'/></g><text x='716' y='25'>what came before the end of a wait</text>
<g class='cause'><path d='M972 20L996 20'/></g><text x='1004' y='25'>what was in the way of a refused one</text>
<g class='event'><path d='M18 43L18 53M24 47L24 53M30 43L30 53'/></g><text x='42' y='53'>events, those of transactions longer</text>
<g class='page'><path d='M310 48L334 48'/></g><text x='342' y='53'>a page was written, and the next found by another member</text>
<g class='failure'><path d='M742 40L742 56'/></g><text x='752' y='53'>fails</text>
<g class='mended'><path d='M822 40L822 56'/></g><text x='832' y='53'>restarts, is up, cache rebuilt</text>
</g>
"
}
