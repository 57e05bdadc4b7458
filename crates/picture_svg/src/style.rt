//! How things look.

/// The rules of style, and the hatches. The fills of cells differ by a twelfth of the whole or more
/// in grey, which has 30 parts of red, 59 of green and 11 of blue. Only that of a call is nearer.
pub const STYLE: &str = "<style>
svg.lots text{font:10px Helvetica,Arial,'DejaVu Sans',sans-serif;fill:#000}
svg.lots .title{font-size:13px;font-weight:bold}
svg.lots .line,svg.lots .letter,svg.lots .name{font:9px 'DejaVu Sans Mono',Menlo,Consolas,monospace}
svg.lots .word{font:8px 'DejaVu Sans Mono',Menlo,Consolas,monospace}
svg.lots .said{fill:#666}
svg.lots .name{fill:#333}
svg.lots .end{text-anchor:end}
svg.lots .letter,svg.lots .number{text-anchor:middle}
svg.lots .small{font-size:7px}
svg.lots .number{font-size:8px;fill:#666}
svg.lots .light{fill:#fff}
.grid{stroke:#e4e4e4;stroke-width:.6;fill:none}
.empty{fill:none;stroke:#bbb;stroke-width:.6}
.box{fill:#fff;stroke:#bbb;stroke-width:.6}
.mark,.head{fill:#000;stroke:#000;stroke-width:.8}
.hollow{fill:#fff}
.inside,.origin{fill:#000}
.backing{fill:#fff}
.halo{stroke:#fff;stroke-width:3.6;fill:none}
.shaft{stroke:#000;stroke-width:1.2;fill:none}
.double{stroke-width:3.4}
.core{stroke:#fff;stroke-width:1.2;fill:none}
.dashed{stroke-dasharray:3 2}
.chosen{fill:none;stroke:#000;stroke-width:1.4;stroke-dasharray:4 2}
.column{fill:#fff;fill-opacity:0}
.owns{fill:#00375f}
.pending{fill:url(#pending)}
.upgradable{fill:#0d9b70}
.shares{fill:#8fd3f6}
.runs{fill:#c56a9c}
.calls{fill:#efefef;stroke:#aaa;stroke-width:.5}
.waits{fill:#eca41a}
.aside{fill:url(#aside)}
.taken{fill:url(#taken)}
.retries{fill:#f7e95a}
.owes{fill:#a83400}
</style>
<defs>
<pattern id=\"pending\" width=\"5\" height=\"5\" patternUnits=\"userSpaceOnUse\" patternTransform=\"rotate(45)\">
<rect width=\"5\" height=\"5\" fill=\"#dcebf5\"/><rect width=\"1.6\" height=\"5\" fill=\"#00375f\"/>
</pattern>
<pattern id=\"aside\" width=\"5\" height=\"5\" patternUnits=\"userSpaceOnUse\" patternTransform=\"rotate(-45)\">
<rect width=\"5\" height=\"5\" fill=\"#fdf0d5\"/><rect width=\"1.6\" height=\"5\" fill=\"#c98200\"/>
</pattern>
<pattern id=\"taken\" width=\"4\" height=\"4\" patternUnits=\"userSpaceOnUse\">
<rect width=\"4\" height=\"4\" fill=\"#fdf0d5\"/><circle cx=\"2\" cy=\"2\" r=\".9\" fill=\"#8a5a00\"/>
</pattern>
</defs>
";
