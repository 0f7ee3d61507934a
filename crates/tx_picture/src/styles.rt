//! The looks of a picture, and its legend. Two colours that a colour-blind reader can distinguish,
//! two hatchings, marks that are full, empty or half full, and dashes and heads of arrows, so that
//! it reads in grey too.

/// What every picture has before all else: the styles of the classes, the fills, the heads of
/// arrows, and the white page.
pub(crate) const STYLE: &str = "
<style>
text{font:13px monospace;fill:#000}
.number{fill:#555;text-anchor:end}
.left{text-anchor:end}
.starter{font-size:10px;font-weight:bold;stroke:#fff;stroke-width:3;paint-order:stroke}
.head{font-weight:bold;text-anchor:middle;stroke:#fff;stroke-width:4;paint-order:stroke}
.name{font-size:10px;text-anchor:middle;stroke:#fff;stroke-width:3;paint-order:stroke}
line{stroke:#000;stroke-width:2}
.guide{stroke:#999;stroke-width:1;stroke-dasharray:1 4}
.end{stroke-width:3}
.refusal{stroke-dasharray:5 3;marker-end:url(#head)}
.signal{stroke-width:1.5;marker-end:url(#head)}
.held{stroke-width:1.5;stroke-dasharray:2 2}
.dropped{stroke-width:3}
.bend{stroke-width:1.5;stroke-dasharray:8 3 2 3}
.pipe{stroke-width:1.5;stroke-dasharray:8 3 2 3;marker-end:url(#taken)}
.waiting,.wait{stroke-width:1.5;stroke-dasharray:0 4;stroke-linecap:round}
.wait{marker-end:url(#awaited)}
.accepted{fill:#000}
.refused{fill:#fff;stroke:#000;stroke-width:2}
.failed{fill:url(#failed);stroke:#000;stroke-width:2}
.blank{stop-color:#fff}
.committed{fill:url(#committed);stroke:#0072b2;stroke-width:2}
.aborted{fill:url(#aborted);stroke:#d55e00;stroke-width:2;stroke-dasharray:6 3}
.open{fill:#eee;stroke:#555;stroke-width:2;stroke-dasharray:2 3}
.torn{stroke:#fff;stroke-width:4;stroke-dasharray:5 4}
</style>
<defs><pattern id=\"committed\" width=\"8\" height=\"8\" patternUnits=\"userSpaceOnUse\"><rect width=\"8\" height=\"8\" fill=\"#e1f0fa\"/>
<path d=\"M-2,2 L2,-2 M0,8 L8,0 M6,10 L10,6\" stroke=\"#56b4e9\"/>
</pattern>
<pattern id=\"aborted\" width=\"8\" height=\"8\" patternUnits=\"userSpaceOnUse\"><rect width=\"8\" height=\"8\" fill=\"#fdf0e3\"/>
<path d=\"M-2,6 L2,10 M0,0 L8,8 M6,-2 L10,2 M-2,2 L2,-2 M0,8 L8,0 M6,10 L10,6\" stroke=\"#e69f00\"/>
</pattern>
<linearGradient id=\"failed\"><stop offset=\"0.5\"/>
<stop class=\"blank\" offset=\"0.5\"/>
</linearGradient>
<marker id=\"head\" viewBox=\"0 0 10 10\" refX=\"9\" refY=\"5\" markerWidth=\"7\" markerHeight=\"7\" orient=\"auto\"><path d=\"M0,0 L10,5 L0,10 z\"/>
</marker>
<marker id=\"taken\" viewBox=\"0 0 10 10\" refX=\"14\" refY=\"5\" markerWidth=\"8\" markerHeight=\"8\" orient=\"auto\"><path d=\"M1,1 L9,5 L1,9 z\" fill=\"#fff\" stroke=\"#000\"/>
</marker>
<marker id=\"awaited\" viewBox=\"0 0 6 6\" refX=\"5\" refY=\"3\" markerWidth=\"6\" markerHeight=\"6\" orient=\"auto\"><path d=\"M1,1 L5,3 L1,5\" fill=\"none\" stroke=\"#000\"/>
</marker>
</defs>
<rect width=\"100%\" height=\"100%\" fill=\"#fff\"/>
";

/// What the boxes, the marks and the arrows mean.
pub(crate) const LEGEND: &str = "
<rect class=\"committed\" width=\"24\" height=\"16\"/>
<text x=\"32\" y=\"13\">committed</text>
<rect class=\"aborted\" x=\"120\" width=\"24\" height=\"16\"/>
<text x=\"152\" y=\"13\">aborted</text>
<rect class=\"open\" x=\"224\" width=\"24\" height=\"16\"/>
<text x=\"256\" y=\"13\">open</text>
<ellipse class=\"refused\" cx=\"312\" cy=\"8\" rx=\"5\" ry=\"5\"/>
<text x=\"324\" y=\"13\">refused</text>
<line class=\"signal\" y1=\"36\" x2=\"24\" y2=\"36\"/>
<text x=\"32\" y=\"41\">signal</text>
<line class=\"pipe\" x1=\"120\" y1=\"36\" x2=\"150\" y2=\"36\"/>
<ellipse class=\"accepted\" cx=\"150\" cy=\"36\" rx=\"5\" ry=\"5\"/>
<text x=\"160\" y=\"41\">pipe</text>
<line class=\"refusal\" x1=\"224\" y1=\"36\" x2=\"248\" y2=\"36\"/>
<text x=\"256\" y=\"41\">in the way</text>
<ellipse class=\"failed\" cx=\"352\" cy=\"36\" rx=\"5\" ry=\"5\"/>
<text x=\"364\" y=\"41\">error</text>
";
