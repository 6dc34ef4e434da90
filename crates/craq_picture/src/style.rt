//! Holds the colours and lines of a picture, for light and dark backgrounds; `painting` writes them
//! at the head of the SVG text.

/// The text before the shapes: the colours by class, and the arrowhead.
pub(crate) const STYLE: &str = "<style>
text { font: 12px 'DejaVu Sans', Verdana, sans-serif; fill: #1c2733; }
.label, .answer, .why, .who { paint-order: stroke; stroke: #ffffff; stroke-width: 5px; stroke-linejoin: round; }
.name { font-weight: bold; font-size: 13px; }
.faint { fill: #5c6873; }
.who { fill: #5c6873; }
.answer { fill: #14632c; }
.why { font-style: italic; fill: #8a4b00; }
.life { stroke: #9aa5b1; stroke-width: 1.5; fill: none; }
.busy { stroke: #5c6873; stroke-width: 5; fill: none; }
.message { stroke: #1f5fa8; stroke-width: 1.5; fill: none; marker-end: url(#head); }
.ignored { stroke: #8a4b00; stroke-width: 1.5; fill: none; stroke-dasharray: 2 4; marker-end: url(#dull); }
.lost { stroke: #a3302c; stroke-width: 1.5; fill: none; stroke-dasharray: 6 3; }
.cross { stroke: #a3302c; stroke-width: 2; fill: none; }
.halt { stroke: #a3302c; stroke-width: 3; fill: none; }
.dot { fill: #1c2733; }
.paper { fill: #ffffff; }
.band { fill: #f1f4f7; }
.head { fill: #1f5fa8; }
.dull { fill: #8a4b00; }
.grown { font-weight: bold; font-size: 13px; fill: #14632c; }
@media screen and (prefers-color-scheme: dark) {
text { fill: #dde4ea; }
.label, .answer, .why, .who { stroke: #14191f; }
.faint, .who { fill: #98a4b0; }
.answer, .grown { fill: #7ddb97; }
.why { fill: #f0b35e; }
.life { stroke: #5c6873; }
.busy { stroke: #98a4b0; }
.message { stroke: #79b4f2; }
.ignored { stroke: #f0b35e; }
.lost, .cross, .halt { stroke: #f2827d; }
.dot { fill: #dde4ea; }
.paper { fill: #14191f; }
.band { fill: #1b222a; }
.head { fill: #79b4f2; }
.dull { fill: #f0b35e; }
}
</style>
<defs><marker id=\"head\" viewBox=\"0 0 10 10\" refX=\"10\" refY=\"5\" markerWidth=\"8\" markerHeight=\"8\" \
markerUnits=\"userSpaceOnUse\" orient=\"auto\"><path class=\"head\" d=\"M0 1L10 5L0 9z\"/></marker>
<marker id=\"dull\" viewBox=\"0 0 10 10\" refX=\"10\" refY=\"5\" markerWidth=\"8\" markerHeight=\"8\" \
markerUnits=\"userSpaceOnUse\" orient=\"auto\"><path class=\"dull\" d=\"M0 1L10 5L0 9z\"/></marker></defs>
";
