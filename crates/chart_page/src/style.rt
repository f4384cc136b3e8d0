//! The fixed texts of a transcript's page.

/// The page to where it is described.
pub(crate) const HEAD: &str = "<!DOCTYPE html>
<html lang=\"en\">
<meta charset=\"utf-8\">
<title>A run of garage_lab</title>
<style>
body{font:13px/1.45 sans-serif;margin:12px;color:#111;background:#fff}
h1{font-size:20px;margin:0 0 6px}
p{margin:4px 0;max-width:900px}
pre{font-size:11px;margin:4px 0}
details{margin:8px 0}
form{position:sticky;top:0;left:12px;width:760px;height:30px;background:#fff;z-index:1}
svg{display:block}
svg text{font:11px monospace;fill:#111}
#names text{font-weight:bold;text-anchor:middle}
#names rect{fill:#fff}
text.t{fill:#555}
text.l{font-size:10px;fill:#333}
text.h{opacity:0}
text.h:hover,path.m:hover+text.h{opacity:1;font-weight:bold;paint-order:stroke;stroke:#fff;stroke-width:4px}
path.m:hover{stroke-width:4}
text.e{text-anchor:end}
text.x{fill:#a33c00;font-weight:bold}
text.q{font-weight:bold;paint-order:stroke;stroke:#fff;stroke-width:3px}
text.a{fill:#6b2fa0;paint-order:stroke;stroke:#fff;stroke-width:3px}
text.w{font-style:italic;fill:#333;paint-order:stroke;stroke:#fff;stroke-width:3px}
path{fill:none}
path.lane{stroke:#999}
path.a{fill:#6b2fa0;stroke:#fff}
path.b{stroke:#333;stroke-width:4}
path.open{stroke-dasharray:3 2;stroke:#777}
path.broken{stroke:#d55e00}
path.m{stroke:#0072b2;stroke-width:1.3;marker-end:url(#head)}
path.k-row,path.k-rows,path.k-block,path.k-same,path.k-differ{stroke:#0072b2;stroke-dasharray:9 2}
path.k-store{stroke:#d55e00;stroke-width:1.8}
path.k-stored{stroke:#d55e00;stroke-dasharray:9 2}
path.k-behind,path.k-nothere,path.k-noblock{stroke:#cc79a7}
path.k-view{stroke:#009e73}
path.again{stroke-dasharray:4 3;stroke-width:1}
path.gone{stroke-dasharray:1 3;marker-end:url(#cross)}
path.v0{fill:url(#grid)}
path.v1{fill:#fff}
path.v2{fill:url(#slant)}
path.from{stroke:#333;stroke-dasharray:6 3}
path.s0{fill:#b79ad6;fill-opacity:.8}
path.s1{fill:#ddd;fill-opacity:.9}
path.s2{fill:#f0e442;fill-opacity:.8}
</style>
<h1>A run of garage_lab</h1>
";

/// From the drawing's end to the lines of the nodes.
pub(crate) const LEGEND: &str = "<details><summary>What lines and colours mean</summary>
<svg width=\"1010\" height=\"122\">
<path class=\"m k-get\" d=\"M8,12L70,12\"/><text x=\"78\" y=\"16\">a question: of a read, or of a walk</text>
<path class=\"m k-row\" d=\"M8,30L70,30\"/><text x=\"78\" y=\"34\">its answer</text>
<path class=\"m k-store\" d=\"M8,48L70,48\"/><text x=\"78\" y=\"52\">rows to be stored</text>
<path class=\"m k-stored\" d=\"M8,66L70,66\"/><text x=\"78\" y=\"70\">stored</text>
<path class=\"m k-view\" d=\"M8,84L70,84\"/><text x=\"78\" y=\"88\">a view of the layouts</text>
<path class=\"m k-behind\" d=\"M8,102L70,102\"/><text x=\"78\" y=\"106\">refused: behind, nothere, noblock</text>
<path class=\"m k-get again\" d=\"M318,12L380,12\"/><text x=\"388\" y=\"16\">dashes: it came once more</text>
<path class=\"m k-get gone\" d=\"M318,30L372,30\"/><text x=\"388\" y=\"34\">dots: it never came, down to where it was lost</text>
<path class=\"m k-get\" d=\"M318,48L340,52M358,44L380,48\"/><text x=\"388\" y=\"52\">two ends: it came more than 80 rows later</text>
<text x=\"318\" y=\"70\">numbers and kinds of messages that would lie under</text><text x=\"318\" y=\"84\">others are shown where they are pointed at</text>
<path class=\"b\" d=\"M712,12L760,12\"/><text x=\"768\" y=\"16\">a request, its answer at the end</text>
<path class=\"b broken\" d=\"M712,30L760,30\"/><text x=\"768\" y=\"34\">ended without an answer</text>
<path class=\"b open\" d=\"M712,48L760,48\"/><text x=\"768\" y=\"52\">open to the end</text>
<path class=\"a\" d=\"M736,61L741,66 736,71 731,66Z\"/><text x=\"768\" y=\"70\">an event at a node</text>
<path class=\"s1\" d=\"M712,79L728,79 728,89 712,89Z\"/><path class=\"s2\" d=\"M728,79L744,79 744,89 728,89Z\"/><path class=\"s0\" d=\"M744,79L760,79 760,89 744,89Z\"/><text x=\"768\" y=\"88\">to what version a node is synced</text>
<path class=\"v1\" d=\"M700,95L720,95 720,115 700,115Z\" style=\"stroke:#777\"/><path class=\"v2\" d=\"M720,95L740,95 740,115 720,115Z\" style=\"stroke:#777\"/><path class=\"v0\" d=\"M740,95L760,95 760,115 740,115Z\" style=\"stroke:#777\"/><text x=\"768\" y=\"106\">the version of the layout</text>
</svg>
</details>
<details><summary>The nodes at the end, with the hashes over their roots</summary><pre>
";

/// From there to the lines that aren't drawn.
pub(crate) const APART: &str = "</pre></details>
<details><summary>Lines of layouts and lists, which aren't drawn</summary><pre>
";

/// The filter to where the nodes are chosen.
pub(crate) const CONTROLS: &str =
    "<form onsubmit=\"return false\"><label>request <input id=\"request\" type=\"number\" min=\"1\" style=\"width:6em\"></label> <label>node <select id=\"node\"><option value=\"\">all</option>";

/// The patterns of versions, and the ends of arrows.
pub(crate) const MARKERS: &str =
    "<defs><pattern id=\"slant\" width=\"14\" height=\"14\" patternUnits=\"userSpaceOnUse\"><path d=\"M0,14L14,0\" style=\"stroke:#dfe7ee;stroke-width:2\"/></pattern><pattern id=\"grid\" width=\"14\" height=\"14\" patternUnits=\"userSpaceOnUse\"><path d=\"M7,0L7,14\" style=\"stroke:#ece0c8;stroke-width:3\"/></pattern><marker id=\"head\" viewBox=\"0 0 8 8\" refX=\"7\" refY=\"4\" markerWidth=\"7\" markerHeight=\"7\" markerUnits=\"userSpaceOnUse\" orient=\"auto\"><path d=\"M0,0L8,4L0,8Z\" style=\"fill:context-stroke\"/></marker><marker id=\"cross\" viewBox=\"0 0 8 8\" refX=\"4\" refY=\"4\" markerWidth=\"9\" markerHeight=\"9\" markerUnits=\"userSpaceOnUse\"><path d=\"M1,1L7,7M7,1L1,7\" style=\"stroke:#a33c00;stroke-width:2\"/></marker></defs>
";
