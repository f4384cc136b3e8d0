//! The fixed texts of a layout's page.

pub(crate) const HEAD: &str = "<!DOCTYPE html>
<html lang=\"en\">
<meta charset=\"utf-8\">
<title>A layout of garage_lab</title>
<style>
body{font:14px/1.5 sans-serif;margin:16px;max-width:1120px;color:#111;background:#fff}
h1{font-size:21px;margin:0 0 8px}
h2{font-size:16px;margin:22px 0 4px}
svg{display:block}
svg text{font:12px monospace;fill:#111}
svg text.zone{font-weight:bold}
svg text.end{text-anchor:end}
ul{margin:4px 0}
ul.sets{columns:3;font:12px/1.6 monospace}
rect.whole0{fill:#eee;stroke:#555}
rect.used0{fill:#0072b2;fill-opacity:.75}
rect.set0{fill:#56b4e9;stroke:#fff}
rect.set1{fill:#e69f00;stroke:#fff}
rect.set2{fill:#009e73;stroke:#fff}
rect.set3{fill:#cc79a7;stroke:#fff}
rect.set4{fill:#f0e442;stroke:#777}
path{fill:none}
path.way{stroke:#888}
path.cut{stroke:#d55e00;stroke-width:3.5;stroke-dasharray:9 4}
</style>
<h1>A layout of garage_lab</h1>
";
