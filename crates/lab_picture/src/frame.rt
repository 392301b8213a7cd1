// The beginning of every picture.

/// How each kind of thing is drawn.
pub const STYLE: &[u8] = b"<style>
text{font-family:'DejaVu Sans Mono','Menlo','Consolas','Liberation Mono',monospace;fill:#1b2530}
.t{font:bold 25px 'DejaVu Sans','Helvetica','Arial',sans-serif}
.s,.d{font:13px 'DejaVu Sans','Helvetica','Arial',sans-serif;fill:#46525f}
.h{font:bold 14px 'DejaVu Sans','Helvetica','Arial',sans-serif}
.k{font-size:9.5px;fill:#46525f}
.l{font-size:11px}
.lo{font-size:11px;fill:#6d7885}
.n{font-size:12.5px;font-weight:bold}
.c{font-size:9.5px;fill:#46525f}
.m{font-size:10.5px;font-weight:bold}
.f{font-size:10.5px;fill:#5c6773}
.e{font-size:9px}
.v{font-size:9px;fill:#3a4550}
.u{font-size:9.5px;font-weight:bold;fill:#2c3742;stroke:#fff;stroke-width:3px;paint-order:stroke}
.w{font-size:9px;fill:#46525f;stroke:#fff;stroke-width:3px;paint-order:stroke}
.card{fill:#e9eef3;stroke:#43505e;stroke-width:1.4}
.echo{fill:#fff;stroke:#aab3bd;stroke-dasharray:4 3}
.free{fill:#fff;stroke:#c3cad2}
.held{stroke:#2c3742;stroke-opacity:.35}
.move{stroke:#1b2530;stroke-width:1.6;stroke-dasharray:5 3}
.mv text{stroke:#fff;stroke-width:2.6px;stroke-opacity:.8;paint-order:stroke}
.case{fill:none;stroke:#e1e6eb}
.core{fill:none}
.own{fill:none;stroke:#aab3bd;stroke-width:1.5}
.strip{fill:#f3f5f8;stroke:#c3cad2}
.rule{stroke:#d5dbe1}
.also{fill:#43505e}
</style>
<defs>
<pattern id=\"comes\" width=\"9\" height=\"9\" patternUnits=\"userSpaceOnUse\" patternTransform=\"rotate(45)\"><rect width=\"3.5\" height=\"9\" fill=\"#fff\" fill-opacity=\".58\"/></pattern>
<pattern id=\"goes\" width=\"9\" height=\"9\" patternUnits=\"userSpaceOnUse\" patternTransform=\"rotate(-45)\"><rect width=\"3.5\" height=\"9\" fill=\"#fff\" fill-opacity=\".58\"/></pattern>
</defs>
";

/// The key to how things are drawn: samples of machines and trunks, with a word for each.
pub const KEY: &[u8] =
    b"<rect class=\"free\" x=\"40\" y=\"98\" width=\"32\" height=\"15\"/><text class=\"k\" x=\"78\" y=\"109\">free</text>
<rect fill=\"#7eb3cd\" class=\"held\" x=\"116\" y=\"98\" width=\"32\" height=\"15\"/><rect fill=\"#fff\" class=\"bare\" x=\"117\" y=\"99\" width=\"9\" height=\"13\"/><rect fill=\"#003357\" class=\"bare\" x=\"117\" y=\"99\" width=\"7\" height=\"13\"/><text class=\"k\" x=\"154\" y=\"109\">in</text>
<rect fill=\"#7eb3cd\" class=\"move\" x=\"180\" y=\"98\" width=\"32\" height=\"15\"/><rect fill=\"url(#comes)\" class=\"move\" x=\"180\" y=\"98\" width=\"32\" height=\"15\"/><rect fill=\"#fff\" class=\"bare\" x=\"181\" y=\"99\" width=\"9\" height=\"13\"/><rect fill=\"#003357\" class=\"bare\" x=\"181\" y=\"99\" width=\"7\" height=\"13\"/><text class=\"k\" x=\"218\" y=\"109\">coming in</text>
<rect fill=\"#7eb3cd\" class=\"move\" x=\"284\" y=\"98\" width=\"32\" height=\"15\"/><rect fill=\"url(#goes)\" class=\"move\" x=\"284\" y=\"98\" width=\"32\" height=\"15\"/><rect fill=\"#fff\" class=\"bare\" x=\"285\" y=\"99\" width=\"9\" height=\"13\"/><rect fill=\"#003357\" class=\"bare\" x=\"285\" y=\"99\" width=\"7\" height=\"13\"/><text class=\"k\" x=\"322\" y=\"109\">going out</text>
<rect fill=\"#7eb3cd\" class=\"move\" x=\"388\" y=\"98\" width=\"32\" height=\"15\"/><rect fill=\"#fff\" class=\"bare\" x=\"389\" y=\"99\" width=\"9\" height=\"13\"/><rect fill=\"#003357\" class=\"bare\" x=\"389\" y=\"99\" width=\"7\" height=\"13\"/><text class=\"k\" x=\"426\" y=\"109\">staying in a change</text>
<rect class=\"free\" x=\"548\" y=\"98\" width=\"32\" height=\"15\"/><path class=\"also\" d=\"M580 98h-9l9 9z\"/><text class=\"k\" x=\"586\" y=\"109\">on further switches too</text>
<text class=\"k\" x=\"734\" y=\"109\">trunk</text>
<path class=\"case\" stroke-width=\"13\" d=\"M772 106H808\"/><text class=\"k\" x=\"814\" y=\"109\">unused</text>
<path class=\"case\" stroke-width=\"13\" d=\"M854 106H890\"/><path class=\"core\" stroke=\"#f1a237\" stroke-width=\"3.2\" d=\"M854 106H890\"/><text class=\"k\" x=\"896\" y=\"109\">25%</text>
<path class=\"case\" stroke-width=\"13\" d=\"M921 106H957\"/><path class=\"core\" stroke=\"#ea7927\" stroke-width=\"6.5\" d=\"M921 106H957\"/><text class=\"k\" x=\"963\" y=\"109\">50%</text>
<path class=\"case\" stroke-width=\"13\" d=\"M988 106H1024\"/><path class=\"core\" stroke=\"#d64225\" stroke-width=\"9.7\" d=\"M988 106H1024\"/><text class=\"k\" x=\"1030\" y=\"109\">75%</text>
<path class=\"case\" stroke-width=\"13\" d=\"M1055 106H1091\"/><path class=\"core\" stroke=\"#78081e\" stroke-width=\"13\" d=\"M1055 106H1091\"/><text class=\"k\" x=\"1097\" y=\"109\">full</text>
";
