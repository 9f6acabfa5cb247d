//! The style of the page.

use std::alloc::AllocError;

/// The colours of tags, on white.
const LIGHT: [&str; 10] = [
    "#1234af", "#842b02", "#159795", "#904d81", "#9f6bf7", "#a38439", "#0b78bf", "#5d202f",
    "#437224", "#5f5055",
];

/// The colours of tags, on black.
const DARK: [&str; 10] = [
    "#4377ef", "#cc491e", "#30fac1", "#dc75a4", "#c4afff", "#9ba103", "#0a9ce8", "#eba0a3",
    "#ace74e", "#6b796c",
];

/// The colours of heat maps, on white, from few samples to many.
const HEAT_LIGHT: [&str; 8] = [
    "#dcdde8", "#bfc1d4", "#a3a5c0", "#888aab", "#6e6f95", "#55557d", "#3e3c64", "#28244a",
];

/// The same on black.
const HEAT_DARK: [&str; 8] = [
    "#2b2d3f", "#3f4158", "#555773", "#6c6f8f", "#8588aa", "#a0a3c3", "#bfc1da", "#e2e3f2",
];

/// The style before the colours on white.
const ROOT: &str = ":root{color-scheme:light dark;--bg:#fff;
--ink:#1a1d21;--soft:#575e66;--line:#c9ced4;
--thin:#e6e9ec;--band:#1a1d2114;";

/// The style between the colours on white and those on black.
const ROOT_DARK: &str = "}
@media screen and (prefers-color-scheme:dark){:root{--bg:#14171c;--ink:#e9ebee;--soft:#a3abb5;
--line:#454c55;--thin:#272c33;--band:#ffffff17;";

/// The style after the colours.
const RULES: &str = "}}
*{box-sizing:border-box}
body{margin:0 auto;padding:20px 24px 40px;max-width:1600px;background:var(--bg);
color:var(--ink);font:14px/1.45 system-ui,-apple-system,'Segoe UI',Roboto,'Noto Sans',
'Liberation Sans',sans-serif;font-variant-numeric:tabular-nums}
h1{font-size:16px;font-weight:600;margin:0;color:var(--soft);overflow-wrap:anywhere}
h2{font-size:15px;font-weight:600;margin:0;overflow:hidden;text-overflow:ellipsis;
white-space:nowrap}
p{margin:2px 0}
.say{font-size:20px;line-height:1.35;margin:2px 0 6px;text-wrap:pretty}
.say b{font-weight:650}
.slow{list-style:none;margin:6px 0 0;padding:0}
.slow b,.b{font-weight:700}
.soft,figcaption{color:var(--soft);font-size:13px}
table{border-collapse:collapse;margin:14px 0 4px;white-space:nowrap}
th,td{text-align:right;padding:4px 0 4px 22px;border-bottom:1px solid var(--thin)}
thead th{font-weight:500;color:var(--soft);font-size:13px;border-color:var(--line)}
tbody th{font-weight:400;max-width:20em;overflow:hidden;text-overflow:ellipsis}
th:first-child{text-align:left;padding-left:0}
td i{display:inline-block;width:1.9em;text-align:left;font-style:normal;color:var(--soft);
padding-left:.25em}
.w{font-weight:700}.w i{color:inherit}
tr.all>*{font-weight:500;border-color:var(--line)}tr.all .w{font-weight:700}
.k{display:inline-block;vertical-align:middle;margin-right:8px}
summary{cursor:pointer;padding:6px 0}
.two{display:grid;grid-template-columns:minmax(0,1fr);gap:26px 36px;margin-top:22px}
figure{margin:0;min-width:0;position:relative}
.d{display:block;width:100%;overflow:visible;margin-top:2px;padding:18px var(--w) 0 60px}
.d svg{overflow:visible}
.time{--w:var(--r)}.tag{--w:56px}
text,.d div{font-size:12px;fill:var(--soft)}
foreignObject{width:var(--w);height:15px}
.d div{padding-left:6px;overflow:hidden;text-overflow:ellipsis;white-space:nowrap;
line-height:15px;text-align:left;color:var(--soft)}.d .o{padding-left:21px}
.e{text-anchor:end}.m{text-anchor:middle}text.b{fill:var(--ink)}
path{fill:none;vector-effect:non-scaling-stroke;stroke-linejoin:round}
.g{stroke:var(--thin)}.G{stroke:var(--line)}
.break{stroke:var(--soft);stroke-width:1.5;stroke-dasharray:2 3}
.band{fill:var(--band)}.gap{fill:url(#hatch)}
.x{stroke:var(--ink);stroke-opacity:.08;stroke-width:3;vector-effect:none}.y{fill:var(--bg)}
.rose{stroke:var(--t);stroke-width:2.5}.usual{stroke:var(--t);stroke-width:1;stroke-dasharray:3 2}
.u{paint-order:stroke;stroke:var(--bg);stroke-width:3px;stroke-linejoin:round}
.level{stroke:var(--ink);stroke-width:1.5;stroke-dasharray:7 4}
.h{vector-effect:none;stroke-width:1;shape-rendering:crispEdges}
.c{stroke:var(--t);stroke-width:2}
.p50{stroke:var(--t);stroke-width:2.5}.p90{stroke:var(--t);stroke-width:1}.p99{stroke:var(--t);
stroke-width:1.5}.top{stroke:var(--ink);stroke-width:1.5}
.area{fill:var(--t);fill-opacity:.2}.through{fill:var(--t);fill-opacity:.45}.sum{
fill:var(--soft);fill-opacity:.45}
.z{stroke-width:1.2}
.dash{stroke-dasharray:5 2.5}
.sw{float:right;border:0;margin:0;padding:0;font-size:13px;color:var(--soft)}
.sw input{margin:4px 5px 0 14px;vertical-align:top}
figure:has(#yn:checked) .log,figure:has(#yl:checked) .lin{display:none}
.r{fill:transparent}
@media(min-width:1000px){.two{grid-template-columns:repeat(2,minmax(0,1fr))}.one{
grid-template-columns:minmax(0,1fr);max-width:900px}}
@media(max-width:700px){
body{padding:14px 16px 32px}.say{font-size:18px}
.time{--w:min(var(--r),92px)}
.n{display:none}.c{stroke-width:1.5}.p50{stroke-width:2}
table,thead,tbody{display:block}thead{display:none}
table{white-space:normal}
tr{display:grid;grid-template-columns:repeat(3,minmax(0,1fr));gap:1px 12px;padding:7px 0;
border-bottom:1px solid var(--line)}
th,td{border:0;padding:0;display:flex;justify-content:flex-end;white-space:nowrap}
tbody th{max-width:none;font-weight:600;display:block;grid-column:span 2}
td::before{color:var(--soft);font-weight:400;margin-right:auto}
td:nth-child(2)::after{content:' samples';white-space:pre;color:var(--soft)}
td:nth-child(3)::before{content:'per s'}td:nth-child(4){display:none}
td:nth-child(5)::before{content:'p50'}td:nth-child(6)::before{content:'p90'}
td:nth-child(7)::before{content:'p99'}td:nth-child(8)::before{content:'p99.9'}
td:nth-child(9)::before{content:'max'}td:nth-child(10)::before{content:'slow'}
td:empty{display:none}
td i{width:1.8em}
}
@media print{body{padding:0;max-width:none;font-size:12px}.say{font-size:16px}figure,tr{
break-inside:avoid}.two{grid-template-columns:minmax(0,1fr)}.sw{display:none}}";

/// The style of runs that are compared.
const RUNS: &str = "
.ci{fill:var(--t);fill-opacity:.2}
.runs .l{text-align:left}.runs td.l{white-space:normal}.runs+.soft{margin-top:6px}
@media(max-width:700px){
.runs tbody th:first-child{grid-column:span 2}.runs tbody th{grid-column:span 1}
.runs tbody th:only-of-type{grid-column:span 3}
.runs td:nth-child(n){display:flex;white-space:normal;overflow-wrap:anywhere}
.runs td:nth-child(n)::before{content:attr(data-of)}.runs td:nth-child(n)::after{content:none}
.runs td.l:nth-child(n){grid-column:span 3}.runs td.l:nth-child(n)::before{content:none}
.runs td:empty:nth-child(n){display:none}
}";

/// Appends the style of runs that are compared.
pub(crate) fn push_style_of_runs(text: &mut String) -> Result<(), AllocError> {
    text.push_str(RUNS)
}

/// Appends the style.
pub(crate) fn push_style(text: &mut String) -> Result<(), AllocError> {
    text.push_str(ROOT)?;
    push_colours(text, &LIGHT, &HEAT_LIGHT)?;
    text.push_str(ROOT_DARK)?;
    push_colours(text, &DARK, &HEAT_DARK)?;
    text.push_str(RULES)?;
    push_classes(text)
}

/// Appends the colours of tags and of heat maps.
fn push_colours(text: &mut String, tags: &[&str], heat: &[&str]) -> Result<(), AllocError> {
    for (index, colour) in tags.iter().enumerate() {
        write!(text, "--t{index}:{colour};")?;
    }
    for (index, colour) in heat.iter().enumerate() {
        write!(text, "--h{index}:{colour};")?;
    }
    Ok(())
}

/// Appends the classes that have a colour.
fn push_classes(text: &mut String) -> Result<(), AllocError> {
    for index in 0..LIGHT.len() {
        write!(text, ".t{index}{{--t:var(--t{index})}}")?;
    }
    for index in 0..HEAT_LIGHT.len() {
        write!(text, ".h{index}{{stroke:var(--h{index})}}")?;
    }
    Ok(())
}
