//! The style of the HTML page.

/// How the page looks, in light and in dark, on a narrow screen and on paper.
pub fn style() -> &'static str {
    r#":root {
  color-scheme: light dark;
  --back: #ffffff; --text: #1b1b1b; --soft: #575757; --edge: #c9c9c9; --panel: #f4f4f4; --now: #dbe9ff; --mark: #fff0b8;
  --changed: #9a3a00; --link: #0b4f9e; --IF: #cfe2f3; --RF: #d5ebcb; --ALU: #fff0c2; --MEM: #fad7b5; --WB: #ddd4ee;
  --squashed: #e2e2e2; --squashed-text: #555555; --killed: #f7c1c1; --arrow: #a01050;
}
@media (prefers-color-scheme: dark) {
  :root {
    --back: #16181b; --text: #ececec; --soft: #b0b0b0; --edge: #474b50; --panel: #202327; --now: #223a5c; --mark: #4a4018;
    --changed: #ffb370; --link: #8fc1ff; --IF: #1f435f; --RF: #28492a; --ALU: #55471a; --MEM: #5e3d1b; --WB: #453a63;
    --squashed: #34373b; --squashed-text: #b5b5b5; --killed: #6b2727; --arrow: #ff8fbf;
  }
}
* { box-sizing: border-box; }
body { margin: 0; background: var(--back); color: var(--text); font: 14px/1.4 system-ui, sans-serif;
  display: grid; grid-template-rows: auto 1fr; height: 100vh; height: 100dvh; }
h1 { font-size: 15px; margin: 0; overflow-wrap: anywhere; }
h2 { font-size: 13px; margin: 0 0 2px; }
header { padding: 6px 10px; background: var(--panel); border-bottom: 1px solid var(--edge); }
header p, .help { margin: 0; color: var(--soft); }
.bar { display: flex; flex-wrap: wrap; gap: 6px 8px; align-items: center; margin-top: 4px; }
.bar #slide { flex: 1 1 160px; min-width: 120px; }
button, input, select { font: inherit; color: var(--text); background: var(--back); border: 1px solid var(--soft); border-radius: 4px;
  padding: 2px 8px; min-height: 28px; }
input[type=number] { width: 7.5em; padding-right: 2px; }
#line { width: 5em; }
:focus-visible { outline: 3px solid var(--link); outline-offset: 1px; }
main { display: grid; min-height: 0; gap: 1px; background: var(--edge);
  grid-template-columns: minmax(0, 3fr) minmax(0, 2fr); grid-template-rows: minmax(0, 1fr); }
#right { display: grid; min-height: 0; gap: 1px; grid-template-columns: minmax(0, 1fr) minmax(0, 1fr);
  grid-template-rows: auto minmax(0, 3fr) minmax(0, 2fr) minmax(48px, auto); }
section { background: var(--back); padding: 4px 8px; min-height: 0; min-width: 0; display: flex; flex-direction: column; }
.wide { grid-column: 1 / -1; }
.view { position: relative; overflow: auto; flex: 1; min-height: 0; }
.sizer { position: relative; min-width: 100%; }
.view, pre, table { font: 12px/1.4 ui-monospace, "DejaVu Sans Mono", monospace; }
table { border-spacing: 0; width: 100%; }
th { text-align: left; font-weight: normal; color: var(--soft); }
td, th { padding: 0 8px 0 0; white-space: nowrap; vertical-align: top; }
td.why { white-space: normal; min-width: 12em; }
pre { margin: 0; white-space: pre-wrap; overflow-wrap: anywhere; }
.entry { position: absolute; left: 0; min-width: 100%; height: 20px; line-height: 20px; white-space: pre; }
.entry.on { background: var(--mark); }
.tag { display: inline-block; width: 8.5ch; font-weight: bold; color: var(--changed); }
.changed { color: var(--changed); font-weight: bold; }
#heads { position: sticky; top: 0; z-index: 3; height: 38px; background: var(--panel); border-bottom: 1px solid var(--edge); }
#heads .corner { position: sticky; left: 0; z-index: 4; display: block; width: var(--label); height: 37px; padding-left: 4px;
  background: var(--panel); border-right: 1px solid var(--edge); }
#heads .head { position: absolute; top: 0; width: 38px; height: 37px; line-height: 18px; text-align: center; white-space: pre; }
#heads .head.on { background: var(--now); font-weight: bold; }
.row { position: absolute; left: 0; width: 100%; height: 20px; line-height: 20px; }
.row .label { position: sticky; left: 0; z-index: 2; display: flex; gap: 1ch; width: var(--label); height: 20px; padding: 0 4px;
  background: var(--back); border-right: 1px solid var(--edge); white-space: pre; }
.row .label .what { flex: 1; overflow: hidden; text-overflow: ellipsis; }
.row.on .label { background: var(--mark); }
.cell { position: absolute; top: 1px; width: 36px; height: 18px; line-height: 18px; text-align: center; border-radius: 3px; }
.IF { background: var(--IF); } .RF { background: var(--RF); } .ALU { background: var(--ALU); }
.MEM { background: var(--MEM); } .WB { background: var(--WB); }
.cell.squashed { background: var(--squashed); color: var(--squashed-text); text-decoration: line-through; }
.cell.killed { background: var(--killed); }
.cell.waits { border: 1px dashed var(--soft); line-height: 16px; }
.cell.on { outline: 2px solid var(--text); }
.cell.held { border: 1px dotted var(--soft); color: var(--soft); line-height: 16px; }
.cell.held.on { outline-style: dotted; }
#now { position: absolute; top: 38px; width: 38px; background: var(--now); }
#ways { position: absolute; left: 0; top: 0; z-index: 1; width: 1px; height: 1px; overflow: visible; pointer-events: none; }
#ways path { fill: none; stroke: var(--arrow); stroke-width: 2; }
#ways .tip { fill: var(--arrow); }
@media (max-width: 900px) {
  body { display: block; height: auto; }
  header { position: sticky; top: 0; z-index: 9; }
  main, #right { display: block; background: none; }
  section { border-bottom: 1px solid var(--edge); }
  .view { max-height: 15em; }
  #view { height: 19em; max-height: none; flex: none; }
  #stages tr { display: grid; grid-template-columns: 6ch 11ch minmax(0, 1fr) 7ch; }
  #stages td { white-space: normal; overflow-wrap: anywhere; }
  #stages td.why { grid-column: 2 / -1; }
  #stages th.why { display: none; }
  #registers td, #registers th { padding-right: 4px; }
  header .help { display: none; }
  p.help { font-size: 12px; }
}
@media print {
  body, main, #right { display: block; height: auto; }
  header { position: static; }
  .bar, .help { display: none; }
  section { break-inside: avoid; }
  .view { overflow: hidden; max-height: none; }
  #view { height: 160mm; }
  #source, #listing, #words { height: 60mm; }
  .cell, .entry, .head { print-color-adjust: exact; }
}
"#
}
