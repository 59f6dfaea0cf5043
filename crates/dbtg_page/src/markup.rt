//! What comes before a page's data: its parts, and how they look, on a light or a dark background as the reader's browser asks.

pub static MARKUP: &str = "\
<!DOCTYPE html>
<html lang='en'>
<head>
<meta charset='utf-8'>
<meta name='viewport' content='width=device-width'>
<title>A run, step by step</title>
<style>
:root {
  color-scheme: light dark;
  --ground: #fff; --panel: #f4f6f8; --line: #c9d1d9; --text: #1f2328; --faint: #59636e;
  --done: #067a06; --refused: #c00; --waits: #a85400; --chosen: #0b57b0; --now: #fff3c4;
}
@media (prefers-color-scheme: dark) {
  :root {
    --ground: #161b22; --panel: #1f262e; --line: #444c56; --text: #dde3ea; --faint: #9aa5b1;
    --done: #5fd35f; --refused: #ff7b72; --waits: #f0a050; --chosen: #79b8ff; --now: #4a3f10;
  }
}
* { box-sizing: border-box; }
[hidden] { display: none !important; }
body { margin: 0; height: 100vh; display: flex; flex-direction: column; background: var(--ground); color: var(--text); font: 15px system-ui, sans-serif; }
header { display: flex; flex-wrap: wrap; gap: 6px; align-items: center; padding: 8px 12px; border-bottom: 1px solid var(--line); background: var(--panel); }
h1 { margin: 0 8px 0 0; font-size: 15px; }
button { font: inherit; color: inherit; background: var(--ground); border: 1px solid var(--line); border-radius: 5px; padding: 3px 9px; cursor: pointer; }
button:disabled { color: var(--faint); cursor: default; }
#slider { flex: 1; min-width: 100px; margin: 0 8px; }
#place { min-width: 130px; text-align: right; color: var(--faint); }
#told { padding: 7px 12px; border-bottom: 1px solid var(--line); min-height: 58px; line-height: 21px; }
#told p { margin: 0; }
main { flex: 1; display: flex; min-height: 0; }
#left { flex: 0 1 auto; max-width: 62%; min-width: 280px; display: flex; flex-direction: column; border-right: 1px solid var(--line); min-height: 0; }
#time { flex: 1; overflow: auto; min-height: 0; }
#rows { border-collapse: collapse; width: 100%; min-width: calc(44px + 150px * var(--units)); max-width: calc(44px + 300px * var(--units)); table-layout: fixed; }
#rows thead th { position: sticky; top: 0; z-index: 1; padding: 5px 8px; text-align: left; vertical-align: top; background: var(--panel); border-bottom: 1px solid var(--line); cursor: pointer; }
#rows th:first-child { width: 44px; padding: 4px 6px; text-align: right; font-weight: normal; color: var(--faint); vertical-align: top; font-size: 13px; }
#rows thead small { display: block; font-weight: normal; color: var(--faint); overflow-wrap: anywhere; }
#rows thead .chosen b { color: var(--chosen); }
#rows .waits { margin-left: 6px; color: var(--waits); }
#rows td { padding: 4px 8px; border-left: 1px solid var(--line); vertical-align: top; font: 13px ui-monospace, monospace; overflow-wrap: anywhere; }
#rows tbody tr { cursor: pointer; }
#rows tbody tr:not(#midway):hover { background: var(--panel); }
#rows:not(.begun) tbody tr, #rows tr.now ~ tr { opacity: 0.45; }
#rows tr.now { background: var(--now); }
#rows #midway { opacity: 1; color: var(--chosen); }
.status { color: var(--done); font-weight: bold; }
td .status { display: block; }
.status.refused { color: var(--refused); }
#current { flex: none; max-height: 34%; overflow: auto; border-top: 1px solid var(--line); padding: 6px 8px; font-size: 13px; }
#current h2 { margin: 0 0 3px; font-size: 14px; color: var(--chosen); }
#current table { border-collapse: collapse; }
#current th { text-align: left; font-weight: normal; color: var(--faint); padding: 0 12px 0 0; vertical-align: top; }
#current td { font: 12px ui-monospace, monospace; }
#right { flex: 1; min-width: 0; overflow: auto; padding: 4px; }
#areas, #sets, #more { padding: 4px 8px; color: var(--faint); font-size: 13px; }
#areas b { color: var(--text); }
#sets button, #more button { padding: 0 7px; margin: 0 5px 3px 0; font-size: 12px; }
#sets button { border-width: 2px; }
#sets .hidden { opacity: 0.45; text-decoration: line-through; }
svg { display: block; }
svg text { font: 12px ui-monospace, monospace; fill: var(--text); white-space: pre; }
svg .key { font-weight: bold; }
svg .box { fill: var(--panel); stroke: var(--faint); }
svg .run { stroke: var(--chosen); stroke-width: 3; }
svg .changed { fill: var(--now); }
svg .ring { fill: none; stroke-width: 1.7; }
svg .back { stroke-dasharray: 5 4; stroke-width: 1.2; }
svg .gap { stroke-dasharray: 1 5; }
svg .mark, svg .name { font: bold 11px system-ui, sans-serif; paint-order: stroke; stroke: var(--ground); stroke-width: 4px; }
svg .name { font-style: italic; }
details { padding: 4px 8px; font-size: 13px; color: var(--faint); }
pre { font: 12px ui-monospace, monospace; color: var(--text); white-space: pre-wrap; }
@media (max-width: 700px) {
  main { flex-direction: column; }
  #left { max-width: none; flex: 0 0 50%; border-right: 0; border-bottom: 1px solid var(--line); }
  #current { max-height: 30%; }
  #place { min-width: 0; }
}
</style>
</head>
<body>
<header>
<h1 id='title'></h1>
<button id='first' title='Home'>first</button>
<button id='event-back' title='Arrow left'>&larr; event</button>
<button id='ticket-back' title='Arrow up'>&larr; statement</button>
<button id='ticket-on' title='Arrow down'>statement &rarr;</button>
<button id='event-on' title='Arrow right'>event &rarr;</button>
<button id='last' title='End'>last</button>
<button id='refusal' title='r'>next refusal</button>
<button id='wait' title='w'>next wait</button>
<input id='slider' type='range' min='0' aria-label='step'>
<span id='place'></span>
</header>
<div id='told'></div>
<main>
<div id='left'><div id='time'><table id='rows'></table></div><div id='current'></div></div>
<div id='right'><div id='areas'></div><div id='sets'></div><div id='more'></div><div id='picture'></div><details id='details'><summary>As replay prints it</summary><pre id='printed'></pre></details></div>
</main>
<noscript>The page is drawn by a script of its own, which this browser does not run.</noscript>
<script type='application/json' id='run'>[
";
